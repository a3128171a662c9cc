// A module that was loaded and written is accepted again, and says the same: laws, in proofs/. No code of its own.
#![tactic(auto)]
