// A module that was written is read back, in proofs/: laws over the definitions of crate format. No code of its own.
#![tactic(auto)]
