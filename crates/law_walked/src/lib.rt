// The walk of a loaded module never breaks, and goes the same way after writing and loading again: laws, in proofs/. No code of its own.
#![tactic(auto)]
