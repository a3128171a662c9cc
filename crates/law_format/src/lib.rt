// Laws over the definitions of crate format, in proofs/: what the proofs of the code cite. No code of its own.
#![tactic(auto)]
