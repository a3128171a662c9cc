// Laws over the definitions of crate format, in proofs/: what an accepted load leaves, and that the writer takes it. No code of its own.
#![tactic(auto)]
