// The three demands, each one theorem over the contracts of the code: see proofs/Demand1.antt, Demand2.antt and Demand3.antt.
#![tactic(auto)]
