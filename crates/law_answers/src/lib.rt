// One answer each, for every operation that is offered: see proofs/Operations.antt, Checked.antt and ByHand.antt.
#![tactic(auto)]
