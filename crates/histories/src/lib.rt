// No code: what the queue calls promise together, over histories of any length, stated in specs/ and proved in proofs/.
#![tactic(auto)]
