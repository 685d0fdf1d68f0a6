// No code: what the libraries below promise together, stated in specs/ and proved in proofs/.
#![tactic(auto)]
