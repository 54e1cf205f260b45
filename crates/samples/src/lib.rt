// The samples of document 01, listed in specs/Samples.antt and proved in proofs/Theorems.antt. There is no code here.
#![tactic(auto)]
