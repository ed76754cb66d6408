// Nothing to run: the theorems by which the demands are answered are in proofs/.
#![tactic(auto)]
