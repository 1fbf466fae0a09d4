// The theorem of demand 3: proofs alone.

#![tactic(auto)]
