// The theorem about alerts over lists of calls: proofs alone.

#![tactic(auto)]
