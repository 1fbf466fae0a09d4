// Laws of the definitions, as proofs alone: there is no code here.

#![tactic(auto)]
