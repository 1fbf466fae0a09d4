// The reference model of the condition monitor: definitions alone, in specs/.

#![tactic(auto)]
