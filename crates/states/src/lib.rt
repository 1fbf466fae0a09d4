// What a network's relations, batches and areas of good form have in common, for any state: laws alone.

#![tactic(auto)]
