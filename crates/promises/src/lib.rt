// What one call of a sector promises, as theorems over its contract. There is no code to run here.
#![tactic(auto)]
