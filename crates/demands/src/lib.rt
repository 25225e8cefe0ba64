// Demand 1: what a refused, a silenced and a faulted call leave, for every record. There is no code
// here: what document 01 names is in specs/, the theorems are in proofs/.
#![tactic(auto)]
