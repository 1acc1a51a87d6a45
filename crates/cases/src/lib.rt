// The hand-checked cases of document 01 that are starred there: one table in specs/, proved by one statement in proofs/.
#![tactic(auto)]
