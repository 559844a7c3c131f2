// The partitioned allocation problem: its definitions are in specs/, its theorems in proofs/.
#![tactic(auto)]
