// The three demands, the chain from plan to ticks and the worked rows, stated and proved in one place. There is no code here.
#![tactic(auto)]
