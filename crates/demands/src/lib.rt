// The demands as theorems over the definitions. There is no code here.
#![tactic(auto)]
