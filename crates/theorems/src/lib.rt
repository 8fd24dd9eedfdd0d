// What the calls say together, as theorems over their outcomes. There is no code here.
#![tactic(auto)]
