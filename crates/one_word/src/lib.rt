// How far one misheard word can move points and totals, over any accepted model. There is no code here.
#![tactic(auto)]
