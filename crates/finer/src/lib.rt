// Lists taken over into finer points, with every p and b multiplied by one number, and what they score then. There is no code here.
#![tactic(auto)]
