// The placing rule of the double array and its laws, for the specifications and proofs of the builder. There is no code here.
#![tactic(auto)]
