// ARPA texts printed from a list, and that the reader reads them back. There is no code here.
#![tactic(auto)]
