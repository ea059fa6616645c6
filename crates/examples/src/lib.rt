// Document 01's bench examples marked P, as one table with one proof; there is no code here.
#![tactic(auto)]
