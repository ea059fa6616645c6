// Reading in document 01's words, and the proof that it is what the reader does; there is no code here.
#![tactic(auto)]
