// Reading what was written, and writing what was read: what is proved of the reader and the writer together; there is no code here.
#![tactic(auto)]
