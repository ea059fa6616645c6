// What is proved of every sheet that the reader accepts: good order, no loop, and that the judge passes it; there is no code here.
#![tactic(auto)]
