// What is proved of any caller's run of accepted steps from the fresh state: it is the paper's one execution model; there is no code here.
#![tactic(auto)]
