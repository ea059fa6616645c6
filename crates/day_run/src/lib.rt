// A run of a day's minutes from the fresh state on, each a step with the tape's requests of its instant. It prints nothing.
#![tactic(auto)]
