// The lines of a day's instants, and what a minute does to them, in definitions and laws; there is no code here.
#![tactic(auto)]
