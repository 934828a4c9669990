// Statements over the definitions of a night's tries, and no code: when a try stands closed, and when the tally takes a close.
#![tactic(auto)]
