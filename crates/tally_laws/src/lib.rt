// Statements over the definitions of a tally, and no code: figures, tries and rates as counts over the calls that it took.
#![tactic(auto)]
