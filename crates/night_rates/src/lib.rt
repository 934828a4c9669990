// Statements over the marks of a night's jobs, and no code: their bits are those of the try words of the jobs' tallies, and so are the rates.
#![tactic(auto)]
