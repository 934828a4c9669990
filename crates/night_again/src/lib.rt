// Statements over the lines of a night's table, and no code: a line of tries reads back as what was written.
#![tactic(auto)]
