// Statements over the rows of an output, and no code: the motion in force, what stays curved, and behind which words marked rows do.
#![tactic(auto)]
