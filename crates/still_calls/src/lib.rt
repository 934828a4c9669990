// Statements over the calls, and no code: which marked rows stay curved in what a call writes, and in the output of any calls.
#![tactic(auto)]
