// What any calls may answer, and runs of calls: statements over replies, and no code.
#![tactic(auto)]
