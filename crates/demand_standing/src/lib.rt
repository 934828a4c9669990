// What stands before each event of a sequence, and that a state and a store stand for it: no code.
#![tactic(auto)]
