// The words of a state and a store after each call, and that they are not refused: laws, and no code.
#![tactic(auto)]
