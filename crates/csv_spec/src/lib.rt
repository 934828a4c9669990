// The definition of the row text program, from the bytes of its input to the bytes of its outputs, and no code.
#![tactic(auto)]
