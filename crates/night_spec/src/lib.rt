// The definition of a try of a night, from the bytes of its file to the bytes that it writes and the tally that it leaves, and no code.
#![tactic(auto)]
