// A statement over the definitions of a try, and no code: behind the end of its input it is not open any more.
#![tactic(auto)]
