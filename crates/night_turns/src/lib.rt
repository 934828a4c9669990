// What a call, a turn and a whole try of a night promise, and that turns one after another do what the definition of a try says: laws, and no code.
#![tactic(auto)]
