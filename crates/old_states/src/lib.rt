// What a call answers to a saved state of another length, as laws over the definitions below, and no code.
#![tactic(auto)]
