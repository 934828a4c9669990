// What a close leaves, as laws over the definitions below, and no code.
#![tactic(auto)]
