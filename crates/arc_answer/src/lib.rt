// What an arc comes to, as definitions alone: who cites them need not read the code that meets them.
#![tactic(auto)]
