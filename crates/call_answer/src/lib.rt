// What a push and a close answer, as definitions alone.
#![tactic(auto)]
