// The saved state: its words and its check.
#![tactic(auto)]

pub mod state;
