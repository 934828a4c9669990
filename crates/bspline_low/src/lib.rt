#![tactic(auto)]

pub mod four;
pub mod low;
