// Where the samples of a curve and the rows of an emission lie: channels in a sample, samples and rows before a block.
#![tactic(auto)]

pub mod frame;
pub mod place;
