// Spectral quantisation: one line at a time, the search for the gain index, and the estimate of what the lines cost.
#![tactic(auto)]

pub mod estimate;
pub mod gain;
pub mod quantiser;
