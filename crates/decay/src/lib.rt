// Decay factors of a reach: what is left of a demand and of the oxygen deficit, and what of the demand has turned to deficit, at each of its 1,025 instants; and their means over the reach.
#![tactic(auto)]

pub mod exponents;
pub mod factors;
pub mod fixed;
pub mod mean;
pub mod rates;
pub mod step;
