// Rates in force, flows, the flow check and the head of a reach.
#![tactic(auto)]

pub mod accept;
pub mod flow;
pub mod head;
pub mod rates;
