// A reach of an accepted river, before its head is known and below it.
ghost use Rattle.report.specs.held.Lines.{LineAt, LineReady, HeadFits};

use flows::flow::ReachFlows;
use flows::head::{Brought, Head};
use river::card::Card;

// A reach with its flows and what its feeders bring. A function that reports a reach is handed these, and no table, which would be copied for each
// reach.
#[derive(Clone, Copy)]
pub struct Site {
    pub card: Card,
    pub flows: ReachFlows,
    pub brought: Brought,
    pub ghost here: { ∥ LineAt card flows brought ∥₁ },
}

// A reach with its flow and depth below its head, and whether oxygen is used up above.
#[derive(Clone, Copy)]
pub struct Reach {
    pub card: Card,
    pub flow: u32,
    pub depth: u8,
    pub head: Head,
    pub used: bool,
    pub ghost ready: { LineReady card flow },
    pub ghost fits: { HeadFits head },
}
