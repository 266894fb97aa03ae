// Acceptance of a river file: reading, then the flow check of its cards with the rates in force.
ghost use Rattle.flows.specs.held.Accepts.{Accepts};

use crate::flow::{FlowTable, flow_check};
use crate::rates::in_force;
use river::card::Cards;
use river::file::read_file;
use river::refusal::Refusal;

// An accepted river: the effective cards, which have the rates in force, and their flows.
#[derive(Clone, Copy)]
pub struct Acceptance {
    pub effective: Cards,
    pub flows: FlowTable,
}

// Only a file read without refusal goes on to the flow check.
pub fn accept(file: &[u8]) -> Result<Acceptance, Refusal>
    ensures { Accepts file.now result }
{
    let reading = read_file(file)?;
    let effective = in_force(reading.factors, reading.cards);
    let flows = flow_check(effective)?;
    Ok(Acceptance { effective, flows })
}
