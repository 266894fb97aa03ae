// The sludge bed of a reach: the oxygen that it takes, by two numbers.
ghost use Rattle.std.specs.Prelude.{◌≡◌, ◌≤◌, false};
ghost use Rattle.decay.specs.held.Factors.{AreShares};
ghost use Rattle.flows.specs.Flow.{flow_limit};
ghost use Rattle.report.specs.held.Bed.{BedPasses, bed_of, no_bed, loss_with, LossInRange};

use decay::factors::Factors;
use decay::{factors, fixed};
use flows::flow;
use river::card::Card;

// Units in a mg/L.
const UNITS: u64 = 1_000_000;

// Units in a mg/L to seconds in a day, in lowest terms.
const DAY_UNITS: u64 = 625;

const DAY_SECONDS: u64 = 54;

// The loss of oxygen to a bed, in units, by two numbers and no enum, since `loss_with` of the definitions adds both: that to which it comes in the
// end if there is aeration, and if there is none that at the foot, which it reaches in equal steps.
#[derive(Clone, Copy)]
pub struct Bed {
    pub eventual: u64,
    pub linear: u64,
}

// The bed of a reach with this card and flow.
pub fn bed_of(card: Card, flow: u32) -> Bed
    requires { BedPasses card flow × (1 ≤ flow) × (flow ≤ flow_limit) }
    ensures { result ≡ bed_of card flow }
{
    let demand = u64::from(flow::sludge_of(card));
    if card.k2 == 0 {
        Bed {
            eventual: 0,
            linear: demand * u64::from(card.volume) * DAY_UNITS / (DAY_SECONDS * u64::from(flow)),
        }
    } else {
        Bed {
            eventual: UNITS * demand / u64::from(card.k2),
            linear: 0,
        }
    }
}

impl Bed {
    // Whether a bed takes any oxygen.
    pub fn takes(self) -> bool
        ensures { result ≡ false → self ≡ no_bed }
    {
        0 < self.eventual || 0 < self.linear
    }

    // The oxygen lost to a bed at instant m, where these factors hold.
    pub fn loss_with(self, f: Factors, m: u64) -> u64
        requires { AreShares f × LossInRange f self m }
        ensures { result ≡ loss_with f self m }
    {
        fixed::product(fixed::ONE - f.kept, self.eventual) + self.linear * m / factors::STEPS
    }
}
