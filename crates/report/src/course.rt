// What a reach is walked by: its steps, its start and its bed.
ghost use Rattle.std.specs.Prelude.{◌+◌, ◌≤◌};
ghost use Rattle.decay.specs.held.Factors.{AreShares};
ghost use Rattle.flows.specs.held.Stored.{oxygen_of, Stores};
ghost use Rattle.report.specs.held.Bed.{loss_limit, BedInRange};
ghost use Rattle.report.specs.held.Digits.{oxygen_with};
ghost use Rattle.report.specs.held.Start.{StartInRange};

use crate::bed::Bed;
use decay::factors::Factors;
use decay::fixed;
use decay::step::Pace;
use flows::head::STORED_ZERO_WIDE;

// What a reach starts with: head BOD, head nitrogenous BOD, stored head oxygen and saturation. Oxygen is stored as its units plus 2^31.
#[derive(Clone, Copy)]
pub struct Start {
    pub bod: u64,
    pub nitrogenous: u64,
    pub oxygen: u64,
    pub saturation: u64,
    pub ghost range: { StartInRange bod nitrogenous oxygen saturation },
}

// A reach from its head to its foot: the paces of its two demands, its start and its bed.
#[derive(Clone, Copy)]
pub struct Course {
    pub bod: Pace,
    pub nitrogenous: Pace,
    pub start: Start,
    pub bed: Bed,
    pub ghost bed_range: { BedInRange bod.step bed },
}

impl Start {
    // Stored oxygen where these factors of BOD hold and nothing else takes any. The nitrogenous demand and a bed may take their most of it and
    // leave no less than 0.
    pub fn oxygen_with(self, f: Factors) -> u64
        requires { AreShares f }
        ensures stored { Stores result (oxygen_with f self.saturation self.bod (oxygen_of self.oxygen)) }
        ensures leaves { self.nitrogenous + loss_limit ≤ result }
    {
        let saturated = self.saturation + STORED_ZERO_WIDE;
        let after_decay = saturated - fixed::product(f.turned, self.bod);
        if self.oxygen <= saturated {
            after_decay - fixed::product(f.kept, saturated - self.oxygen)
        } else {
            let over = self.oxygen - saturated;
            after_decay + over - fixed::product(fixed::ONE - f.kept, over)
        }
    }
}
