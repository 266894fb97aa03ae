// The factors of an instant: what a reach's head values have become there.
ghost use Rattle.std.specs.Prelude.{◌≡◌, ◌+◌, ◌≤◌};
ghost use Rattle.decay.specs.Fixed.{one};
ghost use Rattle.decay.specs.held.Factors.{AreShares, next_demand, head_factors, next_factors};

use crate::fixed;
use crate::step::Pace;

// A reach is 1,024 steps, and its instants are those from 0, its head, to its foot.
pub const STEPS: u64 = 1_024;

pub const FOOT: u64 = STEPS;

// A demand, such as BOD, in parts of 2^-44: what is left of it, and what of it has turned to deficit. It starts with at most one.
#[derive(Clone, Copy)]
pub struct DemandFactors {
    pub left: u64,
    pub turned: u64,
}

// BOD left, head BOD turned to deficit and head deficit left, as shares of one. That they are shares is a clause and no ghost field, since the sums
// and the averages of `mean`, which are of this type too, are none; and it has a demand's two fields of its own, since the laws of both name them.
#[derive(Clone, Copy)]
pub struct Factors {
    pub left: u64,
    pub turned: u64,
    pub kept: u64,
}

// The factors of the head.
#[tactic(auto, unfolding(crate::specs::held::Factors::head_factors))]
pub fn start() -> Factors
    ensures { result ≡ head_factors }
{
    Factors {
        left: fixed::ONE,
        turned: 0,
        kept: fixed::ONE,
    }
}

// A demand one step further down.
#[tactic(auto, using(crate::proofs::factors::Instants::moved))]
pub fn next_demand(pace: Pace, d: DemandFactors) -> DemandFactors
    requires { d.left + d.turned ≤ one }
    ensures { result ≡ next_demand pace.step d }
{
    let s = pace.step;
    let DemandFactors { left, turned } = d;
    DemandFactors {
        left: left - fixed::product(left, s.lost),
        turned: turned - fixed::product(turned, s.filled) + fixed::product(left, s.spent),
    }
}

// The factors one step further down.
#[tactic(auto, using(crate::proofs::factors::Instants::filled_kept), unfolding(crate::specs::held::Factors::next_factors))]
pub fn next(pace: Pace, f: Factors) -> Factors
    requires { AreShares f }
    ensures { result ≡ next_factors pace.step f }
{
    let Factors { left, turned, kept } = f;
    let bod = next_demand(pace, DemandFactors { left, turned });
    Factors {
        left: bod.left,
        turned: bod.turned,
        kept: kept - fixed::product(kept, pace.step.filled),
    }
}
