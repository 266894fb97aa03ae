// The means of the factors over a reach, from their sums over its instants.
ghost use Rattle.std.specs.Prelude.{◌≡◌, ℕ};
ghost use Rattle.decay.specs.Exact.{steps, foot};
ghost use Rattle.decay.specs.held.Factors.{AreShares, next_demand, next_factors};
ghost use Rattle.decay.specs.held.Mean.{DemandShares, DemandsFit, FactorsFit, no_demand, no_factors, demand_plus, factors_plus, demand_averaged, factors_averaged, next_sums, SumsFit, Summed};
ghost use Rattle.decay.specs.held.Stepped.{SteppedLaws, demand_laws, factor_laws};
ghost use Rattle.decay.specs.declared.step.Step.{Step};

use crate::factors;
use crate::factors::{DemandFactors, FOOT, Factors, STEPS};
use crate::step::Pace;

// What a step of a reach changes, and what has a mean over its instants.
pub trait Stepped: Copy {
    // What a value becomes with a step.
    ghost next: { Step → Self → Self };

    // No value, the sum of two, and the average of the 1,024 values of a sum.
    ghost none: { Self };

    ghost plus: { Self → Self → Self };

    ghost averaged: { Self → Self };

    // A value in range, and a sum of at most so many of them.
    ghost shares: { Self → Type 0 };

    ghost fit: { ℕ → Self → Type 0 };

    fn next(self, pace: Pace) -> Self
        requires { shares self }
        ensures stepped { result ≡ next pace.step self }
        ensures in_range { shares result };

    fn none() -> Self
        ensures { result ≡ none };

    fn plus(self, other: Self) -> Self
        requires { fit steps self × shares other }
        ensures { result ≡ plus self other };

    fn averaged(self) -> Self
        ensures { result ≡ averaged self };

    // What each impl must prove.
    ghost laws: { SteppedLaws none plus averaged shares fit };
}

impl Stepped for DemandFactors {
    ghost next = { next_demand };

    ghost none = { no_demand };

    ghost plus = { demand_plus };

    ghost averaged = { demand_averaged };

    ghost shares = { DemandShares };

    ghost fit = { DemandsFit };

    ghost laws = { demand_laws };

    #[tactic(auto, using(crate::proofs::factors::Instants::moved))]
    fn next(self, pace: Pace) -> DemandFactors {
        factors::next_demand(pace, self)
    }

    fn none() -> DemandFactors {
        DemandFactors { left: 0, turned: 0 }
    }

    fn plus(self, other: DemandFactors) -> DemandFactors {
        DemandFactors {
            left: self.left + other.left,
            turned: self.turned + other.turned,
        }
    }

    fn averaged(self) -> DemandFactors {
        DemandFactors {
            left: self.left / STEPS,
            turned: self.turned / STEPS,
        }
    }
}

impl Stepped for Factors {
    ghost next = { next_factors };

    ghost none = { no_factors };

    ghost plus = { factors_plus };

    ghost averaged = { factors_averaged };

    ghost shares = { AreShares };

    ghost fit = { FactorsFit };

    ghost laws = { factor_laws };

    #[tactic(auto, using(crate::proofs::factors::Instants::next_range))]
    fn next(self, pace: Pace) -> Factors {
        factors::next(pace, self)
    }

    fn none() -> Factors {
        Factors {
            left: 0,
            turned: 0,
            kept: 0,
        }
    }

    fn plus(self, other: Factors) -> Factors {
        Factors {
            left: self.left + other.left,
            turned: self.turned + other.turned,
            kept: self.kept + other.kept,
        }
    }

    fn averaged(self) -> Factors {
        Factors {
            left: self.left / STEPS,
            turned: self.turned / STEPS,
            kept: self.kept / STEPS,
        }
    }
}

// What has come to an instant, and its sum over the instants before.
#[derive(Clone, Copy)]
pub struct Sums<T> {
    pub reached: T,
    pub sum: T,
}

// The sums one instant further.
pub fn next_sums<T: Stepped>(pace: Pace, s: Sums<T>) -> Sums<T>
    requires { SumsFit T.shares T.fit steps s }
    ensures stepped { result ≡ next_sums T.next T.plus pace.step s }
    ensures in_range { T.shares result.reached }
{
    let Sums { reached, sum } = s;
    Sums {
        reached: reached.next(pace),
        sum: sum.plus(reached),
    }
}

// The sums at the foot of what starts like this.
pub fn sums_of<T: Stepped>(pace: Pace, start: T) -> Sums<T>
    requires { T.shares start }
    ensures summed { Summed T.next T.none T.plus start pace.step foot result }
    ensures fit { SumsFit T.shares T.fit steps result }
{
    let mut s = Sums {
        reached: start,
        sum: T::none(),
    };
    for _ in 0..FOOT {
        s = next_sums(pace, s);
    }
    s
}

// The mean over the reach, from the sums at the foot.
pub fn mean<T: Stepped>(mean_pace: Pace, s: Sums<T>) -> T
    requires { T.fit steps s.sum }
    ensures stepped { result ≡ T.next mean_pace.step (T.averaged s.sum) }
    ensures in_range { T.shares result }
{
    s.sum.averaged().next(mean_pace)
}
