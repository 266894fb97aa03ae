// The shares of one step, which is 1/1024 of a reach's travel time.
ghost use Rattle.std.specs.Prelude.{◌≡◌, ◌+◌, ◌*◌, ◌≤◌, ◌<◌};
ghost use Rattle.decay.specs.held.Digits.{small};
ghost use Rattle.decay.specs.held.Step.{RatesPass, exponent_of, step_of, mean_sum_of, mean_step_of};
ghost use Rattle.decay.specs.held.Factors.{SoundStep};
ghost use Rattle.decay.specs.Series.{term_of, next_terms, with_term, AreTerms, SumsExactly, most_terms};

use crate::exponents::Exponents;
use crate::fixed;
use crate::rates::Rates;

// BOD lost, BOD spent (turned to deficit and not yet filled again) and deficit filled in one step, as shares of one. The fact that they are sound is
// in `Pace` and not here, since `step_of` and `mean_step_of` of the definitions make steps of numbers alone.
#[derive(Clone, Copy)]
pub struct Step {
    pub lost: u64,
    pub spent: u64,
    pub filled: u64,
}

// A step that may be taken: its shares are small, and it spends no more BOD than it loses.
#[derive(Clone, Copy)]
pub struct Pace {
    pub step: Step,
    pub ghost sound: { SoundStep step },
}

// A term of a series in its two parts: BOD lost, and the deficit made of it that is filled again within the step.
#[derive(Clone, Copy)]
pub struct Terms {
    pub lost: u64,
    pub back: u64,
}

// A series: the sum of its terms, and how many it has.
#[derive(Clone, Copy)]
pub struct SeriesSum {
    pub sum: u64,
    pub count: u64,
}

// The most terms of a series: the fifth is 0 in the carried digits.
const MOST_TERMS: usize = 4;

// The seconds of a day times the 1,024 steps of a reach.
const DAY_STEPS: u64 = 88_473_600;

// The exponent of one step at the rate k, as a share of one. It takes numbers and no `Rates`, since it serves the one rate and the other.
#[tactic(auto, using(crate::proofs::step::Shares::exponent_small), unfolding(crate::specs::held::Step::exponent_of))]
pub fn exponent(k: u32, volume: u32, flow: u32) -> u64
    requires { RatesPass k k volume flow }
    ensures value { result ≡ exponent_of k volume flow }
    ensures bound { result ≤ small }
{
    fixed::quotient(
        u64::from(k) * u64::from(volume),
        DAY_STEPS * u64::from(flow),
    )
}

// One more term of a series.
#[tactic(auto, unfolding(crate::specs::Series::term_of))]
pub fn term(before: u64, y: u64, j: u64) -> u64
    requires { (before ≤ small) × (y ≤ small) × (0 < j) }
    ensures { result ≡ term_of before y j }
{
    fixed::product(before, y) / j
}

// Term j from the one before it.
#[tactic(auto, unfolding(crate::specs::Series::next_terms))]
pub fn next_terms(before: Terms, e: Exponents, j: u64) -> Terms
    requires { (before.lost + before.back ≤ small) × (0 < j) }
    ensures { result ≡ next_terms before e.y e.z j }
{
    let Terms { lost, back } = before;
    Terms {
        lost: term(lost, e.y, j),
        back: term(lost + back, e.z, j),
    }
}

// The sum with term i + 1 of a series: the first, the third and so on are added, the others taken away.
#[tactic(auto, unfolding(crate::specs::Series::with_term))]
pub fn with_term(sum: u64, t: u64, i: u64) -> u64
    requires { (t ≤ sum) × (sum ≤ 2 * small) }
    ensures { result ≡ with_term sum t i }
{
    if i % 2 == 0 { sum + t } else { sum - t }
}

// The terms of the series of exponents, from the first to the last that may count.
fn terms_of(e: Exponents) -> [u64; MOST_TERMS]
    ensures { AreTerms e.y e.z result }
{
    let mut terms = Terms { lost: e.y, back: 0 };
    let mut all = [e.y; MOST_TERMS];
    for i in 1..MOST_TERMS {
        // A count of terms is an index too, for which there is no `From` to eight bytes.
        terms = next_terms(terms, e, i as u64 + 1);
        all[i] = terms.lost + terms.back;
    }
    all
}

// The series of exponents. It stops at the first term after the leading one that is 0, or at its end. It makes no term after that, where `terms_of`
// makes all.
pub fn series(e: Exponents) -> SeriesSum
    ensures { SumsExactly e.y e.z result }
{
    let mut terms = Terms { lost: e.y, back: 0 };
    let mut sum = e.y;
    for i in 1..MOST_TERMS {
        let count = i as u64;
        terms = next_terms(terms, e, count + 1);
        let t = terms.lost + terms.back;
        let ended = t == 0;
        if ended {
            return SeriesSum { sum, count };
        }
        sum = with_term(sum, t, count);
    }
    SeriesSum {
        sum,
        count: MOST_TERMS as u64,
    }
}

// The mean over one step of the series of exponents.
#[tactic(auto, using(crate::proofs::step::Shares::terms_fall), unfolding(crate::specs::held::Step::mean_sum_of, crate::specs::Series::with_term))]
pub fn mean_series(e: Exponents) -> u64
    ensures { result ≡ mean_sum_of e.y e.z most_terms }
{
    let [first, second, third, fourth] = terms_of(e);
    first / 2 - second / 3 + third / 4 - fourth / 5
}

// The exponents of one step of a reach.
pub fn exponents(rates: Rates) -> Exponents
    ensures y { result.y ≡ exponent_of rates.k1 rates.volume rates.flow }
    ensures z { result.z ≡ exponent_of rates.k2 rates.volume rates.flow }
{
    let Rates {
        k1,
        k2,
        volume,
        flow,
    } = rates;
    Exponents {
        y: exponent(k1, volume, flow),
        z: exponent(k2, volume, flow),
    }
}

// The shares of one step of a reach.
#[tactic(auto, using(crate::proofs::step::Shares::step_sound), unfolding(crate::specs::held::Step::step_of))]
pub fn step_of(rates: Rates) -> Pace
    ensures { result.step ≡ step_of rates.k1 rates.k2 rates.volume rates.flow }
{
    let e = exponents(rates);
    let step = Step {
        lost: series(e.bod()).sum,
        spent: series(e).sum,
        filled: series(e.deficit()).sum,
    };
    Pace { step }
}

// The means over one step of the shares of a reach. It has `step_of`'s shape with another series: a closure for the series would bring clauses of its
// own for each of the three shares, and a struct of the three exponents would only name them again, so that neither is plainer.
#[tactic(auto, using(crate::proofs::step::MeanShares::mean_step_sound), unfolding(crate::specs::held::Step::mean_step_of))]
pub fn mean_step_of(rates: Rates) -> Pace
    ensures { result.step ≡ mean_step_of rates.k1 rates.k2 rates.volume rates.flow }
{
    let e = exponents(rates);
    let step = Step {
        lost: mean_series(e.bod()),
        spent: mean_series(e),
        filled: mean_series(e.deficit()),
    };
    Pace { step }
}
