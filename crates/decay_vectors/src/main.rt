// Prints the shares of a step, how many terms each of their series has, and the factors at the instants 0, 1, 512 and 1024, for two dozen
// reaches: equal rates, rates one apart, zero rates, no volume, the longest travel time that check 11 passes, the smallest and the largest
// flow, and exponents just below and at each place where a count of terms changes.
#![tactic(auto)]

ghost use Rattle.decay.specs.held.Step.{RatesPass};
ghost use Rattle.decay.specs.held.Factors.{AreShares};

use decay::factors::Factors;
use decay::rates::Rates;
use decay::step::Pace;
use decay::{factors, step};
use printing::Out;
use std::fmt;
use std::fmt::Write;

// The instants that are printed, each with how many steps it lies below the one before, which the proof of the loop need not subtract.
const INSTANTS: [(u32, u32); 4] = [(0, 0), (1, 1), (512, 511), (1_024, 512)];

// A label and three numbers, on a line.
fn line(out: &mut Out, label: &str, a: u64, b: u64, c: u64) -> fmt::Result {
    writeln!(out, "{label} {a} {b} {c}")
}

// The factors so many steps further down.
fn after(pace: Pace, from: Factors, steps: u32) -> Factors
    requires { AreShares from }
    ensures { AreShares result }
{
    let mut f = from;
    for _ in 0..steps {
        f = factors::next(pace, f);
    }
    f
}

// A line for each instant.
fn instants(out: &mut Out, pace: Pace) -> fmt::Result {
    let mut f = factors::start();
    for (instant, steps) in INSTANTS {
        f = after(pace, f, steps);
        let Factors { left, turned, kept } = f;
        writeln!(out, "{instant} {left} {turned} {kept}")?;
    }
    Ok(())
}

// How many terms the series of each share of a step has.
fn terms(out: &mut Out, rates: Rates) -> fmt::Result {
    let e = step::exponents(rates);
    let lost = step::series(e.bod()).count;
    let spent = step::series(e).count;
    let filled = step::series(e.deficit()).count;
    line(out, "terms", lost, spent, filled)
}

// A reach: its card's numbers, the shares of its step with their terms, and four instants.
fn reach(out: &mut Out, rates: Rates) -> fmt::Result {
    let Rates {
        k1,
        k2,
        volume,
        flow,
    } = rates;
    writeln!(out, "flow {flow}")?;
    line(out, "card", u64::from(k1), u64::from(k2), u64::from(volume))?;
    let pace = step::step_of(rates);
    let s = pace.step;
    line(out, "step", s.lost, s.spent, s.filled)?;
    terms(out, rates)?;
    instants(out, pace)
}

// A row of the table below, which is proved to pass where it stands.
fn rates_of(k1: u32, k2: u32, volume: u32, flow: u32) -> Rates
    requires { RatesPass k1 k2 volume flow }
{
    Rates {
        k1,
        k2,
        volume,
        flow,
    }
}

// All reaches.
fn reaches(out: &mut Out) -> fmt::Result {
    let all = [
        rates_of(1000, 1000, 864000, 10000),
        rates_of(1000, 1001, 864000, 10000),
        rates_of(1001, 1000, 864000, 10000),
        rates_of(0, 1000, 864000, 10000),
        rates_of(1000, 0, 864000, 10000),
        rates_of(0, 0, 864000, 10000),
        rates_of(300, 700, 0, 10000),
        rates_of(20000, 20000, 1728000, 100000),
        rates_of(20000, 19999, 1728000, 100000),
        rates_of(1, 20000, 17, 1),
        rates_of(345, 1000, 345, 1),
        rates_of(20000, 3, 1000000000, 100000000),
        rates_of(3, 20000, 1000000000, 100000000),
        // Reaches of equal rates in pairs, the exponents of a step one part of 2^-44 apart. From the first of a pair to the second comes a
        // second term of all three series, a third of BOD spent, a third of BOD lost and deficit filled, a fourth of BOD spent, a fourth of
        // BOD lost and deficit filled.
        rates_of(100, 100, 724, 2427),
        rates_of(700, 700, 333, 7814),
        rates_of(3000, 3000, 27938, 17083),
        rates_of(1500, 1500, 32859, 10046),
        rates_of(700, 700, 108962, 12339),
        rates_of(100, 100, 56437, 913),
        rates_of(1500, 1500, 119063, 2458),
        rates_of(2000, 2000, 1059760, 29171),
        rates_of(1200, 1200, 294912, 3701),
        rates_of(2000, 2000, 829945, 17359),
    ];
    for rates in all {
        reach(out, rates)?;
    }
    Ok(())
}

// What cannot be written is passed over, with status 0.
fn main() {
    let _ = reaches(&mut Out);
}
