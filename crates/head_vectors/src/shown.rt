// Flows and heads of an accepted river, printed. A foot has seven eighths of each demand at the head, and an oxygen that the test gives.
ghost use Rattle.std.specs.Prelude.{◌<◌, ◌≤◌};
ghost use Rattle.flows.specs.held.Accepts.{IsAccepted};

use flows::accept::{Acceptance, accept};
use flows::flow::{ReachFlows, reach_count};
use flows::head::{Head, brought_by, brought_to, head_of, nothing_brought, signed};
use printing::{Out, Signed};
use river::refusal::Refusal;
use std::fmt;
use std::fmt::Write;

// A reach: its number, depth, flow, undecayed BOD, head BOD, head nitrogenous BOD and head oxygen.
fn line(out: &mut Out, number: usize, reach: ReachFlows, head: Head) -> fmt::Result {
    let ReachFlows {
        depth,
        flow,
        mass,
        ..
    } = reach;
    let Head {
        bod,
        nitrogenous,
        oxygen,
    } = head;
    let oxygen = Signed {
        value: signed(oxygen),
    };
    writeln!(
        out,
        "{number} {depth} {flow} {mass} {bod} {nitrogenous} {oxygen}"
    )
}

// A refusal. Word, number and the space behind it are writes of their own here, as in the lines of reaches, where its `Display` joins two.
fn refusal(out: &mut Out, r: Refusal) -> fmt::Result {
    write!(out, "refused {} ", r.rule.number())?;
    writeln!(out, "reach {}", r.reach)
}

// Seven eighths.
fn less(demand: u32) -> u32
    ensures { result ≤ demand }
{
    demand - demand / 8
}

// Stored foot oxygen of reach i + 1. The first and the step come side by side, as a case has them: a struct of the two would be made in `main` and taken
// apart here.
fn foot_oxygen(first: u32, step: u32, i: usize) -> u32
    requires { i < 128 }
{
    first.wrapping_add(step.wrapping_mul(i as u32))
}

// Prints every reach of an accepted river.
fn reaches(out: &mut Out, accepted: Acceptance, first: u32, step: u32) -> fmt::Result
    requires { IsAccepted accepted }
{
    let Acceptance { effective, flows } = accepted;
    let mut by_reach = nothing_brought();
    for i in 0..reach_count(effective.count) {
        let reach = flows[i];
        let brought = brought_to(&flows[..i], &by_reach[..i], (i + 1) as u8);
        let head = head_of(
            effective.at[i],
            0 < reach.upstream,
            u64::from(reach.upstream),
            brought,
        );
        line(out, i + 1, reach, head)?;
        by_reach[i] = brought_by(
            reach.flow,
            less(head.bod),
            less(head.nitrogenous),
            foot_oxygen(first, step, i),
            false,
        );
    }
    Ok(())
}

// Prints what a river file yields. Feet have stored oxygen from the first, and a step more for each reach.
pub fn show(out: &mut Out, file: &[u8], first: u32, step: u32) -> fmt::Result {
    match accept(file) {
        Err(told) => refusal(out, told),
        Ok(accepted) => reaches(out, accepted, first, step),
    }
}
