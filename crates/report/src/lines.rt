// The report of an accepted river, reach by reach.
ghost use Rattle.std.specs.Prelude.{◌≡◌, ◌++◌, ◌≤◌, length, drop};
ghost use Rattle.decay.specs.held.Step.{step_of};
ghost use Rattle.river.specs.Card.{card_list};
ghost use Rattle.report.specs.Record.{has_nitrification};
ghost use Rattle.report.specs.held.LineFigures.{figures_in};
ghost use Rattle.report.specs.held.Lines.{Ready, ReachTables};
ghost use Rattle.report.specs.held.Reaches.{SiteOf, HeadBy, LineBy, PlacedAt, ReportedBy, RatesOf, CourseOf, figures_of_reach};
ghost use Rattle.report.specs.Report.{report_of, report_size};

use crate::course::{Course, Start};
use crate::reach::{Reach, Site};
use crate::record::Line;
use crate::{bed, profile, record, status};
use decay::rates::Rates;
use decay::step;
use decay::step::{Pace, Step};
use flows::flow::{FlowTable, reach_count};
use flows::head;
use flows::head::Brought;
use river::bytes::Cursor;
use river::card::{Cards, REACHES};
use river::source;
use river::source::Demand;

// The rates of a demand along a reach.
pub fn rates_of(demand: Demand, reach: Reach) -> Rates
    ensures { RatesOf demand reach result }
{
    Rates {
        k1: source::rate_of(demand, reach.card),
        k2: reach.card.k2,
        volume: reach.card.volume,
        flow: reach.flow,
    }
}

// The pace of the nitrogenous demand of a reach, beside that of its BOD. Its share filled is that of BOD, so that a walk holds one number for both.
// Without nitrification nothing is lost, and no series is summed.
fn nitrogenous_pace(rates: Rates, bod: Pace) -> Pace
    requires { bod.step.filled ≡ (step_of rates.k1 rates.k2 rates.volume rates.flow).filled }
    ensures { result.step ≡ step_of rates.k1 rates.k2 rates.volume rates.flow }
{
    let filled = bod.step.filled;
    let step = if rates.k1 == 0 {
        Step {
            lost: 0,
            spent: 0,
            filled,
        }
    } else {
        Step {
            filled,
            ..step::step_of(rates).step
        }
    };
    Pace { step }
}

// The course of a reach.
pub fn course_of(reach: Reach) -> Course
    ensures { CourseOf reach result }
{
    let Reach {
        card,
        flow,
        head,
        ..
    } = reach;
    let bod = step::step_of(rates_of(Demand::Bod, reach));
    let start = Start {
        bod: u64::from(head.bod),
        nitrogenous: u64::from(head.nitrogenous),
        oxygen: u64::from(head.oxygen),
        saturation: u64::from(head::saturation_of(card)),
    };
    Course {
        bod,
        nitrogenous: nitrogenous_pace(rates_of(Demand::Nitrogenous, reach), bod),
        start,
        bed: bed::bed_of(card, flow),
    }
}

// The figures of a reach. By `Profiled` each fits the bytes that it has in a record, so that `as` loses nothing here and in `along`.
pub fn line_of(reach: Reach) -> Line
    ensures { figures_in result ≡ figures_of_reach reach }
{
    let Reach {
        flow,
        depth,
        head,
        used,
        ..
    } = reach;
    let profile = profile::profile_of(course_of(reach));
    let critical_oxygen = profile.critical_oxygen as u32;
    Line {
        depth,
        flow,
        head_bod: head.bod,
        foot_bod: profile.foot_bod as u32,
        head_oxygen: head.oxygen,
        critical_instant: profile.critical_instant as u16,
        critical_oxygen,
        foot_oxygen: profile.foot_oxygen as u32,
        status: status::status_of(used, critical_oxygen).number(),
        head_nitrogenous: head.nitrogenous,
        foot_nitrogenous: profile.foot_nitrogenous as u32,
    }
}

// A reach below its head.
pub fn reach_at(site: Site) -> Reach
    ensures { HeadBy site result }
{
    let Site {
        card,
        flows,
        brought,
        ..
    } = site;
    Reach {
        card,
        flow: flows.flow,
        depth: flows.depth,
        head: head::head_of(card, 0 < flows.upstream, u64::from(flows.upstream), brought),
        used: brought.used,
    }
}

// The figures of a reach at its place in a river.
pub fn line_at(site: Site) -> Line
    ensures { LineBy site result }
{
    line_of(reach_at(site))
}

// Puts the record of a reach at a place, by whether its river has nitrification, and tells what its foot brings, with oxygen as it is.
// Buffer and place come side by side, since `PlacedAt`, which this public clause asks for, speaks of the place by the number of the reach.
pub fn report_reach(site: Site, nitrified: bool, report: &mut [u8], at: usize) -> Brought
    requires { PlacedAt site nitrified at (length report.old) }
    ensures { ReportedBy site nitrified at report.old report.new result }
{
    let line = line_at(site);
    record::put_record(
        &mut Cursor { out: report, at },
        status::reported(line),
        nitrified,
    );
    head::brought_by(
        site.flows.flow,
        line.foot_bod,
        line.foot_nitrogenous,
        line.foot_oxygen,
        status::is_used(line.status),
    )
}

// Reach i + 1 of a river, by its flows and by what the reaches before it bring.
pub fn site_at(cards: &Cards, flows: &FlowTable, by_reach: &[Brought; REACHES], i: usize) -> Site
    requires { ReachTables (card_list cards.now) flows.now by_reach.now i }
    ensures { SiteOf (card_list cards.now) flows.now by_reach.now i result }
{
    Site {
        card: cards.at[i],
        flows: flows[i],
        brought: head::brought_to(&flows[..i], &by_reach[..i], (i + 1) as u8),
    }
}

// Puts the records of all reaches in their places, by whether their river has nitrification. `average_all` goes over the reaches likewise: a walk
// that is handed a closure tells nothing of the buffer that it changes, and one that is handed a trait takes two structs and their laws for these lines.
pub fn report_all(cards: Cards, flows: FlowTable, nitrified: bool, report: &mut [u8])
    requires { Ready (card_list cards) flows × (report_size (card_list cards) ≤ length report.old) × (nitrified ≡ has_nitrification (card_list cards)) }
    ensures { report.new ≡ report_of (card_list cards) ++ drop (report_size (card_list cards)) report.old }
{
    let size = record::record_bytes(nitrified);
    let mut by_reach = head::nothing_brought();
    for i in 0..reach_count(cards.count) {
        let site = site_at(&cards, &flows, &by_reach, i);
        by_reach[i] = report_reach(site, nitrified, report, size * i);
    }
}
