// The mean oxygen of each reach of a river, and the mean of these weighted by volume.
ghost use Rattle.std.specs.Prelude.{◌≡◌, ◌++◌, ◌*◌, ◌≤◌, length, drop};
ghost use Rattle.river.specs.Card.{card_list};
ghost use Rattle.report.specs.held.Lines.{Ready};
ghost use Rattle.report.specs.Report.{first_rows};
ghost use Rattle.report.specs.Mean.{mean_bytes};
ghost use Rattle.report.specs.held.Answers.{AnswersMeans};
ghost use Rattle.report.specs.held.MeanLines.{AveragedBy, AllAveraged, stored_row};

use crate::reach::Site;
use crate::weights::Weights;
use crate::{along, lines, record, status};
use flows::flow::FlowTable;
use flows::head::Brought;
use flows::{accept, flow, head};
use river::bytes::Cursor;
use river::card::{Cards, REACHES};
use river::refusal::{Refusal, Rule};

// How many bytes a mean has.
pub const MEAN_SIZE: usize = 4;

// What the foot of a reach brings, and beside it the stored mean oxygen of the reach as it is reported.
#[derive(Clone, Copy)]
pub struct ReachMean {
    pub brings: Brought,
    pub mean: u32,
}

// The stored means of the reaches of a river, and their sums.
#[derive(Clone, Copy)]
pub struct MeanTable {
    pub stored: [u32; REACHES],
    pub weights: Weights,
}

// What the call tells of an accepted river: how many reaches it has, and its mean weighted by volume, the units stored.
#[derive(Clone, Copy)]
pub struct RiverMean {
    pub count: usize,
    pub units: u32,
    pub remainder: u64,
}

// What the foot of a reach brings, and its mean.
pub fn average_reach(site: Site) -> ReachMean
    ensures { AveragedBy site result }
{
    let reach = lines::reach_at(site);
    let p = along::along_of(reach);
    let used = along::is_used_up(reach, p);
    ReachMean {
        brings: head::brought_by(
            reach.flow,
            p.foot_bod,
            p.foot_nitrogenous,
            p.foot_oxygen,
            used,
        ),
        mean: status::reported_mean(reach.used, p.mean),
    }
}

// The means of all reaches, and their sums. What the loop shares with that of the report is `site_at`: one walk for both would take what is done at a
// reach as a closure, and its clauses on the closure's states, reach by reach, are no plainer than the two loops.
pub fn average_all(cards: Cards, flows: FlowTable) -> MeanTable
    requires { Ready (card_list cards) flows }
    ensures { AllAveraged (card_list cards) result }
{
    let mut by_reach = head::nothing_brought();
    let mut stored = [0u32; REACHES];
    let mut weights = Weights::none();
    for i in 0..flow::reach_count(cards.count) {
        let site = lines::site_at(&cards, &flows, &by_reach, i);
        let averaged = average_reach(site);
        by_reach[i] = averaged.brings;
        stored[i] = averaged.mean;
        let volume = status::counted(site.brought.used, site.card.volume);
        weights = weights.weigh(volume, averaged.mean);
    }
    MeanTable { stored, weights }
}

// Puts stored means in their places.
pub fn put_table(means: &mut [u8], stored: &[u32])
    requires { mean_bytes * length stored.now ≤ length means.old }
    ensures { means.new ≡ first_rows (stored_row stored.now) (length stored.now) ++ drop (mean_bytes * length stored.now) means.old }
{
    let mut cursor = Cursor { out: means, at: 0 };
    for mean in stored {
        record::put_complement(&mut cursor, *mean);
    }
}

// The mean oxygen of each reach of a river file, in four bytes each, and the mean of the river, or a refusal, which writes nothing.
pub fn mean(file: &[u8], means: &mut [u8]) -> Result<RiverMean, Refusal>
    ensures { AnswersMeans file.now means.old means.new result }
{
    let river = accept::accept(file)?;
    let count = flow::reach_count(river.effective.count);
    if means.len() < MEAN_SIZE * count {
        return Err(Rule::BufferShort.at(0));
    }
    let table = average_all(river.effective, river.flows);
    if table.weights.volume == 0 {
        return Err(Rule::NoVolume.at(0));
    }
    put_table(means, &table.stored[..count]);
    let (units, remainder) = table.weights.divide();
    Ok(RiverMean {
        count,
        units,
        remainder,
    })
}
