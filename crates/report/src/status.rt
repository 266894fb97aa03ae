// "Oxygen used up": the status of a reach, and what is reported at each status.
ghost use Rattle.std.specs.Prelude.{◌≡◌, cond, pos};
ghost use Rattle.flows.specs.held.Stored.{oxygen_of};
ghost use Rattle.report.specs.held.LineFigures.{figures_in};
ghost use Rattle.report.specs.Status.{status_by, is_used, reported};
ghost use Rattle.report.specs.held.StatusNumber.{number_of};

use crate::record::Line;
use flows::head::STORED_ZERO;

// The status of a reach: whether critical oxygen is below zero, unless a reach above has status 1 or 2. A record stores its number.
#[derive(Clone, Copy, Debug, PartialEq, Eq)]
pub enum Status {
    Ordinary = 0,
    UsedUp = 1,
    UsedUpAbove = 2,
}

impl Status {
    // The number of a status.
    pub fn number(self) -> u8
        ensures { result ≡ number_of self }
    {
        self as u8
    }
}

// The status of a reach, by whether oxygen is used up above and by its stored critical oxygen.
pub fn status_of(used: bool, critical: u32) -> Status
    ensures { number_of result ≡ status_by used (oxygen_of critical) }
{
    if used {
        Status::UsedUpAbove
    } else if critical < STORED_ZERO {
        Status::UsedUp
    } else {
        Status::Ordinary
    }
}

// Whether oxygen is used up at a reach whose status has this number, or above it. It takes any number, since `read_record` promises the byte of any
// buffer.
#[tactic(auto, unfolding(crate::specs::Status::is_used))]
pub fn is_used(status: u8) -> bool
    ensures { result ≡ is_used status }
{
    status != Status::Ordinary.number()
}

// The volume of a reach that counts for the mean of its river: none where oxygen is used up above.
pub fn counted(used: bool, volume: u32) -> u32
    ensures { result ≡ cond used 0 volume }
{
    if used { 0 } else { volume }
}

// The stored mean of a reach as it is reported: 0 where oxygen is used up above.
pub fn reported_mean(used: bool, mean: u32) -> u32
    ensures { oxygen_of result ≡ cond used (pos 0) (oxygen_of mean) }
{
    if used { STORED_ZERO } else { mean }
}

// The line of a reach as it is reported.
pub fn reported(line: Line) -> Line
    ensures { figures_in result ≡ reported (figures_in line) }
{
    if line.status != Status::UsedUpAbove.number() {
        return line;
    }
    Line {
        head_oxygen: STORED_ZERO,
        critical_instant: 0,
        critical_oxygen: STORED_ZERO,
        foot_oxygen: STORED_ZERO,
        ..line
    }
}
