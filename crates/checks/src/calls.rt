// The four checks, as they are called. The files, the marks and the area are the caller's, who hands each of them over by itself:
// the start check takes no area, and the bad check no marks.
ghost use Rattle.std.specs.Prelude.{◌≡◌, true, length, Some, None, MatchResult};
ghost use Rattle.model.specs.Files.{model_in, zones_in};
ghost use Rattle.checks.specs.Passed.{pass_over};
ghost use Rattle.checks.specs.Calls.{refused_start, refused_zone, refused_record, Asked, StartAnswer, BadAnswer, TimeAnswer, CommandAnswer};
ghost use Rattle.checks.specs.Decisions.{refused_check, refusal_printed, Decided};

use crate::area::AREA;
use crate::check::{Check, Settled};
use crate::cover::holds_zero;
use crate::listed::Listed;
use crate::origin::Origin;
use bound::Bound;
use model::Files;
use std::fmt;

// Why a check is not made: the files did not pass the look-over, the work area has fewer than 578 bounds, no zone of the
// list has this number, no command or bad record of the model has this number.
#[derive(Clone, Copy, Debug, PartialEq, Eq)]
pub enum Refusal {
    NotPassed,
    ShortArea,
    NoSuchZone,
    NoSuchRecord,
}

impl fmt::Display for Refusal {
    ghost output = { λ r. Some (refusal_printed r) };

    fn fmt<W: fmt::Write>(&self, f: &mut fmt::Formatter<W>) -> fmt::Result {
        match *self {
            Refusal::NotPassed => write!(f, "not passed"),
            Refusal::ShortArea => write!(f, "short area"),
            Refusal::NoSuchZone => write!(f, "no such zone"),
            Refusal::NoSuchRecord => write!(f, "no such record"),
        }
    }
}

// Files that passed.
fn passed(files: &Files) -> Result<(), Refusal>
    ensures { MatchResult result (λ _. (refused_start files.now ≡ None) × (pass_over files.now ≡ true)) (λ f. refused_start files.now ≡ Some f) }
{
    if files.passed() {
        Ok(())
    } else {
        Err(Refusal::NotPassed)
    }
}

// Where a check of the n-th zone starts, in a work area of so many bounds.
fn asked<'f, 'a>(files: &'f Files<'a>, area: usize, n: usize) -> Result<Origin<'f, 'a>, Refusal>
    ensures { MatchResult result (λ o. Asked files.now area n o) (λ f. refused_zone files.now area n ≡ Some f) }
{
    passed(files)?;
    if area < AREA {
        return Err(Refusal::ShortArea);
    }
    let Some(zone) = files.zone(n) else {
        return Err(Refusal::NoSuchZone);
    };
    Ok(Origin { files, zone })
}

// The start check: the lowest numbered unstruck zone that holds the start.
pub fn start_check<B: Bound>(files: &Files, struck: &[bool; 512]) -> Result<Option<usize>, Refusal>
    ensures { MatchResult result (λ o. (refused_start files.now ≡ None) × StartAnswer B.admits files.now struck.now o) (λ f. refused_start files.now ≡ Some f) }
{
    passed(files)?;
    let booleans = files.start();
    let listed = Listed::of(files, struck);
    Ok(listed.lowest(|zone| holds_zero(zone, booleans)))
}

// The bad check of a zone and a bad record: whether no state of the zone meets the record.
pub fn bad_check<B: Bound>(
    files: &Files,
    zone: usize,
    bad: usize,
    area: &mut [B],
) -> Result<bool, Refusal>
    ensures { MatchResult result (λ o. (refused_record files.now (length area.old) zone (model_in files.now).bads bad ≡ None) × BadAnswer B.admits files.now zone bad o) (λ f. (refused_record files.now (length area.old) zone (model_in files.now).bads bad ≡ Some f) × (area.new ≡ area.old)) }
{
    let origin = asked(files, area.len(), zone)?;
    let Some(record) = files.bad(bad) else {
        return Err(Refusal::NoSuchRecord);
    };
    Ok(origin.none_meets(record, area))
}

// The time check of a zone: the lowest numbered unstruck zone that holds every state that a timed step reaches from it.
pub fn time_check<B: Bound>(
    files: &Files,
    struck: &[bool; 512],
    zone: usize,
    area: &mut [B],
) -> Result<Option<usize>, Refusal>
    ensures { MatchResult result (λ o. (refused_zone files.now (length area.old) zone ≡ None) × TimeAnswer B.admits files.now struck.now zone o) (λ f. (refused_zone files.now (length area.old) zone ≡ Some f) × (area.new ≡ area.old)) }
{
    let origin = asked(files, area.len(), zone)?;
    Ok(origin.cover_time(struck, area))
}

// The command check of a zone and a command: the lowest numbered unstruck zone that holds every state that the command
// reaches from it.
pub fn command_check<B: Bound>(
    files: &Files,
    struck: &[bool; 512],
    zone: usize,
    command: usize,
    area: &mut [B],
) -> Result<Option<usize>, Refusal>
    ensures { MatchResult result (λ o. (refused_record files.now (length area.old) zone (model_in files.now).commands command ≡ None) × CommandAnswer B.admits files.now struck.now zone command o) (λ f. (refused_record files.now (length area.old) zone (model_in files.now).commands command ≡ Some f) × (area.new ≡ area.old)) }
{
    let origin = asked(files, area.len(), zone)?;
    let Some(record) = files.command(command) else {
        return Err(Refusal::NoSuchRecord);
    };
    Ok(origin.cover_command(record, struck, area))
}

// Decides a check in a work area. The start check takes none. A `match`, since which check it is comes as data: a closure for it
// would have to be made and handed out.
pub fn decide<B: Bound>(
    files: &Files,
    struck: &[bool; 512],
    check: Check,
    area: &mut [B],
) -> Result<Settled, Refusal>
    ensures { MatchResult result (λ a. (refused_check files.now (length area.old) check ≡ None) × Decided B.admits (model_in files.now) (zones_in files.now) struck.now check a) (λ f. (refused_check files.now (length area.old) check ≡ Some f) × (area.new ≡ area.old)) }
{
    match check {
        Check::Start => Ok(start_check::<B>(files, struck)?.into()),
        Check::Bad(zone, bad) => Ok(bad_check(files, zone, bad, area)?.into()),
        Check::Time(zone) => Ok(time_check(files, struck, zone, area)?.into()),
        Check::Command(zone, command) => {
            Ok(command_check(files, struck, zone, command, area)?.into())
        }
    }
}
