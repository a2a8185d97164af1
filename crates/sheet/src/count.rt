// Counting the records of files that passed.
ghost use Rattle.std.specs.Prelude.{◌≡◌, false, MatchOption};
ghost use Rattle.checks.specs.Passed.{pass_over};
ghost use Rattle.sheet.specs.Counted.{CountsOf};

use crate::next::Counts;
use model::Files;

// The counts of two files; none where the look-over refuses them.
pub(crate) fn counted(files: &Files) -> Option<Counts>
    ensures { MatchOption result (pass_over files.now ≡ false) (CountsOf files.now) }
{
    let summary = files.summary().ok()?;
    Some(Counts {
        bads: usize::from(summary.bads),
        commands: usize::from(summary.commands),
        zones: usize::from(summary.zones),
    })
}
