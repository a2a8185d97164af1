// The bad check.
ghost use Rattle.std.specs.Prelude.{◌≤◌, length, Decides};
ghost use Rattle.format.specs.Ranges.{GuardedFits};
ghost use Rattle.model.specs.Views.{guarded_in, zone_in};
ghost use Rattle.model.specs.Files.{model_in};
ghost use Rattle.checks.specs.Meanings.{BadCheck};
ghost use Rattle.checks.specs.Passed.{head_in};

use crate::area::table_in;
use crate::frame::Frame;
use crate::origin::Origin;
use crate::pour::pour;
use bound::Bound;
use model::Guarded;

impl Origin<'_, '_> {
    // Whether no state of the zone meets a bad record.
    pub(crate) fn none_meets<B: Bound>(self, bad: Guarded, area: &mut [B]) -> bool
        requires enough { 578 ≤ length area.old }
        requires fits { GuardedFits (head_in self.files.now) (guarded_in bad) }
        ensures { Decides result (BadCheck B.admits (model_in self.entry.files.now) (zone_in self.entry.zone) (guarded_in bad.entry)) }
    {
        let Origin { files, zone } = self;
        if !bad.condition().holds(zone.booleans()) {
            return true;
        }
        let frame = Frame::same();
        let mut table = table_in(area, files.clocks() + 1);
        pour(&mut table, &frame, zone.atoms());
        pour(&mut table, &frame, bad.atoms());
        table.close().is_none()
    }
}
