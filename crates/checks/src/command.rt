// The command check.
ghost use Rattle.std.specs.Prelude.{◌≤◌, length};
ghost use Rattle.format.specs.Ranges.{CommandFits};
ghost use Rattle.model.specs.Views.{command_in, zone_in};
ghost use Rattle.model.specs.Files.{model_in, zones_in};
ghost use Rattle.checks.specs.Meanings.{CoversCommand, Names};
ghost use Rattle.checks.specs.Passed.{head_in};

use crate::area::table_in;
use crate::cover::cover;
use crate::frame::Frame;
use crate::listed::Listed;
use crate::origin::Origin;
use crate::pour::{pour, pour_invariant};
use bound::Bound;
use model::Command;

impl Origin<'_, '_> {
    // The lowest numbered zone that is not struck and holds every state that a command reaches from the zone.
    pub(crate) fn cover_command<B: Bound>(
        self,
        command: Command,
        struck: &[bool; 512],
        area: &mut [B],
    ) -> Option<usize>
        requires enough { 578 ≤ length area.old }
        requires fits { CommandFits (head_in self.files.now) (command_in command) }
        ensures { Names (CoversCommand B.admits (model_in self.entry.files.now) (zone_in self.entry.zone) (command_in command.entry)) struck.now (zones_in self.entry.files.now) result }
    {
        let Origin { files, zone } = self;
        let listed = Listed::of(files, struck);
        let before = zone.booleans();
        if !command.condition().holds(before) {
            return listed.lowest(|_| true);
        }
        let booleans = command.booleans_after(before);
        let from = Frame::same();
        let to = Frame::after(command.resets());
        let mut table = table_in(area, files.clocks() + 1);
        pour(&mut table, &from, zone.atoms());
        pour(&mut table, &from, command.atoms());
        pour_invariant(&mut table, &to, files.invariants(), booleans);
        cover(&table.close(), &to, booleans, listed)
    }
}
