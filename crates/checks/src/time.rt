// The time check.
ghost use Rattle.std.specs.Prelude.{◌≡◌, ◌<◌, true, false, pos, ◌-ℤ◌, ◌≤◌, length, Decides};
ghost use Rattle.bound.specs.Time.{Made};
ghost use Rattle.model.specs.Steps.{Urgent};
ghost use Rattle.model.specs.Views.{zone_in};
ghost use Rattle.model.specs.Files.{model_in, zones_in, commands_left};
ghost use Rattle.checks.specs.Meanings.{CoversTime, Names};
ghost use Rattle.checks.specs.Pouring.{Adds};

use crate::area::table_in;
use crate::cover::cover;
use crate::frame::Frame;
use crate::listed::Listed;
use crate::origin::Origin;
use crate::pour::{pour, pour_invariant};
use bound::{Atom, Bound};
use dbm::Table;
use model::{Command, Records};

// Whether some command is urgent, and its condition holds at these Booleans.
fn is_urgent<'a>(commands: Records<'a, Command<'a>>, booleans: u32) -> bool
    ensures { Decides result (Urgent (commands_left commands.entry) booleans) }
{
    for command in commands {
        if command.urgent() && command.condition().holds(booleans) {
            return true;
        }
    }
    false
}

// The delay is the second zero less the first: it is not negative, and it is 0 where a command is urgent.
fn delay<B: Bound>(table: &mut Table<B>, second: usize, urgent: bool)
    requires { second < table.old.square.n }
    ensures { Adds (λ k ν. Made (pos 0) false k (ν 0 -ℤ ν second) × (urgent ≡ true → Made (pos 0) false k (ν second -ℤ ν 0))) table.old table.new }
{
    table.constrain(Atom::at_most(0, second, 0));
    if urgent {
        table.constrain(Atom::at_most(second, 0, 0));
    }
}

impl Origin<'_, '_> {
    // The lowest numbered zone that is not struck and holds every state that a timed step reaches from the zone.
    pub(crate) fn cover_time<B: Bound>(self, struck: &[bool; 512], area: &mut [B]) -> Option<usize>
        requires { 578 ≤ length area.old }
        ensures { Names (CoversTime B.admits (model_in self.entry.files.now) (zone_in self.entry.zone)) struck.now (zones_in self.entry.files.now) result }
    {
        let Origin { files, zone } = self;
        let booleans = zone.booleans();
        let second = files.clocks() + 1;
        let from = Frame::before(second);
        let to = Frame::same();
        let mut table = table_in(area, second + 1);
        pour(&mut table, &from, zone.atoms());
        pour_invariant(&mut table, &from, files.invariants(), booleans);
        pour_invariant(&mut table, &to, files.invariants(), booleans);
        delay(&mut table, second, is_urgent(files.commands(), booleans));
        let listed = Listed::of(files, struck);
        cover(&table.close(), &to, booleans, listed)
    }
}
