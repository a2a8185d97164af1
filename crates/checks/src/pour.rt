// Pouring atoms into a table.
ghost use Rattle.std.specs.List.{AllByRecursion};
ghost use Rattle.model.specs.Views.{atoms_in};
ghost use Rattle.model.specs.Files.{invariants_left};
ghost use Rattle.checks.specs.Systems.{Placed, PlacedRecord};
ghost use Rattle.checks.specs.Frames.{shape, Placeable};
ghost use Rattle.checks.specs.Pouring.{Adds, PlaceableRecord};

use crate::frame::Frame;
use bound::Bound;
use dbm::Table;
use model::{Atoms, Guarded, Records};

// Adds atoms to a table, placed in a frame.
pub(crate) fn pour<B: Bound>(table: &mut Table<B>, frame: &Frame, atoms: Atoms)
    requires { AllByRecursion (Placeable (shape frame.now) table.old.square.n) (atoms_in atoms) }
    ensures { Adds (λ k ν. AllByRecursion (Placed (shape frame.now) k ν) (atoms_in atoms.entry)) table.old table.new }
{
    for atom in atoms {
        table.constrain(frame.place(atom));
    }
}

// Adds the atoms of the invariant records whose condition holds at these Booleans.
pub(crate) fn pour_invariant<'a, B: Bound>(
    table: &mut Table<B>,
    frame: &Frame,
    invariants: Records<'a, Guarded<'a>>,
    booleans: u32,
)
    requires { AllByRecursion (PlaceableRecord (shape frame.now) table.old.square.n) (invariants_left invariants) }
    ensures { Adds (λ k ν. AllByRecursion (PlacedRecord (shape frame.now) k ν booleans) (invariants_left invariants.entry)) table.old table.new }
{
    for record in invariants {
        if record.condition().holds(booleans) {
            pour(table, frame, record.atoms());
        }
    }
}
