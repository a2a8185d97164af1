// The zones that hold what is reached.
ghost use Rattle.std.specs.Prelude.{ℕ, ℤ, Decides};
ghost use Rattle.std.specs.List.{AllByRecursion};
ghost use Rattle.dbm.specs.Calls.{SolvesClosed};
ghost use Rattle.model.specs.Views.{atom_is, atoms_in, zone_in};
ghost use Rattle.model.specs.Files.{zones_left};
ghost use Rattle.checks.specs.Meanings.{Names};
ghost use Rattle.checks.specs.Systems.{Placed};
ghost use Rattle.checks.specs.Frames.{shape, Placeable};
ghost use Rattle.checks.specs.Reaching.{AtZero, HoldsZero, HoldsAll, PlaceableIn, PlaceableZone, Covered};

use crate::frame::Frame;
use crate::listed::Listed;
use bound::Bound;
use dbm::Closed;
use model::{Atom, Atoms, Zone};

// Whether an atom holds where all clocks are 0.
fn holds_at_zero(atom: Atom) -> bool
    ensures { Decides result (AtZero (atom_is atom)) }
{
    if atom.strict { 0 < atom.d } else { 0 <= atom.d }
}

// Whether all atoms hold where all clocks are 0.
fn all_at_zero(atoms: Atoms) -> bool
    ensures { Decides result (AllByRecursion AtZero (atoms_in atoms.entry)) }
{
    for atom in atoms {
        if !holds_at_zero(atom) {
            return false;
        }
    }
    true
}

// Whether every solution of a closed table keeps all atoms, placed in a frame.
fn keeps_all<B: Bound>(table: &Closed<B>, frame: &Frame, atoms: Atoms) -> bool
    requires { AllByRecursion (Placeable (shape frame.now) table.now.square.n) (atoms_in atoms) }
    ensures { Decides result ((k : ℕ) (ν : ℕ → ℤ) → B.admits k → SolvesClosed table.now k ν → AllByRecursion (Placed (shape frame.now) k ν) (atoms_in atoms.entry)) }
{
    for atom in atoms {
        if !table.include(frame.place(atom)) {
            return false;
        }
    }
    true
}

// Whether a zone holds the state with these Booleans and all clocks 0.
pub(crate) fn holds_zero(zone: Zone, booleans: u32) -> bool
    ensures { Decides result (HoldsZero booleans (zone_in zone.entry)) }
{
    booleans == zone.booleans() && all_at_zero(zone.atoms())
}

// Whether a zone holds all that a closed table shows in a frame, with these Booleans.
fn holds_all<B: Bound>(zone: Zone, table: &Closed<B>, frame: &Frame, booleans: u32) -> bool
    requires { PlaceableZone (shape frame.now) table.now.square.n (zone_in zone) }
    ensures { Decides result (HoldsAll table.now (shape frame.now) booleans (zone_in zone.entry)) }
{
    booleans == zone.booleans() && keeps_all(table, frame, zone.atoms())
}

// The lowest numbered zone that is not struck and holds all that a table shows in a frame after closing, with these Booleans.
pub(crate) fn cover<B: Bound>(
    closed: &Option<Closed<B>>,
    frame: &Frame,
    booleans: u32,
    listed: Listed,
) -> Option<usize>
    requires { PlaceableIn closed.now (shape frame.now) (zones_left listed.zones) }
    ensures { Names (Covered closed.now (shape frame.now) booleans) listed.entry.struck.now (zones_left listed.entry.zones) result }
{
    match closed {
        None => listed.lowest(|_| true),
        Some(table) => listed.lowest(
            |zone: Zone| -> bool
                requires { PlaceableZone (shape frame.now) table.now.square.n (zone_in zone) }
                ensures { Decides result (HoldsAll table.entry.now (shape frame.entry.now) booleans (zone_in zone.entry)) }
            { holds_all(zone, table, frame, booleans) },
        ),
    }
}
