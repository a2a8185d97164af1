// The zones of a list, with their marks.
ghost use Rattle.std.specs.Prelude.{◌≡◌, ℕ, ◌≤◌, length, true, Some};
ghost use Rattle.std.specs.List.{slice_get};
ghost use Rattle.model.specs.declared.views.Zone.{Zone};
ghost use Rattle.model.specs.Views.{zone_in};
ghost use Rattle.model.specs.Files.{zones_in, zones_left};
ghost use Rattle.checks.specs.Passed.{pass_over};
ghost use Rattle.checks.specs.Finding.{Found};

use model::{Files, Records, Zone};

// The zones of a list in order, and a mark for each: whether it is struck.
#[derive(Clone, Copy)]
pub(crate) struct Listed<'a, 'm> {
    pub(crate) zones: Records<'a, Zone<'a>>,
    pub(crate) struck: &'m [bool; 512],
    ghost few: { length (zones_left zones) ≤ 512 },
}

impl<'a, 'm> Listed<'a, 'm> {
    // The zones of files that passed.
    pub(crate) fn of(files: &Files<'a>, struck: &'m [bool; 512]) -> Listed<'a, 'm>
        requires { pass_over files.now ≡ true }
        ensures zones { zones_left result.zones ≡ zones_in files.now }
        ensures marks { result.struck.now ≡ struck.now }
    {
        Listed {
            zones: files.zones(),
            struck,
        }
    }

    // The lowest numbered zone that is not struck and of which `holds` says yes.
    pub(crate) fn lowest<F: Fn(Zone) -> bool>(self, holds: F) -> Option<usize>
        requires { (n : ℕ) (z : Zone) → slice_get (zones_left self.zones) n ≡ Some (zone_in z) → F.pre holds z }
        ensures { Found (F.post holds) self.entry.struck.now (zones_left self.entry.zones) result }
    {
        let mut zones = self.zones;
        for (n, mark) in self.struck.iter().enumerate() {
            let zone = zones.next()?;
            if !*mark && holds(zone) {
                return Some(n);
            }
        }
        None
    }
}
