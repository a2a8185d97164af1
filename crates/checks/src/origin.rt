// Where a check starts.
ghost use Rattle.std.specs.Prelude.{◌≡◌, true};
ghost use Rattle.format.specs.Ranges.{ZoneFits};
ghost use Rattle.model.specs.Views.{zone_in};
ghost use Rattle.checks.specs.Passed.{pass_over, head_in, zone_fits_prop};

use model::{Files, Zone};

// A zone of two files that passed.
#[derive(Clone, Copy)]
pub(crate) struct Origin<'f, 'a> {
    pub(crate) files: &'f Files<'a>,
    pub(crate) zone: Zone<'a>,
    ghost passed: { pass_over files.now ≡ true },
    ghost fits: { ZoneFits (head_in files.now) (zone_in zone) } by { zone_fits_prop _ _ },
}
