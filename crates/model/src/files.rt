// A timing model and a zone list.
ghost use Rattle.std.specs.Prelude.{◌≡◌};
ghost use Rattle.format.specs.LookOver.{look_over_answer};
ghost use Rattle.format.specs.Faults.{outcome};

use format::{Fault, Summary};

// The bytes of a model and of a zone list, and what the look-over answers.
#[derive(Clone, Copy, Debug, PartialEq, Eq)]
pub struct Files<'a> {
    pub(crate) model: &'a [u8],
    pub(crate) zones: &'a [u8],
    pub(crate) answer: Result<Summary, Fault>,
    ghost told: { outcome answer ≡ look_over_answer model.now zones.now },
}
