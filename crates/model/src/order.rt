// The records of a model and of a zone list, by number and in order.
ghost use Rattle.std.specs.Prelude.{◌≡◌, length, Some, None, IfOk, MatchOption};
ghost use Rattle.std.specs.List.{slice_get};
ghost use Rattle.format.specs.LookOver.{look_over_answer};
ghost use Rattle.format.specs.Faults.{outcome, counts};
ghost use Rattle.format.specs.Ranges.{PassedFiles};
ghost use Rattle.model.specs.Passing.{passes};
ghost use Rattle.model.specs.Views.{guarded_in, command_in, zone_in};
ghost use Rattle.model.specs.Files.{model_in, zones_in, invariants_left, commands_left, bads_left, zones_left};

use crate::files::Files;
use crate::kind::RecordKind;
use crate::records::{Records, count_of, nth_of};
use crate::views::{Command, Guarded, Zone};
use crate::words::word;
use format::{Fault, Summary, content, look_over};

// All invariant records, all commands and all bad records of a model and all zones of a list, or the last ones of them.
pub type Invariants<'a> = Records<'a, Guarded<'a>>;

pub type Commands<'a> = Records<'a, Command<'a>>;

pub type Bads<'a> = Records<'a, Guarded<'a>>;

pub type Zones<'a> = Records<'a, Zone<'a>>;

impl<'a> Files<'a> {
    // Looks two files over, and keeps them.
    pub fn new(model: &'a [u8], zones: &'a [u8]) -> Files<'a>
        ensures { (result.model.now ≡ model.now) × (result.zones.now ≡ zones.now) }
    {
        let answer = look_over(model, zones);
        Files {
            model,
            zones,
            answer,
        }
    }

    // What the look-over answers: what was read, or the first fault.
    pub fn summary(&self) -> Result<Summary, Fault>
        ensures answer { outcome result ≡ look_over_answer self.now.model.now self.now.zones.now }
        ensures within { IfOk result (λ s. PassedFiles self.now.model.now self.now.zones.now (counts s)) }
    {
        self.answer
    }

    // Whether they pass the look-over.
    pub fn passed(&self) -> bool
        ensures { result ≡ passes (look_over_answer self.now.model.now self.now.zones.now) }
    {
        self.summary().is_ok()
    }

    // How many clocks the model has.
    pub fn clocks(&self) -> usize
        ensures { result ≡ (model_in self.now).clocks }
    {
        ((word(self.model, 0) >> 5) % 16) as usize
    }

    // The Booleans at the start.
    pub fn start(&self) -> u32
        ensures { result ≡ (model_in self.now).start }
    {
        content(word(self.model, 1))
    }

    // The n-th invariant record.
    pub fn invariant(&self, n: usize) -> Option<Guarded<'a>>
        ensures { MatchOption result (slice_get (model_in self.now).invariants n ≡ None) (λ g. slice_get (model_in self.now).invariants n ≡ Some (guarded_in g)) }
    {
        nth_of(self.invariants(), n)
    }

    // The n-th command.
    pub fn command(&self, n: usize) -> Option<Command<'a>>
        ensures { MatchOption result (slice_get (model_in self.now).commands n ≡ None) (λ c. slice_get (model_in self.now).commands n ≡ Some (command_in c)) }
    {
        nth_of(self.commands(), n)
    }

    // The n-th bad record.
    pub fn bad(&self, n: usize) -> Option<Guarded<'a>>
        ensures { MatchOption result (slice_get (model_in self.now).bads n ≡ None) (λ g. slice_get (model_in self.now).bads n ≡ Some (guarded_in g)) }
    {
        nth_of(self.bads(), n)
    }

    // The n-th zone.
    pub fn zone(&self, n: usize) -> Option<Zone<'a>>
        ensures { MatchOption result (slice_get (zones_in self.now) n ≡ None) (λ z. slice_get (zones_in self.now) n ≡ Some (zone_in z)) }
    {
        nth_of(self.zones(), n)
    }

    // How many commands, bad records and zones there are.
    pub fn command_count(&self) -> usize
        ensures { result ≡ length (model_in self.now).commands }
    {
        count_of(self.commands())
    }

    pub fn bad_count(&self) -> usize
        ensures { result ≡ length (model_in self.now).bads }
    {
        count_of(self.bads())
    }

    pub fn zone_count(&self) -> usize
        ensures { result ≡ length (zones_in self.now) }
    {
        count_of(self.zones())
    }

    // All invariant records, all commands, all bad records, all zones.
    pub fn invariants(&self) -> Invariants<'a>
        ensures { invariants_left result ≡ (model_in self.now).invariants }
    {
        Records::new(self.model, RecordKind::INVARIANT)
    }

    pub fn commands(&self) -> Commands<'a>
        ensures { commands_left result ≡ (model_in self.now).commands }
    {
        Records::new(self.model, RecordKind::COMMAND)
    }

    pub fn bads(&self) -> Bads<'a>
        ensures { bads_left result ≡ (model_in self.now).bads }
    {
        Records::new(self.model, RecordKind::BAD)
    }

    pub fn zones(&self) -> Zones<'a>
        ensures { zones_left result ≡ zones_in self.now }
    {
        Records::new(self.zones, RecordKind::ZONE)
    }
}
