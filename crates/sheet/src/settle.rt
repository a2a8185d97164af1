// Settling the next check.
ghost use Rattle.std.specs.Prelude.{◌≡◌, length, Some, None, MatchResult};
ghost use Rattle.sheet.specs.Settling.{settle_refused, AskedFor, Settles};

use crate::answers::Refused;
use crate::count::counted;
use crate::sheet::Sheet;
use bound::Bound;
use checks::{AREA, Check, Settled, decide};

impl Sheet<'_> {
    // Questions 13 to 15 to settle: the next check.
    fn next(&self, area: usize) -> Result<Check, Refused>
        ensures { MatchResult result (λ c. AskedFor self.now area c) (λ f. settle_refused self.now area ≡ Some f) }
    {
        let counts = counted(&self.files).ok_or(Refused::Void)?;
        if area < AREA {
            return Err(Refused::ShortArea);
        }
        if self.failing {
            return Err(Refused::NothingLeft);
        }
        counts
            .check_at(&self.marks, self.count)
            .ok_or(Refused::NothingLeft)
    }

    // Settles the next check in a work area of at least 578 bounds.
    pub fn settle<B: Bound>(&mut self, area: &mut [B]) -> Result<Settled, Refused>
        ensures { MatchResult result (λ a. (settle_refused self.old (length area.old) ≡ None) × Settles B.admits self.old a self.new) (λ f. (settle_refused self.old (length area.old) ≡ Some f) × (self.new ≡ self.old) × (area.new ≡ area.old)) }
    {
        let check = self.next(area.len())?;
        let Ok(answer) = decide(&self.files, &self.marks.struck, check, area) else {
            unreachable()
        };
        match answer {
            Settled::Holds(_) => self.count += 1,
            Settled::Fails => self.failing = true,
        }
        Ok(answer)
    }
}
