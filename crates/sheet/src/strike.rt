// Striking and restoring zones, and the verdict.
ghost use Rattle.std.specs.Prelude.{◌≡◌, Bool, true, false, Some, None, MatchResult, slice_index_or};
ghost use Rattle.sheet.specs.Sheets.{struck_on};
ghost use Rattle.sheet.specs.Series.{fresh};
ghost use Rattle.sheet.specs.Striking.{mark_refused, strike_refused, restore_refused, Marked, verdict_refused, verdict_of, check_on};

use crate::answers::{Refused, Verdict};
use crate::count::counted;
use crate::sheet::Sheet;
use checks::Check;

impl Sheet<'_> {
    // Questions 13, 16 and 17: the zone has the other mark. Then it gets this one, and the checks begin anew.
    fn remark(&mut self, zone: usize, struck: bool) -> Result<(), Refused>
        ensures { MatchResult result (λ _. (mark_refused (fresh struck (slice_index_or (struck_on self.old) zone false)) self.old zone ≡ None) × Marked self.old zone struck self.new) (λ f. (mark_refused (fresh struck (slice_index_or (struck_on self.old) zone false)) self.old zone ≡ Some f) × (self.new ≡ self.old)) }
    {
        let counts = counted(&self.files).ok_or(Refused::Void)?;
        if zone >= counts.zones {
            return Err(Refused::NoSuchZone);
        }
        if self.marks.is_struck(zone) == struck {
            return Err(Refused::AlreadySo);
        }
        if struck {
            self.marks.mark(zone);
        } else {
            self.marks.unmark(zone);
        }
        self.count = 0;
        self.failing = false;
        Ok(())
    }

    // Strikes a zone: the checks begin anew, without it.
    pub fn strike(&mut self, zone: usize) -> Result<(), Refused>
        ensures { MatchResult result (λ _. (strike_refused self.old zone ≡ None) × Marked self.old zone true self.new) (λ f. (strike_refused self.old zone ≡ Some f) × (self.new ≡ self.old)) }
    {
        self.remark(zone, true)
    }

    // Restores a struck zone: the checks begin anew, with it.
    pub fn restore(&mut self, zone: usize) -> Result<(), Refused>
        ensures { MatchResult result (λ _. (restore_refused self.old zone ≡ None) × Marked self.old zone false self.new) (λ f. (restore_refused self.old zone ≡ Some f) × (self.new ≡ self.old)) }
    {
        self.remark(zone, false)
    }

    // What the checks settled so far say.
    pub fn verdict(&self) -> Result<Verdict, Refused>
        ensures { MatchResult result (λ v. (verdict_refused self.now ≡ None) × (v ≡ verdict_of self.now)) (λ f. verdict_refused self.now ≡ Some f) }
    {
        let counts = counted(&self.files).ok_or(Refused::Void)?;
        if self.failing {
            return Ok(Verdict::Failing(self.count));
        }
        match counts.check_at(&self.marks, self.count) {
            None => Ok(Verdict::Accepted(self.count)),
            Some(_) => Ok(Verdict::Unfinished(self.count)),
        }
    }

    // The check with this number, counted from 0 in the order of checks; none on a void sheet.
    pub fn check(&self, number: usize) -> Option<Check>
        ensures { result ≡ check_on self.now number }
    {
        counted(&self.files)?.check_at(&self.marks, number)
    }
}
