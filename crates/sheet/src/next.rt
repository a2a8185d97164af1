// The way from the count of settled checks, and the marks, to the next check. There is no division in it.
ghost use Rattle.std.specs.Prelude.{◌≡◌, ◌+◌, ◌<◌, ◌≤◌, Some};
ghost use Rattle.std.specs.List.{slice_get};
ghost use Rattle.sheet.specs.Order.{order, checks_of};

use crate::marks::Marks;
use checks::Check;

// How many bad records, commands and zones files have that passed the look-over.
#[derive(Clone, Copy)]
pub(crate) struct Counts {
    pub(crate) bads: usize,
    pub(crate) commands: usize,
    pub(crate) zones: usize,
    ghost few_bads: { bads ≤ 32 },
    ghost few_commands: { commands ≤ 64 },
    ghost few_zones: { zones ≤ 512 },
}

impl Counts {
    // The check at this place among those of a zone.
    fn within(self, zone: usize, place: usize) -> Check
        requires { place < self.bads + 1 + self.commands }
        ensures { slice_get (checks_of self.bads self.commands zone) place ≡ Some result }
    {
        if place < self.bads {
            Check::Bad(zone, place)
        } else if place == self.bads {
            Check::Time(zone)
        } else {
            Check::Command(zone, place - self.bads - 1)
        }
    }

    // The check with this number, in the order of checks. By a range, since a zone's number is what its check is named by.
    pub(crate) fn check_at(self, marks: &Marks, number: usize) -> Option<Check>
        ensures { result ≡ slice_get (order self.bads self.commands marks.now.struck self.zones) number }
    {
        if number == 0 {
            return Some(Check::Start);
        }
        let each = self.bads + 1 + self.commands;
        // Past the checks of all zones there is none, whatever is struck, and no mark is asked for.
        if number > self.zones * each {
            return None;
        }
        let mut left = number - 1;
        for zone in 0..self.zones {
            if !marks.struck[zone] {
                if left < each {
                    return Some(self.within(zone, left));
                }
                left -= each;
            }
        }
        None
    }
}
