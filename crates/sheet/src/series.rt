// A series of calls.
ghost use Rattle.std.specs.Prelude.{◌≡◌, true, length};
ghost use Rattle.format.specs.Words.{words};
ghost use Rattle.format.specs.Syntax.{model_of, zones_of};
ghost use Rattle.format.specs.LookOver.{look_over_answer};
ghost use Rattle.model.specs.Passing.{passes};
ghost use Rattle.sheet.specs.Sheets.{struck_on};
ghost use Rattle.sheet.specs.Striking.{verdict_of};
ghost use Rattle.sheet.specs.Series.{at_opening, after_calls, Promise};
ghost use Rattle.sheet.specs.Tracking.{Makes};

use crate::call::Call;
use crate::sheet::Sheet;
use bound::Bound;

impl<'a> Sheet<'a> {
    // Makes one call. Settle brings the first bounds of the area, as many as it says and there are. A `match`, since the calls
    // come as data.
    fn make<B: Bound>(&mut self, call: Call, area: &mut [B])
        ensures { Makes B.admits (length area.old) self.old call self.new }
    {
        match call {
            Call::Settle(bounds) => {
                let brought = bounds.min(area.len());
                let _ = self.settle(&mut area[..brought]);
            }
            Call::Strike(zone) => {
                let _ = self.strike(zone);
            }
            Call::Restore(zone) => {
                let _ = self.restore(zone);
            }
            Call::Verdict => {
                let _ = self.verdict();
            }
        }
    }
}

// Opens a sheet for two files and makes the calls in order, settling under one kind of time.
pub fn replay<'a, B: Bound>(
    model: &'a [u8],
    zones: &'a [u8],
    calls: &[Call],
    area: &mut [B],
) -> Sheet<'a>
    ensures files { (result.files.model.now ≡ model.now) × (result.files.zones.now ≡ zones.now) }
    ensures marks { passes (look_over_answer model.now zones.now) ≡ true → struck_on result ≡ (after_calls (length (zones_of (words zones.now))) (length area.old) at_opening calls.now).struck }
    ensures promise { passes (look_over_answer model.now zones.now) ≡ true → Promise B.admits (model_of (words model.now)) (zones_of (words zones.now)) (after_calls (length (zones_of (words zones.now))) (length area.old) at_opening calls.now) (verdict_of result) }
{
    let mut sheet = Sheet::open(model, zones);
    for call in calls {
        sheet.make(*call, area);
    }
    sheet
}
