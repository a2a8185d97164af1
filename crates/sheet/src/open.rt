// Opening a sheet.
ghost use Rattle.sheet.specs.Sheets.{Opened};

use crate::marks::Marks;
use crate::sheet::Sheet;
use model::Files;

impl<'a> Sheet<'a> {
    // A sheet for two files: no zone is struck and no check is settled.
    pub fn open(model: &'a [u8], zones: &'a [u8]) -> Sheet<'a>
        ensures { Opened model.now zones.now result }
    {
        Sheet {
            files: Files::new(model, zones),
            marks: Marks::none(),
            count: 0,
            failing: false,
        }
    }
}
