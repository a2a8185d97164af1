// The memory that a check works in.
ghost use Rattle.std.specs.Prelude.{◌≤◌, length};
ghost use Rattle.dbm.specs.Calls.{EmptyTable};

use bound::Bound;
use dbm::Table;

// How many bounds a work area must have at least.
pub const AREA: usize = 578;

// A new table with n rows in a work area. That it is long enough is asked for here and where a check is made: as a struct that
// keeps this fact beside the `&mut` it was tried, and the check makes no proof for a function that hands such a struct on.
pub(crate) fn table_in<B: Bound>(area: &mut [B], n: usize) -> Table<B>
    requires few { n ≤ 17 }
    requires enough { 578 ≤ length area.old }
    ensures { EmptyTable n result }
{
    let Some(table) = Table::new(area, n) else {
        unreachable()
    };
    table
}
