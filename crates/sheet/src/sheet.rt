// The sheet.
use crate::marks::Marks;
use model::Files;

// Two files, the marks of the zones, how many checks are settled, and whether the next one failed. On files that the look-over
// refuses the sheet is void. `failing` is no `Option` of the count, which says something either way: how many checks hold.
#[derive(Clone, Copy)]
pub struct Sheet<'a> {
    pub(crate) files: Files<'a>,
    pub(crate) marks: Marks,
    pub(crate) count: usize,
    pub(crate) failing: bool,
}
