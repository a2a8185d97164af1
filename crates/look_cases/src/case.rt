// One case of the look-over.
use crate::edit::Edit;

// A name, the edits of the valve's model and those of its list.
#[derive(Clone, Copy)]
pub struct Case(pub &'static str, pub &'static [Edit], pub &'static [Edit]);
