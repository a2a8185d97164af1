// What is asked, and of which files.

use checks::Check;

// A name, a check, and the zones that are struck.
#[derive(Clone, Copy)]
pub struct Case(pub &'static str, pub Check, pub &'static [usize]);

// A model and a zone list, and the cases that are put to them. The files are given in parts, without head and end.
#[derive(Clone, Copy)]
pub struct Group {
    pub head: u32,
    pub model: &'static [&'static [u32]],
    pub zones: &'static [&'static [u32]],
    pub cases: &'static [Case],
}
