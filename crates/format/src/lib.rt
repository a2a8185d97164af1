//! The look-over of a timing model and a zone list: are these two files well formed?
#![tactic(auto)]

mod fault;
mod kind;
mod look;
mod record;
mod scope;
mod text;

pub use fault::{Fault, FileFault, RecordFault, WordFault};
pub use kind::Kind;
pub use look::{Summary, look_over};
pub use scope::{File, Place, Record, Scope, Tally};
pub use text::{content, continues, value, word_at};
