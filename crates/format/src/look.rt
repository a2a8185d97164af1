// The look-over of two files.
ghost use Rattle.std.specs.Prelude.{◌≡◌, ◌+◌, ◌*◌, ◌≤◌, true, false, length, IfOk, Some, MatchOption, MatchResult, slice_index};
ghost use Rattle.format.specs.Words.{words};
ghost use Rattle.format.specs.Places.Scan.{passed};
ghost use Rattle.format.specs.LookOver.{file_walk, look_over_answer, head_fits, head_right, head_at, ends_right};
ghost use Rattle.format.specs.Places.File.{zones as zones_file};
ghost use Rattle.format.specs.LookOver.{look_list_answer};
ghost use Rattle.format.specs.LookOver.Outcome.{pass};
ghost use Rattle.format.specs.Ranges.{PassedFiles};
ghost use Rattle.format.specs.Faults.{file_stop, file_told, counts, outcome};
ghost use Rattle.format.specs.Reading.{walk_of, file_of, tally_of, head_of, Opened};

use crate::fault::{Fault, FileFault};
use crate::kind::Kind;
use crate::scope::{File, Place, Record, Scope, Tally};
use crate::text::{content, word_at};

// What was read of two files that passed.
#[derive(Clone, Copy, Debug, PartialEq, Eq)]
pub struct Summary {
    pub booleans: u32,
    pub clocks: u32,
    pub invariants: u16,
    pub commands: u16,
    pub bads: u16,
    pub zones: u16,
    pub checks: u64,
}

const LONGEST: usize = 65_532;

// What a head says of a file with this many words, or nothing where the word is no head.
fn read_head(word: u32, words: u32) -> Option<Scope>
    ensures { MatchOption result (head_fits word ≡ false) (λ s. (head_fits word ≡ true) × (head_of s ≡ head_at word) × (s.words ≡ words)) }
{
    if !Kind::Head.is_of(word) || content(word) >= 1 << 9 || word % 32 > 24 {
        return None;
    }
    Some(Scope {
        booleans: word % 32,
        clocks: (word >> 5) % 16,
        words,
    })
}

impl Place {
    // Questions 1 to 4: the place before the first record. `like` is the model's first word, for a list.
    pub fn open(file: File, like: Option<u32>, bytes: &[u8]) -> Result<Place, FileFault>
        ensures { MatchResult result (λ p. Opened file like bytes.now p) (λ f. file_walk (file_of file) like bytes.now ≡ file_stop f) }
    {
        if bytes.len() > LONGEST {
            return Err(FileFault::TooLong);
        }
        if bytes.len() % 4 != 0 || bytes.len() < 8 {
            return Err(FileFault::WrongLength);
        }
        let last = bytes.len() / 4 - 1;
        if !ends_at(bytes, last) {
            return Err(FileFault::WrongEnd(last));
        }
        let words = (bytes.len() / 4) as u32;
        let scope = right_head(like, bytes, words).ok_or(FileFault::WrongHead)?;
        Ok(Place {
            scope,
            file,
            last: None,
            tally: Tally {
                invariants: 0,
                commands: 0,
                bads: 0,
                zones: 0,
            },
        })
    }
}

// Question 3: whether the word at `last` is an end that says how many words stand before it. By a `match`: the same by
// `is_some_and` was tried, and its proof did not close.
fn ends_at(bytes: &[u8], last: usize) -> bool
    requires { length (words bytes.now) ≡ last + 1 }
    ensures { result ≡ ends_right (words bytes.now) }
{
    match word_at(bytes, last) {
        Some(word) => Kind::End.is_of(word) && content(word) as usize == last,
        None => false,
    }
}

// Question 4.
fn right_head(like: Option<u32>, bytes: &[u8], count: u32) -> Option<Scope>
    requires { 1 ≤ length (words bytes.now) }
    ensures { MatchOption result (head_right like (slice_index (words bytes.now) 0) ≡ false) (λ s. (head_right like (slice_index (words bytes.now) 0) ≡ true) × (head_of s ≡ head_at (slice_index (words bytes.now) 0)) × (s.words ≡ count)) }
{
    let word = word_at(bytes, 0)?;
    if like.is_some_and(|model| word != model) {
        return None;
    }
    read_head(word, count)
}

// Reads every record from a place on: how many there are. No index is counted; each turn hands on what is unread.
fn tally(start: Place, bytes: &[u8]) -> Result<Tally, FileFault>
    requires { length (words bytes.now) ≤ start.scope.words }
    ensures { MatchResult result (λ t. walk_of start bytes.now ≡ passed (tally_of t)) (λ f. walk_of start bytes.now ≡ file_stop f) }
{
    let mut place = start;
    let mut rest = bytes;
    loop {
        let (record, unread) = place.next_record(rest)?;
        if let Record::End(_) = record {
            return Ok(place.tally);
        }
        rest = unread;
    }
}

// Questions 1 to 11: the records of one file.
fn look_file(file: File, like: Option<u32>, bytes: &[u8]) -> Result<Tally, FileFault>
    ensures { MatchResult result (λ t. file_walk (file_of file) like bytes.now ≡ passed (tally_of t)) (λ f. file_walk (file_of file) like bytes.now ≡ file_stop f) }
{
    let place = Place::open(file, like, bytes)?;
    tally(place, bytes)
}

// Question 12, and what was read: the start check, and for each zone its bad checks, its time check and its command checks.
fn sum_up(head: u32, model: Tally, list: Tally) -> Result<Summary, FileFault>
    ensures { MatchResult result (λ s. look_list_answer head (tally_of model) (passed (tally_of list)) ≡ pass (counts s)) (λ f. look_list_answer head (tally_of model) (passed (tally_of list)) ≡ file_told zones_file f) }
{
    let checks = 1
        + u64::from(list.zones) * (u64::from(model.bads) + 1 + u64::from(model.commands));
    if checks > 65_535 {
        return Err(FileFault::TooManyChecks);
    }
    Ok(Summary {
        booleans: head % 32,
        clocks: (head >> 5) % 16,
        invariants: model.invariants,
        commands: model.commands,
        bads: model.bads,
        zones: list.zones,
        checks,
    })
}

// Questions 1 to 12 to a list, where the model passed with this first word and these records.
fn look_list(head: u32, model: Tally, list: &[u8]) -> Result<Summary, FileFault>
    ensures { MatchResult result (λ s. look_list_answer head (tally_of model) (file_walk zones_file (Some head) list.now) ≡ pass (counts s)) (λ f. look_list_answer head (tally_of model) (file_walk zones_file (Some head) list.now) ≡ file_told zones_file f) }
{
    let listed = look_file(File::List, Some(head), list)?;
    sum_up(head, model, listed)
}

// Looks two files over, the model first: what was read, or the first fault. Of two files that pass, all that they name is
// within the ranges that the questions ask for, and the counts are those of the decoded files.
pub fn look_over(model: &[u8], zones: &[u8]) -> Result<Summary, Fault>
    ensures answer { outcome result ≡ look_over_answer model.now zones.now }
    ensures within { IfOk result (λ s. PassedFiles model.now zones.now (counts s)) }
{
    let tally = look_file(File::Model, None, model).map_err(Fault::Model)?;
    let Some(head) = word_at(model, 0) else {
        unreachable()
    };
    look_list(head, tally, zones).map_err(Fault::List)
}
