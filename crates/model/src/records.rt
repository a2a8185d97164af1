// The records of a kind in a file, one after another.
ghost use Rattle.std.specs.Prelude.{◌≡◌, ℕ, List, [], length, drop, slice_get, Some, None, MatchOption};
ghost use Rattle.std.specs.Iterator.{YieldsFirstBy, item_count};
ghost use Rattle.format.specs.Words.{words, continued};
ghost use Rattle.format.specs.Kinds.{code};
ghost use Rattle.model.specs.Records.{having, First, Next};
ghost use Rattle.model.specs.Files.{left};

use crate::kind::RecordKind;
use crate::words::Words;
use format::continues;
use std::marker::PhantomData;

// A part of a file that is one record.
pub trait Record<'a> {
    // What records of this type say, by their words and as the code has them.
    ghost Said: { Type 0 };

    ghost said_by: { List ℕ → Said };

    ghost says: { Self → Said };

    // The record that has these bytes.
    fn of(bytes: &'a [u8]) -> Self
        ensures { says result ≡ said_by (words bytes.now) };
}

// The records of a kind in a file, or the last ones of them.
#[derive(Clone, Copy, Debug, PartialEq, Eq)]
pub struct Records<'a, R> {
    pub(crate) kind: RecordKind,
    pub(crate) bytes: &'a [u8],
    pub(crate) of: PhantomData<R>,
}

impl<'a, R> Records<'a, R> {
    // All records of a kind in a file.
    pub(crate) fn new(bytes: &'a [u8], kind: RecordKind) -> Records<'a, R>
        ensures { (result.kind ≡ kind) × (result.bytes.now ≡ bytes.now) }
    {
        Records {
            kind,
            bytes,
            of: PhantomData,
        }
    }
}

// The place of the first word of a kind.
fn first_of(bytes: &[u8], kind: RecordKind) -> Option<usize>
    ensures { MatchOption result (having (code kind.kind) (words bytes.now) ≡ []) (λ p. First (code kind.kind) (words bytes.now) p) }
{
    Words::of(bytes).position(|word| kind.begins(word))
}

// How many words from a place on continue a record.
fn continued_from(bytes: &[u8], from: usize) -> usize
    ensures { result ≡ continued (drop from (words bytes.now)) }
{
    Words::of(bytes)
        .past(from)
        .take_while(|&word| continues(word))
        .count()
}

// The first record of a kind, and the bytes after it.
#[tactic(auto, using(crate::proofs::Kept::record_fits))]
fn next_of<'a>(bytes: &'a [u8], kind: RecordKind) -> Option<(&'a [u8], &'a [u8])>
    ensures { MatchOption result (having (code kind.kind) (words bytes.now) ≡ []) (λ x. Next (code kind.kind) bytes.now x.0.now x.1.now) }
{
    let first = first_of(bytes, kind)?;
    let after = first + 1 + continued_from(bytes, first + 1);
    let (front, rest) = bytes.split_at(4 * after);
    Some((&front[4 * first..], rest))
}

impl<'a, R: Record<'a>> Iterator for Records<'a, R> {
    type Item = R;

    ghost next_gives = { YieldsFirstBy R.says (left R.said_by) };

    ghost remaining = { item_count (left R.said_by) };

    // Inlined where records are walked: most walks pass many short ones over.
    #[inline(always)]
    fn next(&mut self) -> Option<R> {
        let (part, rest) = next_of(self.bytes, self.kind)?;
        self.bytes = rest;
        Some(R::of(part))
    }
}

// The n-th of some records, counted from 0.
pub(crate) fn nth_of<'a, R: Record<'a> + Drop>(mut records: Records<'a, R>, n: usize) -> Option<R>
    ensures { MatchOption result (slice_get (left R.said_by records.entry) n ≡ None) (λ x. slice_get (left R.said_by records.entry) n ≡ Some (R.says x)) }
{
    records.nth(n)
}

// How many records there are.
pub(crate) fn count_of<'a, R: Record<'a> + Drop>(records: Records<'a, R>) -> usize
    ensures { result ≡ length (left R.said_by records.entry) }
{
    records.count()
}
