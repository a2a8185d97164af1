// The reader of words: the words of a file from some word on, each asked the questions of its place.
ghost use Rattle.std.specs.Prelude.{◌≡◌, true, ℕ, ◌+◌, ◌*◌, ◌^◌, ◌<◌, ◌≤◌, not, ◌&&◌, [], ◌∷◌, drop, pos, ◌-ℤ◌, MatchOption, MatchResult, ◌==◌, ◌≢◌, count_ones, int_le, nat_le, nat_lt};
ghost use Rattle.format.specs.Words.{words, atom_i, atom_j, continued};
ghost use Rattle.format.specs.Words.{continues as continues_of};
ghost use Rattle.format.specs.Words.{content as content_of};
ghost use Rattle.format.specs.Words.{kind as kind_of};
ghost use Rattle.format.specs.Words.{value as value_of};
ghost use Rattle.format.specs.Kinds.{code};
ghost use Rattle.format.specs.Places.{Context, Slot, after_condition, greatest_number, owing};
ghost use Rattle.format.specs.Places.Slot.{onesMask, setMask, resetMask, atomOr, between};
ghost use Rattle.format.specs.Reading.{AtomTaken, Goes, Stops, Takes, TakesMask, TakesNumber, NotNext, BeginsNext, Mask, Number, Walks, words_of};
ghost use Rattle.format.specs.Faults.{six_seven, eight};
ghost use Rattle.format.specs.declared.fault.RecordFault.TheVariants.{Misplaced};

use crate::fault::{RecordFault, WordFault};
use crate::kind::Kind;
use crate::scope::{Scope, Text};

// The k-th word of some bytes.
pub fn word_at(bytes: &[u8], k: usize) -> Option<u32>
    ensures { MatchOption result (drop k (words bytes.now) ≡ []) (λ w. drop k (words bytes.now) ≡ w ∷ drop (k + 1) (words bytes.now)) }
{
    if k >= bytes.len() / 4 {
        return None;
    }
    let i = 4 * k;
    Some(u32::from_be_bytes([bytes[i], bytes[i + 1], bytes[i + 2], bytes[i + 3]]))
}

// The most atoms that a record may have, and the greatest number.
const ATOMS: usize = 64;

const GREATEST: i32 = 1_000_000;

// Masks, resets, atoms and numbers continue a record.
pub fn continues(word: u32) -> bool
    ensures { result ≡ continues_of word }
{
    matches!(
        Kind::of(word),
        Some(Kind::Mask | Kind::Reset | Kind::Atom | Kind::Number)
    )
}

// The low 28 bits of a word.
pub fn content(word: u32) -> u32
    ensures { result ≡ content_of word }
{
    word & 0x0fff_ffff
}

// What a number word stands for.
pub fn value(word: u32) -> i32
    ensures { result ≡ value_of word }
{
    content(word) as i32 - 134_217_728
}

// Question 6 at a word that uses the lowest bits of its content alone.
pub(crate) fn narrow(content: u32, width: u32, place: usize) -> Result<u32, WordFault>
    requires { width < 32 }
    ensures { result ≡ six_seven (nat_lt content (2 ^ width)) true place content }
{
    if content >= 1 << width {
        return Err(WordFault::UnusedBits(place));
    }
    Ok(content)
}

// Questions 6 and 7 at a set of names, of which this many are known.
fn set_in(set: u32, width: u32, known: u32, place: usize) -> Result<u32, WordFault>
    requires width { width < 32 }
    requires known { known < 32 }
    ensures { result ≡ six_seven (nat_lt set (2 ^ width)) (nat_lt set (2 ^ known)) place set }
{
    let set = narrow(set, width, place)?;
    if set >= 1 << known {
        return Err(WordFault::UnknownName(place));
    }
    Ok(set)
}

impl Scope {
    // Questions 6 and 7 at a word that is a set of Booleans.
    pub(crate) fn booleans_in(&self, set: u32, place: usize) -> Result<u32, WordFault>
        ensures { result ≡ six_seven (nat_lt set (2 ^ 24)) (nat_lt set (2 ^ self.now.booleans)) place set }
    {
        set_in(set, 24, self.booleans, place)
    }

    // Questions 6 and 7 at a reset.
    fn clocks_in(&self, set: u32, place: usize) -> Result<u32, WordFault>
        ensures { result ≡ six_seven (nat_lt set (2 ^ 15)) (nat_lt set (2 ^ self.now.clocks)) place set }
    {
        set_in(set, 15, self.clocks, place)
    }

    // Questions 6 and 7 at an atom.
    fn clocks_of(&self, atom: u32, place: usize) -> Result<u32, WordFault>
        ensures { result ≡ six_seven (nat_lt (content_of atom) (2 ^ 9)) (nat_le (atom_i atom) self.now.clocks && nat_le (atom_j atom) self.now.clocks && not (atom_i atom == atom_j atom)) place atom }
    {
        if content(atom) >= 1 << 9 {
            return Err(WordFault::UnusedBits(place));
        }
        let i = (atom >> 4) % 16;
        let j = atom % 16;
        if i > self.clocks || j > self.clocks || i == j {
            return Err(WordFault::UnknownName(place));
        }
        Ok(atom)
    }
}

// Question 8 at a number word.
fn number_in(word: u32, least: i32, place: usize) -> Result<i32, WordFault>
    ensures { result ≡ eight (int_le least (value_of word) && int_le (value_of word) greatest_number) place (value_of word) }
{
    let number = value(word);
    if number < least || number > GREATEST {
        return Err(WordFault::OutOfRange(place));
    }
    Ok(number)
}

impl Text<'_> {
    // Takes the next word.
    pub(crate) fn take_word(&mut self) -> Option<u32>
        ensures { MatchOption result ((words_of self.old ≡ []) × (self.new ≡ self.old)) (λ w. Takes self.old w self.new) }
    {
        let word = word_at(self.bytes, 0)?;
        let (_, rest) = self.bytes.split_at(4);
        self.bytes = rest;
        self.next += 1;
        Some(word)
    }

    // Takes the next word where it is of this kind.
    fn take(&mut self, kind: Kind) -> Option<u32>
        ensures { MatchOption result (NotNext self.old (code kind) × (self.new ≡ self.old)) (λ w. Takes self.old w self.new × (kind_of w ≡ code kind)) }
    {
        match word_at(self.bytes, 0) {
            Some(word) if kind.is_of(word) => self.take_word(),
            _ => None,
        }
    }

    // Question 5 where words of one kind alone may stand.
    fn expect(&mut self, kind: Kind) -> Result<u32, RecordFault>
        ensures { MatchResult result (λ w. Takes self.old w self.new × (kind_of w ≡ code kind)) (λ f. (f ≡ Misplaced self.old.next) × NotNext self.old (code kind)) }
    {
        let place = self.next;
        self.take(kind).ok_or(RecordFault::Misplaced(place))
    }

    // A mask. A mask, a reset and a number are taken alike, but each is asked and tells something else, so they stay three.
    fn mask(&mut self) -> Result<u32, RecordFault>
        ensures { MatchResult result (λ m. Mask self.old m self.new) (λ f. (x : Context) (s : Slot) → TakesMask s → Stops self.old x s f) }
    {
        let place = self.next;
        let word = self.expect(Kind::Mask)?;
        Ok(self.scope.booleans_in(content(word), place)?)
    }

    // The two masks of a condition.
    pub(crate) fn condition(&mut self) -> Result<(), RecordFault>
        ensures { MatchResult result (λ _. (x : Context) → Goes self.old x onesMask self.new (after_condition x.section)) (λ f. (x : Context) → Stops self.old x onesMask f) }
    {
        self.mask()?;
        self.mask()?;
        Ok(())
    }

    // The clocks that a command resets.
    fn reset(&mut self) -> Result<u32, RecordFault>
        ensures { MatchResult result (λ m. (m < 2 ^ 15) × ((x : Context) → Goes self.old x resetMask self.new (owing (count_ones m)))) (λ f. (x : Context) → Stops self.old x resetMask f) }
    {
        let place = self.next;
        let word = self.expect(Kind::Reset)?;
        Ok(self.scope.clocks_in(content(word), place)?)
    }

    // What a command sets and clears, and the clocks that it resets.
    pub(crate) fn effects(&mut self) -> Result<u32, RecordFault>
        ensures { MatchResult result (λ m. (m < 2 ^ 15) × ((x : Context) → Goes self.old x setMask self.new (owing (count_ones m)))) (λ f. (x : Context) → Stops self.old x setMask f) }
    {
        let set = self.mask()?;
        let place = self.next;
        let clear = self.mask()?;
        if clear & set != 0 {
            return Err(RecordFault::SetAndClear(place));
        }
        self.reset()
    }

    // A number that is at least `least`.
    fn number(&mut self, least: i32) -> Result<i32, RecordFault>
        ensures { MatchResult result (λ v. Number self.old least v self.new) (λ f. (x : Context) (s : Slot) → TakesNumber least s → Stops self.old x s f) }
    {
        let place = self.next;
        let word = self.expect(Kind::Number)?;
        Ok(number_in(word, least, place)?)
    }

    // The numbers of a reset.
    pub(crate) fn resets(&mut self, count: u32) -> Result<(), RecordFault>
        ensures { MatchResult result (λ _. (x : Context) → Goes self.old x (owing count) self.new (atomOr 0)) (λ f. (x : Context) → Stops self.old x (owing count) f) }
    {
        for _ in 0..count {
            self.number(0)?;
        }
        Ok(())
    }

    // An atom and its number, after `count` others of their record: whether one came next. Inlined with the loop over it, so that
    // the reader's place need not be written down at every word.
    #[inline(always)]
    fn atom(&mut self, urgent: bool, count: usize) -> Result<bool, RecordFault>
        ensures { MatchResult result (λ some. AtomTaken self.old urgent count self.new some) (λ f. (x : Context) → x.urgent ≡ urgent → Stops self.old x (atomOr count) f) }
    {
        let place = self.next;
        let Some(word) = self.take(Kind::Atom) else {
            return Ok(false);
        };
        self.scope.clocks_of(word, place)?;
        if urgent {
            return Err(RecordFault::UrgentAtom(place));
        }
        if count >= ATOMS {
            return Err(RecordFault::Surplus(place));
        }
        self.number(-GREATEST)?;
        Ok(true)
    }

    // The atoms of a record. They end where the next word is no atom, so the count is no index of a `for`.
    #[inline(always)]
    pub(crate) fn atoms(&mut self, urgent: bool) -> Result<(), RecordFault>
        ensures { Walks self.old (atomOr 0) self.new between (λ x. x.urgent ≡ urgent) result }
    {
        let mut count = 0;
        while self.atom(urgent, count)? {
            count += 1;
        }
        Ok(())
    }

    // The record ends here: the next word continues none.
    pub(crate) fn boundary(&self) -> Result<(), RecordFault>
        ensures { MatchResult result (λ _. continued (words_of self.now) ≡ 0) (λ f. (x : Context) (s : Slot) → BeginsNext s → Stops self.now x s f) }
    {
        if word_at(self.bytes, 0).is_some_and(continues) {
            return Err(RecordFault::Misplaced(self.next));
        }
        Ok(())
    }
}
