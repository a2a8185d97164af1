// The reader of records.
ghost use Rattle.std.specs.Prelude.{◌≡◌, ◌+◌, ◌*◌, ◌^◌, ◌<◌, true, false, MatchResult, nat_lt};
ghost use Rattle.format.specs.Words.{kind as kind_of, content as content_of};
ghost use Rattle.format.specs.Places.{may_stand_here, unused_zero, names_known, within_limit};
ghost use Rattle.format.specs.Faults.{six_seven, record_stop};
ghost use Rattle.format.specs.Places.{Context, Slot, after_condition, context_after, slot_after};
ghost use Rattle.format.specs.Places.Slot.{onesMask, setMask, atomOr, between};
ghost use Rattle.format.specs.Reading.{context_of, slot_of, head_of, Goes, Stops, Begins, BegunBy, Continued, Past, Reads, rest_slot, Walks, walk_of, Handed, begun_by, part_of};

use crate::fault::{RecordFault, WordFault};
use crate::kind::{FirstWord, Kind, RecordKind};
use crate::scope::{File, Place, Record, Scope, Text};
use crate::text::{content, narrow};

impl FirstWord {
    // The record that has these bytes and begins with this word.
    fn record<'a>(self, part: &'a [u8]) -> Record<'a>
        ensures case { begun_by result ≡ kind_of self.word }
        ensures bytes { part_of result ≡ part.now }
    {
        match self.kind {
            RecordKind::Head => Record::Head(part),
            RecordKind::Start => Record::Start(part),
            RecordKind::Invariant => Record::Invariant(part),
            RecordKind::Command => Record::Command(part),
            RecordKind::Bad => Record::Bad(part),
            RecordKind::Zone => Record::Zone(part),
        }
    }
}

impl Scope {
    // Questions 6 and 7 at a word that begins a record.
    fn begins(&self, first: FirstWord, place: usize) -> Result<u32, WordFault>
        ensures { result ≡ six_seven (unused_zero first.word) (names_known (head_of self.now) (kind_of first.word) first.word) place (content_of first.word) }
    {
        let content = content(first.word);
        match first.kind {
            RecordKind::Start | RecordKind::Zone => self.booleans_in(content, place),
            RecordKind::Head => narrow(content, 9, place),
            RecordKind::Command => narrow(content, 1, place),
            RecordKind::Invariant | RecordKind::Bad => narrow(content, 0, place),
        }
    }
}

impl Text<'_> {
    // An invariant or a bad record after its first word.
    fn guarded(&mut self) -> Result<(), RecordFault>
        ensures { Walks self.old onesMask self.new between (λ x. (after_condition x.section ≡ atomOr 0) × (x.urgent ≡ false)) result }
    {
        self.condition()?;
        self.atoms(false)
    }

    // A command after its first word.
    fn command(&mut self, urgent: bool) -> Result<(), RecordFault>
        ensures { Walks self.old onesMask self.new between (λ x. (after_condition x.section ≡ setMask) × (x.urgent ≡ urgent)) result }
    {
        self.condition()?;
        let resets = self.effects()?;
        self.resets(resets.count_ones())?;
        self.atoms(urgent)
    }

    // The words that continue the record which begins with this word.
    fn body(&mut self, first: FirstWord) -> Result<(), RecordFault>
        ensures { MatchResult result (λ _. (x : Context) (s : Slot) → Begins s first.word → Goes self.old (context_after x s first.word) (slot_after x s first.word) self.new (rest_slot s)) (λ f. (x : Context) (s : Slot) → Begins s first.word → Stops self.old (context_after x s first.word) (slot_after x s first.word) f) }
    {
        match first.kind {
            RecordKind::Head | RecordKind::Start => Ok(()),
            RecordKind::Command => self.command(content(first.word) == 1),
            RecordKind::Zone => self.atoms(false),
            RecordKind::Invariant | RecordKind::Bad => self.guarded(),
        }
    }

    // The rest of the record which begins with this word.
    fn rest_of(&mut self, first: FirstWord) -> Result<(), RecordFault>
        ensures { MatchResult result (λ _. Continued self.old first.word self.new) (λ f. (x : Context) (s : Slot) → Begins s first.word → Stops self.old (context_after x s first.word) (slot_after x s first.word) f) }
    {
        self.body(first)?;
        self.boundary()
    }
}

impl Place {
    // Question 5 at a record's first word.
    fn may_stand(&self, word: u32, last: bool) -> bool
        ensures { result ≡ may_stand_here (context_of self.now) (slot_of self.now) last word }
    {
        let Some(kind) = Kind::of(word) else {
            return false;
        };
        let ends = last && kind == Kind::End;
        match self.last {
            None => kind == Kind::Head,
            Some(RecordKind::Head) => match self.file {
                File::Model => kind == Kind::Start,
                File::List => kind == Kind::Zone || ends,
            },
            Some(RecordKind::Start | RecordKind::Invariant) => {
                matches!(kind, Kind::Invariant | Kind::Command | Kind::Bad) || ends
            }
            Some(RecordKind::Command) => matches!(kind, Kind::Command | Kind::Bad) || ends,
            Some(RecordKind::Bad) => kind == Kind::Bad || ends,
            Some(RecordKind::Zone) => kind == Kind::Zone || ends,
        }
    }

    // Question 11 at a record's first word. The limits and the counting below go by the same kinds, but one asks and the other
    // counts: a table of places in the tally for both would be no plainer.
    fn has_room(&self, first: FirstWord) -> bool
        ensures { result ≡ within_limit (context_of self.now) (slot_of self.now) first.word }
    {
        match first.kind {
            RecordKind::Invariant => self.tally.invariants < 32,
            RecordKind::Command => self.tally.commands < 64,
            RecordKind::Bad => self.tally.bads < 32,
            RecordKind::Zone => self.tally.zones < 512,
            RecordKind::Head | RecordKind::Start => true,
        }
    }

    // A reader of the words that are left.
    fn reader<'a>(&self, bytes: &'a [u8]) -> Text<'a>
        ensures { Reads self.now bytes.now result }
    {
        Text {
            scope: self.scope,
            next: (self.scope.words as usize).saturating_sub(bytes.len() / 4),
            bytes,
        }
    }

    // The word that begins the next record, with questions 5 to 11; nothing where the file ends.
    fn begin(&self, text: &mut Text) -> Result<Option<FirstWord>, RecordFault>
        ensures { MatchResult result (λ first. BegunBy self.now text.old first text.new) (λ f. Stops text.old (context_of self.now) (slot_of self.now) f) }
    {
        let place = text.next;
        let last = text.bytes.len() / 4 == 1;
        let Some(word) = text.take_word() else {
            return Err(RecordFault::Misplaced(place));
        };
        if !self.may_stand(word, last) {
            return Err(RecordFault::Misplaced(place));
        }
        let Some(first) = FirstWord::of(word) else {
            return Ok(None);
        };
        text.scope.begins(first, place)?;
        if !self.has_room(first) {
            return Err(RecordFault::Surplus(place));
        }
        Ok(Some(first))
    }

    // The place after the record that begins with this word.
    fn past(&self, first: FirstWord) -> Place
        requires begins { Begins (slot_of self.now) first.word }
        requires room { within_limit (context_of self.now) (slot_of self.now) first.word ≡ true }
        ensures { Past self.now first.word result }
    {
        let mut next = *self;
        next.last = Some(first.kind);
        match first.kind {
            RecordKind::Head | RecordKind::Start => {}
            RecordKind::Invariant => next.tally.invariants += 1,
            RecordKind::Command => next.tally.commands += 1,
            RecordKind::Bad => next.tally.bads += 1,
            RecordKind::Zone => next.tally.zones += 1,
        }
        next
    }

    // Hands out the next record and the bytes still unread, and moves past it; at a fault the place stays.
    pub fn next_record<'a>(
        &mut self,
        bytes: &'a [u8],
    ) -> Result<(Record<'a>, &'a [u8]), RecordFault>
        ensures { MatchResult result (λ x. Handed self.old self.new bytes.now x.0 x.1.now) (λ f. (walk_of self.old bytes.now ≡ record_stop f) × (self.new ≡ self.old)) }
    {
        let mut text = self.reader(bytes);
        let start = text.next;
        let Some(first) = self.begin(&mut text)? else {
            let (part, rest) = bytes.split_at(4);
            return Ok((Record::End(part), rest));
        };
        text.rest_of(first)?;
        let words = text.next - start;
        let (part, rest) = bytes.split_at(4 * words);
        *self = self.past(first);
        Ok((first.record(part), rest))
    }
}
