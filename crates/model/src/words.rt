// The words of a file or of a record, one after another.
ghost use Rattle.std.specs.Prelude.{◌≡◌, take, drop, slice_index};
ghost use Rattle.std.specs.Iterator.{YieldsFirst, item_count};
ghost use Rattle.format.specs.Words.{words};
ghost use Rattle.model.specs.Views.{words_left};

use format::word_at;

// The k-th word of some bytes, 0 past their end.
pub(crate) fn word(bytes: &[u8], k: usize) -> u32
    ensures { result ≡ slice_index (words bytes.now) k }
{
    word_at(bytes, k).unwrap_or(0)
}

// The words of some bytes, or the last ones of them.
#[derive(Clone, Copy, Debug, PartialEq, Eq)]
pub(crate) struct Words<'a> {
    pub(crate) bytes: &'a [u8],
}

impl<'a> Words<'a> {
    // All words of some bytes.
    pub(crate) fn of(bytes: &'a [u8]) -> Words<'a>
        ensures { words_left result ≡ words bytes.now }
    {
        Words { bytes }
    }

    // The first k words, and those after them.
    pub(crate) fn split_at(self, k: usize) -> (Words<'a>, Words<'a>)
        ensures front { words_left result.0 ≡ take k (words_left self.entry) }
        ensures rest { words_left result.1 ≡ drop k (words_left self.entry) }
    {
        let cut = k.saturating_mul(4).min(self.bytes.len());
        let (front, rest) = self.bytes.split_at(cut);
        (Words { bytes: front }, Words { bytes: rest })
    }

    // The words after the first k.
    pub(crate) fn past(self, k: usize) -> Words<'a>
        ensures { words_left result ≡ drop k (words_left self.entry) }
    {
        let (_, rest) = self.split_at(k);
        rest
    }
}

impl Iterator for Words<'_> {
    type Item = u32;

    ghost next_gives = { YieldsFirst words_left };

    ghost remaining = { item_count words_left };

    fn next(&mut self) -> Option<u32> {
        let word = word_at(self.bytes, 0)?;
        *self = self.past(1);
        Some(word)
    }
}
