// A file while it is edited.
use crate::edit::Edit;
use std::alloc::{AllocError, Global};
use written::{bytes, end_after};

// The words but for the last, the last word where it is not the right end, and how many bytes are kept.
#[derive(Drop)]
pub struct Draft {
    heap: Global,
    words: Vec<u32>,
    end: Option<u32>,
    keep: usize,
}

impl Draft {
    // The words of `base` after some edits, from the first to the last.
    pub(crate) fn edited(heap: Global, base: &[u32], edits: &[Edit]) -> Result<Draft, AllocError> {
        let mut draft = Draft {
            heap,
            words: Vec::from_slice(heap, base)?,
            end: None,
            keep: usize::MAX,
        };
        for edit in edits {
            draft.edit(*edit)?;
        }
        Ok(draft)
    }

    fn edit(&mut self, edit: Edit) -> Result<(), AllocError> {
        match edit {
            Edit::Words(words) => self.splice(0, usize::MAX, words),
            Edit::Put(place, word) => self.splice(place, 1, &[word]),
            Edit::Insert(place, words) => self.splice(place, 0, words),
            Edit::Remove(place, count) => self.splice(place, count, &[]),
            Edit::Repeat(place, count, more) => self.repeat(place, count, more),
            Edit::End(word) => {
                self.end = Some(word);
                Ok(())
            }
            Edit::Keep(bytes) => {
                self.keep = bytes;
                Ok(())
            }
        }
    }

    // Writes other words in place of `count` words from a place on.
    fn splice(&mut self, place: usize, count: usize, words: &[u32]) -> Result<(), AllocError> {
        let (before, rest) = self.words.split_at(place.min(self.words.len()));
        let (_, after) = rest.split_at(count.min(rest.len()));
        let mut all = Vec::from_slice(self.heap, before)?;
        all.extend_from_slice(words)?;
        all.extend_from_slice(after)?;
        self.words = all;
        Ok(())
    }

    // Writes `count` words from a place on so many times more.
    fn repeat(&mut self, place: usize, count: usize, more: usize) -> Result<(), AllocError> {
        let mut copies = Vec::new(self.heap);
        for _ in 0..more {
            copies.extend(self.words.iter().skip(place).take(count).copied())?;
        }
        self.splice(place, 0, &copies)
    }

    // The bytes of the file, each word's most significant byte first.
    pub(crate) fn bytes(&self) -> Result<Vec<u8>, AllocError> {
        let end = self.end.unwrap_or(end_after(self.words.len()));
        let mut bytes = bytes(self.heap, &self.words, end)?;
        bytes.truncate(self.keep);
        Ok(bytes)
    }
}
