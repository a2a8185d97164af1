// The edits of a file.

// One change of a file's words. Places count the words from 0. The end is no part of them: it comes last, with the right count.
#[derive(Clone, Copy)]
pub enum Edit {
    // The words become these.
    Words(&'static [u32]),
    // Put(place, word): the word at the place becomes this.
    Put(usize, u32),
    // Insert(place, words): these come in before the word at the place.
    Insert(usize, &'static [u32]),
    // Remove(place, count): so many words from the place on go.
    Remove(usize, usize),
    // Repeat(place, count, more): so many words from the place on come in so many times more.
    Repeat(usize, usize, usize),
    // This word stands in place of the end.
    End(u32),
    // So many bytes of the file are kept, its end included.
    Keep(usize),
}
