// The words of a block, and its slices, each with its length first.
use crate::text::LINES;
use lists::word_at;

// The words of a block, and where its lines start among them.
#[derive(Clone, Copy)]
pub struct Block<'a> {
    pub words: &'a [u64],
    pub starts: [usize; LINES],
}

// The slice at the front of words that have its length first. Empty where the words end before it.
fn first_slice(words: &[u64]) -> &[u64] {
    match words.split_first() {
        Some((count, rest)) => rest.get(..*count as usize).unwrap_or(&[]),
        None => words,
    }
}

impl<'a> Block<'a> {
    // The slice of a line.
    pub fn slice(&self, line: usize) -> &'a [u64] {
        match self.starts.get(line) {
            Some(start) => first_slice(self.words.get(*start..).unwrap_or(&[])),
            None => &[],
        }
    }

    // The number in a line, a slice of one word.
    pub fn number(&self, line: usize) -> u64 {
        word_at(self.slice(line), 0)
    }
}

// Have two slices the same length, and the same words after the first `skip`?
pub fn kept(before: &[u64], after: &[u64], skip: u64) -> bool {
    before.len() == after.len()
        && before
            .iter()
            .zip(after)
            .skip(skip as usize)
            .all(|(old, new)| *old == *new)
}

// Have two slices the same length, and is each word of the second 0 or that of the first?
pub fn zeroed(before: &[u64], after: &[u64]) -> bool {
    before.len() == after.len()
        && before
            .iter()
            .zip(after)
            .all(|(old, new)| *new == 0 || *old == *new)
}

// Are all words of a slice but the first 0?
pub fn number_then_zeros(slice: &[u64]) -> bool {
    slice.iter().skip(1).all(|word| *word == 0)
}

// Copies a slice to the front of a buffer, and gives that part of the buffer; an empty part where the slice does not fit.
pub fn fill<'a>(slice: &[u64], room: &'a mut [u64]) -> &'a mut [u64] {
    if slice.len() > room.len() {
        return &mut room[..0];
    }
    let part = &mut room[..slice.len()];
    part.copy_from_slice(slice);
    part
}
