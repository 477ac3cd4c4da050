// Circuit words of the layout from before groups: contents of 20 words, then nine sections without gaps that end the words.
use crate::fault::words_in;
use backend_sections::contents::{FIRST_START, GROUPS, K_WORD};
use lists::word_at;

// The words of its contents.
pub const OLDER_CONTENTS: usize = 20;

// Where section s ends by its count, if it begins at `start` and the words have room for it; else the place of its start, where that is
// another, or of its count.
fn section_end(circuit: &[u64], s: usize, start: u64) -> Result<u64, usize> {
    let words = circuit.len() as u64;
    let at = FIRST_START.wrapping_add(s.wrapping_mul(2));
    if word_at(circuit, at) != start {
        return Err(at);
    }
    let count = word_at(circuit, at.wrapping_add(1));
    let end = start.wrapping_add(words_in(word_at(circuit, K_WORD), s, count));
    if words < count || words < end {
        return Err(at.wrapping_add(1));
    }
    Ok(end)
}

// The first word that is not as in that layout: the place after the last where words follow the last section.
pub fn older_fault(circuit: &[u64]) -> Option<usize> {
    if 10 < word_at(circuit, K_WORD) {
        return Some(K_WORD);
    }
    match (0..GROUPS).try_fold(OLDER_CONTENTS as u64, |start, s| {
        section_end(circuit, s, start)
    }) {
        Ok(end) => (end != circuit.len() as u64).then_some(circuit.len()),
        Err(place) => Some(place),
    }
}

// Have the words that layout?
pub fn is_older(circuit: &[u64]) -> bool {
    older_fault(circuit).is_none()
}
