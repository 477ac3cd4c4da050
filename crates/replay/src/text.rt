// The text of stored answers: lines and blocks.

// How many lines of words a block has at most.
pub const LINES: usize = 9;

// The first line of a text, with its end, and what follows.
pub fn first_line(text: &[u8]) -> (&[u8], &[u8]) {
    match text.iter().position(|byte| *byte == b'\n') {
        Some(end) => text.split_at(end + 1),
        None => text.split_at(text.len()),
    }
}

// Reads the words of a line to the front of the words, their number first, as the line has it; answers how many there are in all,
// if it is so.
fn read_line(line: &[u8], words: &mut [u64]) -> Option<usize> {
    let count = decimal::read(line, words).ok()?;
    let number = *words.first()?;
    if number.checked_add(1) != Some(count as u64) {
        return None;
    }
    Some(count)
}

// Reads the lines of a block: the words of line j stand from starts[j] on, their number first; answers what follows the block.
pub fn read_block<'a>(
    text: &'a [u8],
    lines: usize,
    words: &mut [u64],
    starts: &mut [usize; LINES],
) -> Option<&'a [u8]> {
    let mut rest = text;
    let mut from: usize = 0;
    for start in starts.iter_mut().take(lines) {
        let (line, after) = first_line(rest);
        let count = read_line(line, words.get_mut(from..)?)?;
        *start = from;
        from = from.checked_add(count)?;
        rest = after;
    }
    Some(rest)
}
