// Files of words, written; the crate texts reads them.
use crate::line::line_of;
use std::io;
use std::io::Write;

// What is said where the words can't be laid out; no call has such words.
pub(crate) fn unwritten() -> io::Error {
    io::Error::other("these words have no such layout")
}

// Writes words, `each` to a line, which is 1 to 8.
pub fn write_words(to: &mut impl Write, words: &[u64], each: usize) -> io::Result<()> {
    if each == 0 {
        return Err(unwritten());
    }
    for part in words.chunks(each) {
        let line = line_of(part).map_err(|_| unwritten())?;
        to.write_all(line.as_str().as_bytes())?;
    }
    Ok(())
}
