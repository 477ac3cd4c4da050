// A line of words and the name of a file, put together in fixed memory.
use arrayvec::ArrayString;
use std::fmt;
use std::fmt::Write;

// A line of words, blanks between, and its end; an error where they do not go in, as 8 words do.
pub fn line_of(words: &[u64]) -> Result<ArrayString<192>, fmt::Error> {
    let mut line = ArrayString::new();
    for (i, word) in words.iter().enumerate() {
        if i > 0 {
            line.write_str(" ")?;
        }
        write!(line, "{word}")?;
    }
    line.write_str("\n")?;
    Ok(line)
}

// The name of the file beside, which a path and a number make; an error where it is too long.
pub fn name_beside(path: &str, number: u32) -> Result<ArrayString<4200>, fmt::Error> {
    let mut name = ArrayString::new();
    write!(name, "{path}.{number}.part")?;
    Ok(name)
}
