// Why something failed, on standard error.
use std::io;
use std::io::{Print, Stderr, Write};

// The words of an error's text, which ends where zeros begin, without the number that the system's errors have after them.
fn reason(text: &str) -> &str {
    let words = before(text, "\0");
    before(words, " (os error ")
}

// What stands before a mark in a text, all of it where there is no mark.
fn before<'a>(text: &'a str, mark: &str) -> &'a str {
    match text.split_once(mark) {
        Some((words, _)) => words,
        None => text,
    }
}

// Says in a line what failed, as the caller names it, and why.
pub fn fail(to: Stderr, what: &[u8], why: &io::Error) -> io::Result<()> {
    let mut room = [0u8; 256];
    let mut rest = &mut room[..];
    let _ = write!(rest, "{why}");
    let text = match str::from_utf8(&room) {
        Ok(text) => reason(text),
        Err(_) => "",
    };
    Print::write_all(&to, what)?;
    print!(to; ": ")?;
    to.println(text)
}
