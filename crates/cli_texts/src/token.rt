// The token of a text that is no word: found by reading the text once more, and shown.
use crate::parts::find_in;
use arrayvec::ArrayVec;
use decimal::{Fault, Scan, Stands, start, take_bytes};
use std::io;
use std::io::{Print, Read, Stderr};

// How many bytes of a token are shown.
const SHOWN: usize = 40;

// One more than are shown.
const KEPT: usize = 41;

// The first bytes of a token.
type Token = ArrayVec<u8, KEPT>;

// Is the byte one that ends a token: white space, or a comment's begin?
pub fn ends(byte: u8) -> bool {
    matches!(byte, b'#' | b' ' | b'\t'..=b'\r')
}

// The state of the reading, or what is wrong with the text so far; and the first bytes of the token begun.
#[derive(Drop)]
struct Look {
    scan: Result<Scan, Fault>,
    token: Token,
}

impl Look {
    // Keeps a byte of the token, if there is room.
    fn keep(&mut self, byte: u8) {
        if !self.token.is_full() {
            self.token.push(byte);
        }
    }

    // Takes a byte; answers whether the token is over. Once the reading has ended the token goes on to its end, or to one byte
    // more than are shown.
    fn is_over(&mut self, byte: u8, words: &mut [u64]) -> bool {
        let Ok(scan) = self.scan else {
            if ends(byte) || self.token.is_full() {
                return true;
            }
            self.keep(byte);
            return false;
        };
        self.scan = take_bytes(scan, &[byte], words);
        match self.scan {
            Ok(
                Scan {
                    stands: Stands::Between | Stands::Comment,
                    ..
                },
            ) => self.token.clear(),
            _ => self.keep(byte),
        }
        false
    }

    // Takes the bytes of a part of the text; answers something once the token is over.
    fn find(&mut self, bytes: &[u8], words: &mut [u64]) -> Option<()> {
        for byte in bytes {
            if self.is_over(*byte, words) {
                return Some(());
            }
        }
        None
    }
}

// The token of an open file that is no word: its first bytes.
pub fn token_of(file: &mut impl Read, words: &mut [u64]) -> Token {
    let mut look = Look {
        scan: Ok(start()),
        token: Token::new(),
    };
    let _ = find_in(file, |part| look.find(part, words));
    look.token
}

// Shows a byte: as it is where that can be seen and is no quote or backslash, else by its number.
fn show_byte(to: Stderr, byte: u8) -> io::Result<()> {
    if byte.is_ascii_graphic() && byte != b'"' && byte != b'\\' {
        return Print::write_all(&to, &[byte]);
    }
    print!(to; "\\x{byte:02x}")
}

// Says what the first bytes are, where they are a mark that editors put before a text.
fn mark(to: Stderr, token: &[u8]) -> io::Result<()> {
    if token.starts_with(&[0xef, 0xbb, 0xbf]) {
        print!(to; " (a byte-order mark: save the file without it)")?;
    }
    if token.starts_with(&[0xff, 0xfe]) || token.starts_with(&[0xfe, 0xff]) {
        print!(to; " (a byte-order mark of UTF-16: save the file as plain text)")?;
    }
    Ok(())
}

// Shows the token in quotes.
pub fn show(to: Stderr, token: &[u8]) -> io::Result<()> {
    print!(to; ": \"")?;
    for byte in token.iter().take(SHOWN) {
        show_byte(to, *byte)?;
    }
    print!(to; "\"")?;
    if token.len() > SHOWN {
        print!(to; "...")?;
    }
    mark(to, token)
}
