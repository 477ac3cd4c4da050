// The line at which a word of a text begins: words are counted, and not read.
use crate::parts::find_in;
use crate::token::ends;
use std::io::Read;

// Where a reading stands.
#[derive(Clone, Copy, PartialEq, Eq)]
enum Stands {
    Between,
    Word,
    Comment,
}

// The state of a reading: how many words come before the one that is looked for, the line, and what the next byte stands in.
#[derive(Clone, Copy)]
struct Walk {
    left: usize,
    line: u64,
    stands: Stands,
}

impl Walk {
    // Takes a byte; answers whether the word that is looked for begins there.
    fn is_at(&mut self, byte: u8) -> bool {
        if byte == b'\n' {
            self.line = self.line.wrapping_add(1);
            self.stands = Stands::Between;
            return false;
        }
        if self.stands == Stands::Comment {
            return false;
        }
        if ends(byte) {
            self.stands = if byte == b'#' {
                Stands::Comment
            } else {
                Stands::Between
            };
            return false;
        }
        if self.stands == Stands::Word {
            return false;
        }
        self.stands = Stands::Word;
        let Some(left) = self.left.checked_sub(1) else {
            return true;
        };
        self.left = left;
        false
    }

    // Takes the bytes of a part of the text; answers the line if the word begins in it.
    fn find(&mut self, bytes: &[u8]) -> Option<u64> {
        for byte in bytes {
            if self.is_at(*byte) {
                return Some(self.line);
            }
        }
        None
    }
}

// The line at which word `place`, counted from 0, begins in an open file; none where the text ends before, or can't be read.
pub fn line_at(file: &mut impl Read, place: usize) -> Option<u64> {
    let mut walk = Walk {
        left: place,
        line: 1,
        stands: Stands::Between,
    };
    find_in(file, |part| walk.find(part)).ok().flatten()
}
