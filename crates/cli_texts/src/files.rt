// Files of words, read, and told of by name, line and token.
ghost use Rattle.std.specs.Prelude.{◌≤◌, length, IfOk, IfSome};

use crate::host::Texts;
use crate::parts::find_in;
use crate::{lines, say, token};
use decimal::{Fault, Wrong, start, take_bytes, take_end};
use std::env::FillError;
use std::fs::File;
use std::io;
use std::io::{Print, Read, Seek, SeekFrom, Stderr};
use std::rt::{Env, Files};

// Reads to the end of the file, or to what is wrong with its text; an error where a read fails.
fn read_all(file: &mut impl Read, words: &mut [u64]) -> io::Result<Result<usize, Fault>> {
    let mut scan = start();
    let wrong = find_in(file, |part| match take_bytes(scan, part, words) {
        Ok(next) => {
            scan = next;
            None
        }
        Err(fault) => Some(fault),
    })?;
    Ok(match wrong {
        Some(fault) => Err(fault),
        None => take_end(scan, words),
    })
}

// Goes back to the start of the file; a pipe can't.
fn is_again(file: &mut impl Seek) -> bool {
    match file.seek(SeekFrom::Start(0)) {
        Ok(at) => at == 0,
        Err(_) => false,
    }
}

// Shows the token that is no word. A file that can't be read from its start once more, as a pipe, has none to show.
fn show_token(file: &mut (impl Read + Seek), to: Stderr, words: &mut [u64]) -> io::Result<()> {
    if !is_again(file) {
        return Ok(());
    }
    let token = token::token_of(file, words);
    token::show(to, &token)
}

// Says what is wrong with a file.
fn complain(
    file: &mut (impl Read + Seek),
    to: Stderr,
    path: &[u8],
    fault: Fault,
    words: &mut [u64],
) -> io::Result<()> {
    Print::write_all(&to, path)?;
    print!(to; ", line {}", fault.line)?;
    match fault.wrong {
        Wrong::TooMany => {
            let room = words.len();
            return println!(to; ": the file is too long, it can have {room} words");
        }
        Wrong::NoNumber => print!(to; ": this is no decimal number")?,
        Wrong::TooLarge => print!(to; ": the number does not fit in 64 bits")?,
        Wrong::Other(_) => {}
    }
    show_token(file, to, words)?;
    println!(to; "")
}

// Reads the words of an open file, and says what is wrong with it; answers how many it has, if nothing is wrong.
fn read_open(
    file: &mut (impl Read + Seek),
    to: Stderr,
    path: &[u8],
    words: &mut [u64],
) -> io::Result<Option<usize>>
    ensures { IfOk result (λ got. IfSome got (λ count. count ≤ length words.new)) }
{
    match read_all(file, words) {
        Ok(Ok(count)) if count <= words.len() => return Ok(Some(count)),
        Ok(Ok(_)) => {}
        Ok(Err(fault)) => complain(file, to, path, fault, words)?,
        Err(why) => say::fail(to, path, &why)?,
    }
    Ok(None)
}

// Opens the file of this name to read it. A name that is no UTF-8 text is one that the library can't open.
pub fn open_read<R: Files>(rt: &R, path: &[u8]) -> io::Result<R::File> {
    match str::from_utf8(path) {
        Ok(text) => File::open(rt, text),
        Err(_) => Err(io::Error::other("the name is no UTF-8 text")),
    }
}

// Reads the words of the file.
fn read_file(
    rt: &impl Files,
    to: Stderr,
    path: &[u8],
    words: &mut [u64],
) -> io::Result<Option<usize>>
    ensures { IfOk result (λ got. IfSome got (λ count. count ≤ length words.new)) }
{
    match open_read(rt, path) {
        Ok(mut file) => read_open(&mut file, to, path, words),
        Err(why) => {
            say::fail(to, path, &why)?;
            Ok(None)
        }
    }
}

// Says why there is no name of a file.
pub fn unnamed(to: Stderr, why: FillError) -> io::Result<()> {
    match why {
        FillError::NotPresent => println!(to; "the file's name: Invalid argument"),
        FillError::TooLong => println!(to; "the file's name: File name too long"),
    }
}

// Opens the file once more, unless it can't be or can't be read from its start, as a pipe.
fn open_again<R: Files + Env>(rt: &R, argument: usize) -> Option<R::File> {
    let mut path = [0u8; 4096];
    let n = rt.arg(argument, &mut path).ok()?;
    let mut file = open_read(rt, &path[..n]).ok()?;
    if !is_again(&mut file) {
        return None;
    }
    Some(file)
}

// Have the lines of an open file carriage returns alone, so that a # takes the rest of it?
fn returns_alone(file: &mut impl Read) -> bool {
    let mut returns = false;
    let mut hashes = false;
    let fed = find_in(file, |part| {
        returns |= part.contains(&b'\r');
        hashes |= part.contains(&b'#');
        part.contains(&b'\n').then_some(())
    });
    returns && hashes && !matches!(fed, Ok(Some(())))
}

// The line of a word of the file that an argument names, none where it can't be told.
pub fn line_of(rt: &(impl Files + Env), argument: usize, place: usize) -> Option<u64> {
    lines::line_at(&mut open_again(rt, argument)?, place)
}

// The name of the file that an argument names.
impl<R: Env> Texts<'_, R> {
    // Says it.
    pub fn name(&self, argument: usize) -> io::Result<()> {
        let mut path = [0u8; 4096];
        match self.rt.arg(argument, &mut path) {
            Ok(n) => Print::write_all(&self.err, &path[..n]),
            Err(_) => Ok(()),
        }
    }
}

// The file that an argument names.
impl<R: Files + Env> Texts<'_, R> {
    // Reads its words; answers how many it has, if nothing is wrong.
    pub fn read(&self, argument: usize, words: &mut [u64]) -> io::Result<Option<usize>>
        ensures { IfOk result (λ got. IfSome got (λ count. count ≤ length words.new)) }
    {
        let mut path = [0u8; 4096];
        match self.rt.arg(argument, &mut path) {
            Ok(n) => read_file(self.rt, self.err, &path[..n], words),
            Err(why) => {
                unnamed(self.err, why)?;
                Ok(None)
            }
        }
    }

    // Says so where it has too few words since its lines end in carriage returns alone.
    pub fn line_ends(&self, argument: usize) -> io::Result<()> {
        let Some(mut file) = open_again(self.rt, argument) else {
            return Ok(());
        };
        if returns_alone(&mut file) {
            self.name(argument)?;
            println!(self.err;
                ": its lines end in carriage returns alone, so that the first # makes the rest a comment; save it with line feeds"
            )?;
        }
        Ok(())
    }
}
