// OUT: written beside and then renamed, so that what stands there stays until the new file is whole; and never over a file that
// `build` did not write.
use crate::line::name_beside;
use crate::shape::Shape;
use crate::write_out::write_out;
use cli_texts::files::unnamed;
use cli_texts::host::Texts;
use cli_texts::say;
use std::fs::{OpenFile, OpenOptions};
use std::io::{ErrorKind, Print, Read, Seek, SeekFrom, Stderr, Write};
use std::process::Process;
use std::rt::{Env, Files};
use std::{fs, io, process};

// What a build wrote, and the shape of its circuit.
#[derive(Clone, Copy)]
pub struct Built<'a> {
    pub columns: &'a [u64],
    pub nodes: &'a [u64],
    pub shape: &'a Shape<'a>,
}

// Does what is open begin as a file that `build` wrote? What has no place to read from, as a pipe or a terminal, is not read.
fn is_built(file: &mut (impl Read + Seek)) -> bool {
    let mut first = [0u8; 26];
    if !matches!(file.seek(SeekFrom::Current(0)), Ok(0)) {
        return false;
    }
    file.read_exact(&mut first).is_ok() && first == *b"# columns, words to each: "
}

// May the file be written? Not where something else stands there; says so.
fn is_free(rt: &impl Files, err: Stderr, path: &str) -> io::Result<bool> {
    let mut file = match OpenOptions::new().read(true).write(true).open(rt, path) {
        Ok(file) => file,
        Err(why) if why.kind() == ErrorKind::NotFound => return Ok(true),
        Err(why) => {
            say::fail(err, path.as_bytes(), &why)?;
            return Ok(false);
        }
    };
    let built = is_built(&mut file);
    if !built {
        println!(err;
            "{path}: something stands there that build did not write; it is left as it is, and nothing is written"
        )?;
    }
    Ok(built)
}

// Writes all of it, to the device.
fn fill(file: &mut (impl Write + OpenFile), built: &Built) -> io::Result<()> {
    write_out(file, built)?;
    file.sync_all()
}

// Fills, closes and renames the file beside; where that fails, removes it and says why.
fn through<R: Files>(
    texts: &Texts<R>,
    path: &str,
    beside: &str,
    file: R::File,
    built: &Built,
) -> io::Result<bool> {
    let mut file = file;
    let filled = fill(&mut file, built);
    drop(file);
    let Err(why) = filled.and_then(|()| fs::rename(texts.rt, beside, path)) else {
        return Ok(true);
    };
    let _ = fs::remove_file(texts.rt, beside);
    say::fail(texts.err, path.as_bytes(), &why)?;
    println!(texts.err;
        "{path}: the columns and nodes could not be written whole; what stood there is as before"
    )?;
    Ok(false)
}

fn write_beside<R: Files>(
    texts: &Texts<R>,
    path: &str,
    beside: &str,
    built: &Built,
) -> io::Result<bool> {
    match OpenOptions::new()
        .write(true)
        .create_new(true)
        .open(texts.rt, beside)
    {
        Ok(file) => through(texts, path, beside, file, built),
        Err(why) => {
            say::fail(texts.err, path.as_bytes(), &why)?;
            Ok(false)
        }
    }
}

fn write_path<R: Files>(
    texts: &Texts<R>,
    process: Process,
    path: &str,
    built: &Built,
) -> io::Result<bool> {
    if !is_free(texts.rt, texts.err, path)? {
        return Ok(false);
    }
    match name_beside(path, process::id(process)) {
        Ok(beside) => write_beside(texts, path, beside.as_str(), built),
        Err(_) => Ok(false),
    }
}

// Writes what was built to the file that an argument names; answers whether it stands there.
pub fn write<R: Files + Env>(
    texts: &Texts<R>,
    process: Process,
    argument: usize,
    built: &Built,
) -> io::Result<bool> {
    let err = texts.err;
    let mut path = [0u8; 4096];
    let n = match texts.rt.arg(argument, &mut path) {
        Ok(n) => n,
        Err(why) => {
            unnamed(err, why)?;
            return Ok(false);
        }
    };
    match str::from_utf8(&path[..n]) {
        Ok(text) => write_path(texts, process, text, built),
        Err(_) => {
            Print::write_all(&err, &path[..n])?;
            println!(err; ": the name is no UTF-8 text")?;
            Ok(false)
        }
    }
}
