// Reads the stored answers (the file that its first argument names; oracle/README.md has the format), and counts
// them by call. What document 01 says of every answer, whatever its columns, is looked at in each: slices have the
// lengths they state; a refusal returns zeros after its number and leaves its buffers, but for 15 and 17; words past those
// written stay. Then the call is made again on the lent words, where it is there: a line names each block whose stored
// number or buffer is another.
#![tactic(auto)]

ghost use Rattle.std.specs.Prelude.{◌≤◌, length};

use call::Call;
use cli_texts::files::open_read;
use cli_texts::say;
use counts::Counts;
use judge::judge;
use slices::Block;
use std::io;
use std::io::{Read, Stderr};
use std::rt::{Env, Files};
use text::{LINES, first_line, read_block};

mod again;
mod call;
mod counts;
mod judge;
mod slices;
mod text;

// Looks at a block that was read, and makes its call again; answers whether it is right.
fn look(
    rt: &impl Print,
    call: Call,
    block: &Block,
    room: &mut [u64],
    counts: &mut Counts,
) -> io::Result<bool> {
    let Some(shown) = judge(call, block) else {
        return Ok(false);
    };
    let same = again::is_same(call, block, room);
    counts.add(rt, call, shown, same)?;
    Ok(true)
}

// Takes the lines of a block of this call; answers what follows, if the block is right.
fn block<'a>(
    rt: &impl Print,
    call: Call,
    text: &'a [u8],
    words: &mut [u64],
    room: &mut [u64],
    counts: &mut Counts,
) -> io::Result<Option<&'a [u8]>> {
    let mut starts = [0usize; LINES];
    let Some(rest) = read_block(text, call.lines(), words, &mut starts) else {
        return Ok(None);
    };
    let block = Block { words, starts };
    Ok(look(rt, call, &block, room, counts)?.then_some(rest))
}

// Takes the lines of the head, the empty lines and the blocks, up to the first block that is not right.
fn all_turns(
    rt: &impl Print,
    text: &[u8],
    words: &mut [u64],
    room: &mut [u64],
    counts: &mut Counts,
) -> io::Result<()> {
    let mut rest = text;
    for _ in 0..text.len() {
        let (line, after) = first_line(rest);
        rest = match line.first() {
            None => return Ok(()),
            Some(b'#' | b'\n') => after,
            Some(_) => {
                let taken = match Call::of(line) {
                    Some(call) => block(rt, call, after, words, room, counts)?,
                    None => None,
                };
                let Some(next) = taken else {
                    counts.not_right = counts.not_right.saturating_add(1);
                    return Ok(());
                };
                next
            }
        };
    }
    Ok(())
}

fn replay(rt: &impl Print, text: &[u8]) -> io::Result<()> {
    let mut words = [0u64; 8192];
    let mut room = [0u64; 8192];
    let mut counts = Counts::default();
    all_turns(rt, text, &mut words, &mut room, &mut counts)?;
    counts.print(rt)
}

// Room for the text.
fn room() -> [u8; 400000] {
    [0; 400000]
}

// Reads until the room is full, the file ends or a read fails, and answers how many bytes were read.
fn read_full(file: &mut impl Read, text: &mut [u8]) -> usize
    ensures { result ≤ length text.new }
{
    let mut done: usize = 0;
    // Kept: each turn goes on by as many bytes as the read answers, so no range counts them.
    while done < text.len() {
        match file.read(&mut text[done..]) {
            Ok(0) | Err(_) => return done,
            Ok(n) => done += n,
        }
    }
    done
}

fn replay_file(rt: &impl Print, file: &mut impl Read) -> io::Result<()> {
    let mut text = room();
    let n = read_full(file, &mut text);
    replay(rt, &text[..n])
}

// Replays the file of this name, or says why it can't be read.
fn replay_named(rt: &(impl Files + Print), err: Stderr, path: &[u8]) -> io::Result<()> {
    match open_read(rt, path) {
        Ok(mut file) => replay_file(rt, &mut file),
        Err(why) => say::fail(err, path, &why),
    }
}

fn main(rt: HostRuntime) -> io::Result<()> {
    let mut path = [0u8; 4096];
    match rt.arg(1, &mut path) {
        Ok(length) => replay_named(&rt, rt.stderr(), &path[..length]),
        Err(_) => replay_named(&rt, rt.stderr(), b""),
    }
}
