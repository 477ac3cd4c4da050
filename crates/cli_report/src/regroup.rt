// Circuit words of the layout from before groups, rewritten on standard output: each start 2 more, the start and the count of the group
// numbers after the nine others, and the numbers after the bodies: 0, 1, 2, …, so that each lookup is a group of its own.
use crate::files::write_words;
use backend_sections::contents::{FIRST_START, GROUPS, K_WORD, STATED_WORD, WIDTH_COUNT};
use cli_faults::older::{OLDER_CONTENTS, is_older};
use cli_messages::older::not_older;
use cli_texts::host::Texts;
use lists::word_at;
use std::io;
use std::io::Stdout;
use std::rt::{Env, Files};

// 2 more.
fn moved(word: u64) -> u64 {
    word.wrapping_add(2)
}

// The contents of 22 words.
fn write_contents(out: Stdout, circuit: &[u64]) -> io::Result<()> {
    println!(out;
        "{} {}",
        word_at(circuit, K_WORD),
        word_at(circuit, STATED_WORD)
    )?;
    for section in 0..GROUPS {
        let at = FIRST_START + 2 * section;
        println!(out;
            "{} {}",
            moved(word_at(circuit, at)),
            word_at(circuit, at + 1)
        )?;
    }
    println!(out;
        "{} {}",
        moved(circuit.len() as u64),
        word_at(circuit, WIDTH_COUNT)
    )
}

// The bodies and the numbers, one to a line.
fn write_bodies(out: Stdout, circuit: &[u64]) -> io::Result<()> {
    let mut to = out;
    if let Some(bodies) = circuit.get(OLDER_CONTENTS..) {
        write_words(&mut to, bodies, 8)?;
    }
    for number in 0..word_at(circuit, WIDTH_COUNT) {
        println!(out; "{number}")?;
    }
    Ok(())
}

// All of them.
fn write_regrouped(out: Stdout, circuit: &[u64]) -> io::Result<()> {
    write_contents(out, circuit)?;
    write_bodies(out, circuit)
}

// Rewrites the words, or says why not.
pub fn regroup<R: Files + Env>(texts: &Texts<R>, out: Stdout, circuit: &[u64]) -> io::Result<()> {
    if !is_older(circuit) {
        return not_older(texts, circuit);
    }
    match write_regrouped(out, circuit) {
        Ok(()) => Ok(()),
        Err(_) => println!(texts.err; "standard output: the words could not be written whole"),
    }
}
