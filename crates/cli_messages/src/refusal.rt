// Which question was answered no, where the first offending word stands, and what is wrong with it.
use crate::question;
use backend_sections::contents::{CONSTRAINT_START, NODE_START};
use cli_faults::bounds::bounds_of;
use cli_faults::fault::place_of;
use cli_faults::nodes::NodeWord;
use cli_faults::older::is_older;
use cli_reasons::section::{section_name, section_of};
use cli_reasons::{groups, late, layout, starts};
use cli_texts::files::line_of;
use cli_texts::host::Texts;
use lists::word_at;
use std::io;
use std::io::Stderr;
use std::rt::{Env, Files};

// The argument that names the circuit's file.
const CIRCUIT: usize = 2;

// The node that a word stands in, if it stands in the nodes, and which of its words it is.
fn node_of(err: Stderr, circuit: &[u64], at: u64) -> io::Result<()> {
    let start = word_at(circuit, NODE_START);
    if (start..word_at(circuit, CONSTRAINT_START)).contains(&at) {
        let offset = at.wrapping_sub(start);
        let word = NodeWord::of(offset as usize);
        print!(err; ", node {} (its {word})", offset / 4)?;
    }
    Ok(())
}

// A word's number, and its line where that can be told.
pub(crate) fn stands<R: Files + Env>(texts: &Texts<R>, place: usize) -> io::Result<()> {
    let err = texts.err;
    print!(err; "word {place}")?;
    if let Some(line) = line_of(texts.rt, CIRCUIT, place) {
        print!(err; ", line {line}")?;
    }
    Ok(())
}

// The first offending word: its number, line, value and section.
fn offending<R: Files + Env>(
    texts: &Texts<R>,
    circuit: &[u64],
    no: u64,
    place: usize,
) -> io::Result<()> {
    let err = texts.err;
    texts.name(CIRCUIT)?;
    print!(err; ": the first offending word is ")?;
    stands(texts, place)?;
    let section = section_name(section_of(circuit, place as u64));
    print!(err;
        ", its value {}; it stands in {section}",
        word_at(circuit, place)
    )?;
    if no > 4 {
        node_of(err, circuit, place as u64)?;
    }
    println!(err; "")
}

// A cell that stood in its cycle before.
fn again<R: Files + Env>(texts: &Texts<R>, circuit: &[u64], place: usize) -> io::Result<()> {
    let err = texts.err;
    if let Some(before) = late::stood_before(bounds_of(circuit), place) {
        print!(err; "the same cell stands in its cycle before, at ")?;
        stands(texts, before)?;
        println!(err; "")?;
    }
    Ok(())
}

// What is wrong with the first offending word.
// Kept: the numbers are document 01's names of the questions, and each chooses only what is said.
fn why<R: Files + Env>(texts: &Texts<R>, circuit: &[u64], no: u64, place: usize) -> io::Result<()> {
    let err = texts.err;
    let b = bounds_of(circuit);
    match no {
        2 => starts::size_why(err, b),
        3 => starts::limit_why(err, b, place),
        4 => starts::start_why(err, b, place),
        5 => late::columns_why(err, b, place),
        6 => late::value_why(err, b, place),
        7 => layout::layout_why(err, b, place),
        8 => late::range_why(err, b, place),
        9 => late::width_why(err, b, place),
        10 => late::degree_why(err, b, place),
        18 => groups::group_why(err, b, place),
        _ => late::cell_why(err, b, place),
    }?;
    if no == 11 {
        again(texts, circuit, place)?;
    }
    Ok(())
}

// Too few words, or more or fewer than the contents say.
fn length<R: Files + Env>(texts: &Texts<R>, circuit: &[u64], no: u64) -> io::Result<()> {
    let err = texts.err;
    texts.name(CIRCUIT)?;
    if no == 1 {
        println!(err;
            ": there are {} words, at least 22 are needed",
            circuit.len()
        )?;
    } else {
        starts::length_why(err, bounds_of(circuit))?;
    }
    texts.line_ends(CIRCUIT)
}

// Says so of words that have the layout from before groups.
fn hint<R: Files + Env>(texts: &Texts<R>, circuit: &[u64]) -> io::Result<()> {
    let err = texts.err;
    if is_older(circuit) {
        texts.name(CIRCUIT)?;
        print!(err; ": these words have the layout from before groups; hyperplonk_cli regroup ")?;
        texts.name(CIRCUIT)?;
        println!(err; " rewrites them")?;
    }
    Ok(())
}

// Says all of it.
pub fn refusal<R: Files + Env>(texts: &Texts<R>, circuit: &[u64], no: u64) -> io::Result<()> {
    let err = texts.err;
    question::answered_no(err, no)?;
    match place_of(circuit, no) {
        None => length(texts, circuit, no)?,
        Some(place) => {
            offending(texts, circuit, no, place)?;
            why(texts, circuit, no, place)?;
        }
    }
    hint(texts, circuit)
}
