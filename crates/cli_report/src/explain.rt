// What circuit words have and ask for, in words; and for refused ones which question was answered no, and where.
use crate::shape::{Rooms, Shape, shape_of};
use cli_messages::refusal::refusal;
use cli_messages::sections::sections;
use cli_texts::host::Texts;
use std::io;
use std::io::Stdout;
use std::rt::{Env, Files};

// A list of numbers, each after a blank.
fn numbers(out: Stdout, list: &[u64]) -> io::Result<()> {
    for number in list {
        print!(out; " {number}")?;
    }
    println!(out; "")
}

fn copied(out: Stdout, s: &Shape) -> io::Result<()> {
    let polynomials = s.circuit.copied();
    print!(out; "copied columns: {}", polynomials.len())?;
    if !polynomials.is_empty() {
        print!(out; ", polynomials")?;
    }
    numbers(out, polynomials.as_slice())
}

fn groups(out: Stdout, s: &Shape) -> io::Result<()> {
    let sizes = s.circuit.group_sizes();
    print!(out; "groups of lookups: {}", sizes.len())?;
    if !sizes.is_empty() {
        print!(out; ", lookups in each:")?;
    }
    numbers(out, sizes.as_slice())
}

// Whether the copied columns are cut alike, and the stack that build and check need.
fn cut_and_stack(out: Stdout, s: &Shape) -> io::Result<()> {
    let cuts = s.cuts();
    if cuts.differ() {
        cuts.tell(&out)?;
    } else {
        println!(out; "both cuts of the copied columns are alike")?;
    }
    match s.rooms {
        Rooms::Half => println!(out; "stack needed: 2 MiB"),
        Rooms::Whole => println!(out; "stack needed: 3 MiB"),
    }
}

// What an accepted circuit asks for.
fn needs(out: Stdout, s: &Shape) -> io::Result<()> {
    groups(out, s)?;
    let cuts = s.cuts();
    println!(out; "D: {}", cuts.part.wrapping_add(1))?;
    println!(out; "N: {}", cuts.parts)?;
    copied(out, s)?;
    println!(out; "column words needed: {}", s.column_words)?;
    println!(out; "nodes needed: {}, node words: {}", s.nodes, s.nodes << 2)?;
    println!(out; "nodes visited on one row: {}", s.visits)
}

// Says all of it.
pub fn explain<R: Files + Env>(texts: &Texts<R>, out: Stdout, circuit: &[u64]) -> io::Result<()> {
    match shape_of(circuit) {
        Ok(s) => {
            sections(out, circuit)?;
            needs(out, &s)?;
            cut_and_stack(out, &s)?;
            println!(out; "questions 1 to 11 and 18 are answered yes")
        }
        Err(no) => {
            if !matches!(no, 1..=4) {
                sections(out, circuit)?;
            }
            refusal(texts, circuit, no)
        }
    }
}
