// What circuit words have, section by section.
use backend_sections::contents::{
    INSTANCE_COUNT, INSTANCE_START, PAIR_COUNT, PREPROCESS_COUNT, STATED_WORD, WIDTH_COUNT,
};
use cli_faults::bounds::{Bounds, bounds_of, sum_of};
use std::io;
use std::io::Stdout;

fn size(out: Stdout, b: Bounds, stated: u64) -> io::Result<()> {
    println!(out; "k is {}, rows: {}", b.k, b.rows)?;
    if stated == 0 {
        println!(out; "maximum degree: none stated")?;
    } else {
        println!(out; "maximum degree: {}", stated.wrapping_sub(1))?;
    }
    Ok(())
}

fn columns(out: Stdout, b: Bounds) -> io::Result<()> {
    let instances = b.word(INSTANCE_COUNT);
    let values = sum_of(b.words, b.word(INSTANCE_START) as usize, 1, instances);
    println!(out; "instance columns: {instances}, values in all: {values}")?;
    println!(out; "preprocess columns: {}", b.word(PREPROCESS_COUNT))?;
    println!(out;
        "rounds: {}, witness columns in all: {}, user challenges in all: {}",
        b.rounds.count, b.witness, b.user
    )
}

fn expressions(out: Stdout, b: Bounds) -> io::Result<()> {
    println!(out; "nodes: {}", b.nodes.count)?;
    println!(out; "constraints: {}", b.constraints.count)?;
    println!(out;
        "lookups: {}, pairs in all: {}",
        b.word(WIDTH_COUNT),
        b.word(PAIR_COUNT)
    )?;
    println!(out;
        "cycles: {}, cells in all: {}",
        b.lengths.count, b.cells.count
    )
}

// The sections with their counts.
pub fn sections(out: Stdout, circuit: &[u64]) -> io::Result<()> {
    let b = bounds_of(circuit);
    size(out, b, b.word(STATED_WORD))?;
    columns(out, b)?;
    expressions(out, b)
}
