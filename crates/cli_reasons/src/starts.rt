// What is said of questions 2 to 4: k, counts and sums with their limits, starts and lengths.
use crate::late::behind;
use crate::section::{section_name, section_of};
use backend_sections::contents::{
    CELL_COUNT, CONSTRAINT_COUNT, FIRST_START, GROUP_COUNT, INSTANCE_COUNT, K_WORD, LENGTH_COUNT,
    NODE_COUNT, PAIR_COUNT, PREPROCESS_COUNT, ROUND_COUNT, ROUNDS, STATED_WORD, WIDTH_COUNT,
    WIDTHS,
};
use cli_faults::bounds::{Bounds, SECTIONS};
use cli_faults::fault::limit_of;
use std::io;
use std::io::Stderr;

// Question 2.
pub fn size_why(err: Stderr, b: Bounds) -> io::Result<()> {
    println!(err; "k: {}, from 1 to 10", b.word(K_WORD))
}

// What a word of the contents counts.
fn counted(at: usize) -> &'static str {
    match at {
        STATED_WORD => "maximum degree",
        INSTANCE_COUNT => "instance columns",
        PREPROCESS_COUNT => "preprocess columns",
        ROUND_COUNT => "rounds",
        NODE_COUNT => "nodes",
        CONSTRAINT_COUNT => "constraints",
        WIDTH_COUNT => "lookups",
        LENGTH_COUNT => "cycles",
        _ => "cells",
    }
}

// A count, or the maximum degree, which word 1 is one more than.
fn count_why(err: Stderr, b: Bounds, at: usize) -> io::Result<()> {
    print!(err; "{}", counted(at))?;
    if at == ROUND_COUNT {
        return println!(err; ": {}, from 1 to 4", b.word(at));
    }
    let more = (at == STATED_WORD) as u64;
    let count = b.word(at).wrapping_sub(more);
    let limit = limit_of(at).wrapping_sub(more);
    println!(err; ": {count}, at most {limit}")
}

// A sum, 2^64 - 1 where it is more.
fn sum_why(err: Stderr, name: &str, sum: u64, limit: u64) -> io::Result<()> {
    print!(err; "{name}{sum}")?;
    if sum == u64::MAX {
        print!(err; " or more")?;
    }
    println!(err; ", at most {limit}")
}

fn rounds_why(err: Stderr, b: Bounds, place: usize) -> io::Result<()> {
    let part = place.wrapping_sub(b.rounds.start);
    if part % 2 == 0 {
        sum_why(err, "witness columns in all: ", b.witness, 32)?;
    } else {
        sum_why(err, "user challenges in all: ", b.user, 16)?;
    }
    Ok(())
}

// Question 3.
pub fn limit_why(err: Stderr, b: Bounds, place: usize) -> io::Result<()> {
    let Some(s) = section_of(b.words, place as u64) else {
        return count_why(err, b, place);
    };
    if s == ROUNDS {
        return rounds_why(err, b, place);
    }
    if s == WIDTHS {
        let lookup = behind(place, b.widths.start);
        return println!(err; "width of lookup {lookup}: {}, at most 8", b.word(place));
    }
    let sum = b.sum(b.lengths);
    sum_why(err, "cells in all, by the cycle lengths: ", sum, 4096)
}

// Lookup pairs that are not as many as the widths say, or more than there are words.
fn pairs_why(err: Stderr, b: Bounds) -> io::Result<()> {
    let pairs = b.word(PAIR_COUNT);
    if (b.words.len() as u64) < pairs {
        return println!(err; "lookup pairs: {pairs}, more than the circuit has words");
    }
    println!(err;
        "lookup pairs: {pairs}, the widths sum to {}",
        b.sum(b.widths)
    )
}

// Question 4, at a word of the contents.
pub fn start_why(err: Stderr, b: Bounds, place: usize) -> io::Result<()> {
    if place == PAIR_COUNT {
        return pairs_why(err, b);
    }
    if place == CELL_COUNT {
        let sum = b.sum(b.lengths);
        return println!(err; "cells: {}, the cycle lengths sum to {sum}", b.cells.count);
    }
    if place == GROUP_COUNT {
        return println!(err;
            "group numbers: {}, one to each lookup is asked, and the lookups are {}",
            b.word(place),
            b.word(WIDTH_COUNT)
        );
    }
    let s = place.wrapping_sub(FIRST_START) / 2;
    println!(err;
        "word {place} is {}, expected {} (the start of {})",
        b.word(place),
        b.begins(s),
        section_name(Some(s))
    )
}

// Question 4, where the contents do not end where the words do.
pub fn length_why(err: Stderr, b: Bounds) -> io::Result<()> {
    let words = b.words.len() as u64;
    println!(err;
        ": the circuit has {words} words, the contents end at {}",
        b.begins(SECTIONS)
    )
}
