// What is said of questions 5, 6, 8, 9, 10 and 11.
use crate::groups::lookup_at;
use backend_sections::contents::{CONSTRAINT_COUNT, INSTANCE_START, PREPROCESS_START, STATED_WORD};
use cli_faults::bounds::Bounds;
use cli_faults::degrees::ABOVE;
use cli_faults::nodes::NodeWord;
use expression::kind::Kind;
use expression::node::SIGNED_OFFSET;
use field::MODULUS;
use std::io;
use std::io::Stderr;

// One less than a count.
pub(crate) fn last(count: u64) -> u64 {
    count.wrapping_sub(1)
}

// How far a place is behind a start.
pub(crate) fn behind(place: usize, start: usize) -> u64 {
    place.wrapping_sub(start) as u64
}

fn round_why(err: Stderr, part: u64) -> io::Result<()> {
    print!(err; "round {}", part / 2)?;
    if part % 2 == 0 {
        println!(err; " has no witness column, at least 1 is asked")?;
    } else {
        println!(err; " has no challenge, every round but the last has at least 1")?;
    }
    Ok(())
}

// Question 5.
pub fn columns_why(err: Stderr, b: Bounds, place: usize) -> io::Result<()> {
    if (place as u64) < b.word(PREPROCESS_START) {
        return println!(err;
            "instance column {} has {} values, at most {}",
            behind(place, b.word(INSTANCE_START) as usize),
            b.word(place),
            last(b.rows)
        );
    }
    round_why(err, behind(place, b.rounds.start))
}

// Question 6.
pub fn value_why(err: Stderr, b: Bounds, place: usize) -> io::Result<()> {
    if place < b.rounds.start {
        let part = behind(place, b.word(PREPROCESS_START) as usize);
        print!(err;
            "preprocess column {}, row {}",
            part.checked_div(b.rows).unwrap_or(0),
            part & last(b.rows)
        )?;
    } else {
        print!(err; "a Constant or scalar")?;
    }
    println!(err; ": at most p - 1, which is {}", last(MODULUS))
}

// A polynomial number out of range.
fn poly_why(err: Stderr, b: Bounds, n: u64) -> io::Result<()> {
    println!(err; "polynomial {n}, from 0 to {}", last(b.polys))
}

// A user challenge number out of range.
fn user_why(err: Stderr, b: Bounds, n: u64) -> io::Result<()> {
    if b.user == 0 {
        return println!(err; "user challenge {n}, there is none");
    }
    println!(err; "user challenge {n}, from 0 to {}", last(b.user))
}

// A kept rotation out of range.
fn rotation_why(err: Stderr, kept: u64, k: u64) -> io::Result<()> {
    if kept < SIGNED_OFFSET {
        print!(err; "rotation -{}", SIGNED_OFFSET.wrapping_sub(kept))?;
    } else {
        print!(err; "rotation {}", kept.wrapping_sub(SIGNED_OFFSET))?;
    }
    println!(err; ", from -{k} to {k}")
}

// Question 8.
pub fn range_why(err: Stderr, b: Bounds, place: usize) -> io::Result<()> {
    let (n, word) = b.node_word(place);
    let held = b.word(place);
    match word {
        NodeWord::Kind => println!(err; "kind 4, EqXY, stands in the composed expression only"),
        NodeWord::Value => rotation_why(err, held, b.k),
        NodeWord::First | NodeWord::Second if b.node(n).kind == Kind::Polynomial as u64 => {
            poly_why(err, b, held)
        }
        NodeWord::First | NodeWord::Second => user_why(err, b, held),
    }
}

// Question 9.
pub fn width_why(err: Stderr, b: Bounds, place: usize) -> io::Result<()> {
    if place == CONSTRAINT_COUNT {
        return println!(err;
            "there is no constraint, no lookup and no cycle, at least one is asked"
        );
    }
    println!(err;
        "lookup {} has width 0, at least 1 is asked",
        behind(place, b.widths.start)
    )
}

// A degree, which is known up to a number.
fn degree(err: Stderr, n: u64, known: u64) -> io::Result<()> {
    if known < n {
        print!(err; " has a degree above 1024")?;
    } else {
        print!(err; " has degree {n}")?;
    }
    Ok(())
}

// A group of too large a degree: a lookup alone, or several.
fn group_why(err: Stderr, b: Bounds, place: usize) -> io::Result<()> {
    let first = lookup_at(b, place);
    let lookups = b.lookups_in(first);
    if lookups == 1 {
        print!(err; "lookup {first}")?;
    } else {
        print!(err;
            "the group of lookups {first} to {}",
            last(first.wrapping_add(lookups))
        )?;
    }
    degree(err, b.group_degree(first), last(ABOVE))?;
    println!(err; ", at most 1024")
}

// Question 10.
pub fn degree_why(err: Stderr, b: Bounds, place: usize) -> io::Result<()> {
    let stated = b.word(STATED_WORD);
    if b.pairs.start <= place {
        return group_why(err, b, place);
    }
    let j = place.wrapping_sub(b.constraints.start);
    print!(err; "constraint {j}")?;
    degree(err, b.degree_of(b.word(place)).unwrap_or(0), 1024)?;
    if stated == 0 {
        return println!(err; ", at most 1024");
    }
    println!(err; ", at most {} is stated", last(stated))
}

// Where the cell at a place stood before in its cycle.
pub fn stood_before(b: Bounds, place: usize) -> Option<usize> {
    let part = place.wrapping_sub(b.cells.start);
    if place < b.cells.start || part % 2 != 0 {
        return None;
    }
    b.stood((part / 2) as u64)
}

// Question 11, but for a cell that stood in its cycle before.
pub fn cell_why(err: Stderr, b: Bounds, place: usize) -> io::Result<()> {
    let held = b.word(place);
    if place < b.cells.start {
        return println!(err;
            "cycle {} has no cell, at least 1 is asked",
            behind(place, b.lengths.start)
        );
    }
    if place.wrapping_sub(b.cells.start) % 2 != 0 {
        return println!(err; "row {held}, from 1 to {}", last(b.rows));
    }
    if b.polys <= held {
        poly_why(err, b, held)?;
    }
    Ok(())
}
