// What is said of question 18: a group number that breaks the rule, a table that is not that of its group's first lookup.
use crate::late::{behind, last};
use cli_faults::bounds::Bounds;
use std::io;
use std::io::Stderr;

// The lookup that a place stands in, of the pairs, or 7 where it stands in none of those before.
pub(crate) fn lookup_at(b: Bounds, place: usize) -> u64 {
    (0..7)
        .find(|i| place < b.pairs_of(*i + 1).start)
        .unwrap_or(7)
}

// "first 0, each next the same or one more"
fn number_why(err: Stderr, b: Bounds, i: u64) -> io::Result<()> {
    print!(err; "lookup {i} has group number {}", b.number_of(i))?;
    if i == 0 {
        return println!(err; ", expected 0");
    }
    let before = b.number_of(last(i));
    println!(err;
        ", expected {before} or {}: that of lookup {}, or one more",
        before.wrapping_add(1),
        last(i)
    )
}

// The first lookup of the group.
fn against(err: Stderr, b: Bounds, i: u64) -> io::Result<()> {
    print!(err;
        "lookup {}, the first of group {}",
        b.first_of(i),
        b.number_of(i)
    )
}

fn width_why(err: Stderr, b: Bounds, i: u64) -> io::Result<()> {
    print!(err;
        "the table of lookup {i} has width {}, that of ",
        b.width_of(i)
    )?;
    against(err, b, i)?;
    println!(err; ", has width {}", b.width_of(b.first_of(i)))
}

fn tree_why(err: Stderr, b: Bounds, place: usize) -> io::Result<()> {
    let i = lookup_at(b, place);
    print!(err;
        "table expression {} of lookup {i}, node {}, is not the same tree as that of ",
        behind(place, b.pairs_of(i).start) / 2,
        b.word(place)
    )?;
    against(err, b, i)?;
    println!(err; "")
}

// Question 18.
pub fn group_why(err: Stderr, b: Bounds, place: usize) -> io::Result<()> {
    if b.groups.start <= place {
        return number_why(err, b, behind(place, b.groups.start));
    }
    if place < b.pairs.start {
        return width_why(err, b, behind(place, b.widths.start));
    }
    tree_why(err, b, place)
}
