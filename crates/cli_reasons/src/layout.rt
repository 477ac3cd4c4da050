// What is said of question 7: a node's word that is not as its kind asks, a root that is none, a node not named exactly once.
use cli_faults::bounds::Bounds;
use cli_faults::nodes::{NodeWord, Wrong, is_kind, largest};
use expression::kind::Kind;
use std::io;
use std::io::Stderr;

// A root, by its place.
fn root(err: Stderr, b: Bounds, place: usize) -> io::Result<()> {
    if place < b.pairs.start {
        let j = place.wrapping_sub(b.constraints.start);
        return print!(err; "constraint root {j}");
    }
    let part = place.wrapping_sub(b.pairs.start);
    if part % 2 == 0 {
        print!(err; "the input of lookup pair {}", (part / 2) as u64)?;
    } else {
        print!(err; "the table of lookup pair {}", (part / 2) as u64)?;
    }
    Ok(())
}

// A root that is no node, or an Item.
fn root_why(err: Stderr, b: Bounds, place: usize) -> io::Result<()> {
    let n = b.word(place);
    root(err, b, place)?;
    if n < b.nodes.count {
        return println!(err; " is {n}, an Item");
    }
    if b.nodes.count == 0 {
        return println!(err; " is {n}, there is no node");
    }
    println!(err; " is {n}, from 0 to {}", b.nodes.count.wrapping_sub(1))
}

// By what a node is named, at the place of a word.
fn by(err: Stderr, b: Bounds, place: usize) -> io::Result<()> {
    if place < b.constraints.start {
        let (n, _) = b.node_word(place);
        return print!(err; "by node {n}");
    }
    print!(err; "as ")?;
    root(err, b, place)
}

// By what node n is named at first, and then.
fn by_two(err: Stderr, b: Bounds, n: u64, named: u64) -> io::Result<()> {
    let mut from = b.nodes.start;
    for before in [": ", " and "] {
        if let Some(place) = b.next_name(from, n) {
            print!(err; "{before}")?;
            by(err, b, place)?;
            from = place.wrapping_add(1);
        }
    }
    if named > 2 {
        print!(err; ", and more")?;
    }
    Ok(())
}

// How often node n is named.
fn names_why(err: Stderr, b: Bounds, n: u64) -> io::Result<()> {
    let named = b.times(n);
    print!(err; "node {n} is named {named} times")?;
    if named > 1 {
        by_two(err, b, n, named)?;
    } else {
        print!(err; ", exactly once is asked")?;
    }
    println!(err; "")
}

// A word that the kind does not use.
fn unused_why(err: Stderr, kind: u64, word: NodeWord) -> io::Result<()> {
    print!(err; "kind {kind}")?;
    if kind == Kind::Item as u64 {
        print!(err; " of value 0, the last Item,")?;
    }
    println!(err; " does not use its {word}: expected 0")
}

// What is wrong with a word of node n but its kind.
fn word_why(
    err: Stderr,
    n: u64,
    word: NodeWord,
    kind: u64,
    held: u64,
    wrong: Wrong,
) -> io::Result<()> {
    let name = match wrong {
        Wrong::Unused => return unused_why(err, kind, word),
        Wrong::Large => {
            return println!(err; "a value of kind {kind} is at most {}", largest(kind));
        }
        Wrong::High => "a node names lower nodes only",
        Wrong::Item => "an Item, which only the second of kind 11 or 12 names",
        Wrong::NoItem => "which is no Item",
        Wrong::LastItem => "the last Item, and kind 11 has two Items or more",
    };
    println!(err; "node {n} names node {held}, {name}")
}

fn kind_why(err: Stderr, b: Bounds, n: u64, kind: u64) -> io::Result<()> {
    if is_kind(kind) {
        names_why(err, b, n)?;
    } else {
        println!(err;
            "kind {kind}, from {} to {}",
            Kind::Constant as u64,
            Kind::Item as u64
        )?;
    }
    Ok(())
}

// Of a word of the nodes.
fn node_why(err: Stderr, b: Bounds, place: usize) -> io::Result<()> {
    let (n, word) = b.node_word(place);
    let kind = b.node(n).kind;
    let wrong = match word {
        NodeWord::Kind => return kind_why(err, b, n, kind),
        NodeWord::First => b.first_wrong(n),
        NodeWord::Second => b.second_wrong(n),
        NodeWord::Value => b.value_wrong(n),
    };
    match wrong {
        Some(wrong) => word_why(err, n, word, kind, b.word(place), wrong),
        None => Ok(()),
    }
}

// Question 7.
pub fn layout_why(err: Stderr, b: Bounds, place: usize) -> io::Result<()> {
    if place < b.constraints.start {
        node_why(err, b, place)?;
    } else {
        root_why(err, b, place)?;
    }
    Ok(())
}
