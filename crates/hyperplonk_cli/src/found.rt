// What a build's number does not say: for 15 the readings that stand in no row of their table, for 17 the denominators that are 0.
use backend_sections::contents::{INSTANCE_COUNT, PREPROCESS_COUNT};
use cli_messages::values::Log;
use cli_search::denominators::ZeroDenominator;
use cli_search::found::Found;
use cli_search::unlisted::Unlisted;
use cli_search::{Column, denominators, unlisted};
use lists::word_at;
use std::io;

// The first values of a reading, with commas between.
fn values(to: &impl Print, of: &[u64]) -> io::Result<()> {
    for (i, value) in of.iter().enumerate() {
        if i > 0 {
            print!(to; ", ")?;
        }
        print!(to; "{value}")?;
    }
    Ok(())
}

// A row and its place.
fn stands(to: &impl Print, row: usize, place: usize) -> io::Result<()> {
    print!(to; ", row {row}, place {place} of the row order: ")
}

// Names the first reading.
fn readings(to: &impl Print, found: &Found<Unlisted>) -> io::Result<()> {
    let u = &found.first;
    print!(to; "lookup {}", u.lookup)?;
    stands(to, u.row, u.place)?;
    print!(to; "the reading (")?;
    values(to, &u.values[..u.width])?;
    println!(to; ") stands in no row of the table")?;
    if found.count > 1 {
        println!(to;
            "readings that stand in no row of their table, in all: {}",
            found.count
        )?;
    }
    Ok(())
}

// A polynomial by its kind, the number among that kind, and its own number.
fn polynomial(to: &impl Print, circuit: &[u64], q: u64) -> io::Result<()> {
    let instances = word_at(circuit, INSTANCE_COUNT);
    let given = instances.wrapping_add(word_at(circuit, PREPROCESS_COUNT));
    if q < instances {
        print!(to; "instance column {q}")?;
    } else if q < given {
        print!(to; "preprocess column {}", q - instances)?;
    } else {
        print!(to; "witness column {}", q - given)?;
    }
    print!(to; " (polynomial {q})")
}

// The lookup or the copied column of a denominator.
fn column(to: &impl Print, circuit: &[u64], of: Column, q: u64) -> io::Result<()> {
    match of {
        Column::Input(lookup) | Column::Table(lookup) => print!(to; "lookup {lookup}"),
        Column::Copied(_) => polynomial(to, circuit, q),
    }
}

// What the denominator is.
fn denominator(of: Column) -> &'static str {
    match of {
        Column::Input(_) => "gamma + input",
        Column::Table(_) => "gamma + table",
        Column::Copied(_) => "value + beta * permutation label + gamma",
    }
}

// Names the first denominator.
fn zeros(to: &impl Print, circuit: &[u64], found: &Found<ZeroDenominator>) -> io::Result<()> {
    let z = found.first;
    column(to, circuit, z.of, z.poly)?;
    stands(to, z.row, z.place)?;
    println!(to; "{} is 0", denominator(z.of))?;
    if found.count > 1 {
        println!(to; "denominators that are 0, in all: {}", found.count)?;
    }
    Ok(())
}

// The readings that stand in no row of their table.
fn tell_readings(to: &impl Print, log: &Log, columns: &mut [u64]) -> io::Result<()> {
    match unlisted::find(
        log.circuit,
        log.instance,
        log.witness,
        log.challenges,
        columns,
    ) {
        Some(found) => readings(to, &found),
        None => Ok(()),
    }
}

// The denominators that are 0.
fn tell_zeros(to: &impl Print, log: &Log, columns: &mut [u64]) -> io::Result<()> {
    if let Some(found) = denominators::find(
        log.circuit,
        log.instance,
        log.witness,
        log.challenges,
        columns,
    ) {
        zeros(to, log.circuit, &found)?;
    }
    println!(to;
        "this is no fault of the log: draw other challenges beta and gamma, and build anew"
    )
}

// Of words that build refused by a number. The column buffer is written to.
// Kept: the numbers are document 01's names of the questions, and each chooses only what is said.
pub fn tell(to: &impl Print, log: &Log, columns: &mut [u64], number: u64) -> io::Result<()> {
    match number {
        15 => tell_readings(to, log, columns),
        17 => tell_zeros(to, log, columns),
        _ => Ok(()),
    }
}
