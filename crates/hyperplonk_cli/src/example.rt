// A small log of its own, k = 3: readings looked up in an approved table that lists a row twice, and two settings copied from
// the wearer's sheet to the knee.
ghost use Rattle.std.specs.Prelude.{◌<◌};

use crate::found::tell;
use cli_messages::values::Log;
use cli_report::cuts::Cuts;
use cli_report::shape::shape_of;
use cli_report::verdict::verdict;
use lists::word_at;
use std::io;
use std::io::Stdout;

// Polynomials: 0 the approved table, 1 the readings, 2 the sheet's settings, 3 the knee's. The lookup is polynomial 1 in 0, a
// group of its own; the cycles are (2, row 1), (3, row 3) and (2, row 2), (3, row 5).
fn fill_circuit(words: &mut [u64]) {
    let _ = decimal::read(
        b"3 0 22 0 22 1 30 1 32 2 40 0 40 1 41 1 43 2 45 4 53 1 57 58 59 60 60 61 62 63 3 0 5 1 0 2147483648 5 0 0 2147483648 1 0 1 2 2 2 1 3 3 2 2 3 5 0",
        words,
    );
}

fn fill_witness(words: &mut [u64]) {
    let _ = decimal::read(
        b"60 59 60 61 60 58 60 62 0 37 12 0 0 0 0 0 0 0 0 37 0 12 0 0",
        words,
    );
}

// Where m, h and z begin in the columns: after two permutation and two compressed columns.
const M: usize = 32;

const H: usize = 40;

const Z: usize = 48;

// A row: its number, the table, the reading, the settings, m, h and z.
fn show_row(
    out: Stdout,
    circuit: &[u64],
    witness: &[u64],
    columns: &[u64],
    row: usize,
) -> io::Result<()>
    requires { row < 8 }
{
    print!(out;
        "{row:>3}{:>10}{:>9}",
        word_at(circuit, 22 + row),
        word_at(witness, row)
    )?;
    print!(out;
        "{:>7}{:>6}",
        word_at(witness, 8 + row),
        word_at(witness, 16 + row)
    )?;
    print!(out;
        "{:>3}{:>22}",
        word_at(columns, M + row),
        word_at(columns, H + row)
    )?;
    println!(out; "{:>22}", word_at(columns, Z + row))
}

fn show_rows(out: Stdout, log: &Log, columns: &[u64]) -> io::Result<()> {
    println!(out;
        "row  approved  reading  sheet  knee  m                     h                     z"
    )?;
    for row in 0..8 {
        show_row(out, log.circuit, log.witness, columns, row)?;
    }
    Ok(())
}

// The sum of the eight words of a column, in the field.
fn column_sum(columns: &[u64], start: usize) -> u64 {
    columns
        .iter()
        .skip(start)
        .take(8)
        .fold(0, |sum, word| field::add_u64(sum, *word))
}

fn show(out: Stdout, log: &Log, columns: &[u64]) -> io::Result<()> {
    show_rows(out, log, columns)?;
    println!(out;
        "\nThe table lists 60 at rows 3 and 4: all four readings of 60 are counted at row 4, the last."
    )?;
    println!(out; "m adds up to {}", column_sum(columns, M))?;
    println!(out; "h adds up to {}", column_sum(columns, H))?;
    println!(out; "z runs through the rows 1 2 4 3 6 7 5, and back to 1 at row 1.")
}

// Both cuts of the copied columns of the circuit, which is not refused.
fn cuts_of(circuit: &[u64]) -> Cuts {
    shape_of(circuit).map(|s| s.cuts()).unwrap_or_default()
}

fn sum_up(
    out: Stdout,
    log: &Log,
    columns: &[u64],
    nodes: &[u64],
    challenges: &[u64],
) -> io::Result<()> {
    let y = [2, 3, 5];
    let sum = hyperplonk::row_sum(log.circuit, log.witness, columns, nodes, challenges, &y);
    println!(out;
        "row sum of the composed expression: number {}, sum {}",
        sum.number, sum.sum
    )?;
    verdict(out, &out, sum.sum, cuts_of(log.circuit))
}

// Builds a log and shows its columns, if asked; then its sum and the verdict.
fn run_on(out: Stdout, log: &Log, with_alpha: &[u64], shown: bool) -> io::Result<()> {
    let mut columns = [0u64; 56];
    let mut nodes = [0u64; 312];
    let built = hyperplonk::build(
        log.circuit,
        log.instance,
        log.witness,
        log.challenges,
        &mut columns,
        &mut nodes,
    );
    print!(out;
        "build: number {}, column words {}",
        built.number, built.column_words
    )?;
    println!(out; ", nodes {}, z columns {}", built.nodes, built.z_columns)?;
    if built.number != 0 {
        return tell(&out, log, &mut columns, built.number);
    }
    if shown {
        show(out, log, &columns)?;
    }
    sum_up(out, log, &columns, &nodes, with_alpha)
}

// Another value at a place, if there is such a place.
fn change(words: &mut [u64], at: usize, value: u64) {
    if let Some(word) = words.get_mut(at) {
        *word = value;
    }
}

// The log, with a word of its witness changed to a value where one is told; without one its columns are shown.
fn run_changed(out: Stdout, circuit: &[u64], changed: Option<(usize, u64)>) -> io::Result<()> {
    let mut witness = [0u64; 24];
    fill_witness(&mut witness);
    if let Some((at, value)) = changed {
        change(&mut witness, at, value);
    }
    let log = Log {
        circuit,
        instance: &[],
        witness: &witness,
        challenges: &[1000003, 777],
    };
    run_on(out, &log, &[1000003, 777, 31337], changed.is_none())
}

pub fn run(out: Stdout) -> io::Result<()> {
    let mut circuit = [0u64; 54];
    fill_circuit(&mut circuit);
    println!(out; "A log of 8 rows: k is 3.")?;
    run_changed(out, &circuit, None)?;
    println!(out; "\nThe same log with a wrong copy: the knee has 36 at row 3, the sheet 37.")?;
    run_changed(out, &circuit, Some((19, 36)))?;
    println!(out; "\nThe same log with a reading of 5 at row 1, which the table does not list.")?;
    run_changed(out, &circuit, Some((1, 5)))
}
