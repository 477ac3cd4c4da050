// How the program is called.
use std::io;
use std::io::{Print, Stderr, Stdout};

// The text, to be written on what is open.
fn text(to: &impl Print) -> io::Result<()> {
    print!(to;
        "usage: hyperplonk_cli\n       hyperplonk_cli explain CIRCUIT\n       hyperplonk_cli build CIRCUIT INSTANCE WITNESS CHALLENGES OUT\n       hyperplonk_cli check CIRCUIT WITNESS CHALLENGES Y OUT\n       hyperplonk_cli regroup CIRCUIT\n       hyperplonk_cli --help\n       hyperplonk_cli --version\n"
    )?;
    print!(to;
        "Files have decimal words with white space between, and # comments to the end of the line.\nCHALLENGES has the user's challenges, then beta and gamma, and for check alpha last; Y has k values.\nbuild writes OUT, anew or over a file that build wrote; check reads it and gives the verdict on the log.\nregroup writes a circuit of the layout from before groups (contents of 20 words) on standard output in the layout with groups.\nA circuit of more than 98304 column words or 4190 nodes needs 3 MiB of stack, every other 2 MiB; explain tells.\nWith no argument the program runs an example.\n"
    )
}

pub fn help(out: Stdout) -> io::Result<()> {
    text(&out)
}

pub fn version(out: Stdout) -> io::Result<()> {
    println!(out; "hyperplonk_cli 1.0, document 01, field 2^64 - 2^32 + 1")
}

// The last line of a message on wrong usage. No message on a file ends so, whatever the file's name, and run goes by it.
fn wrong(err: Stderr) -> io::Result<()> {
    text(&err)?;
    println!(err; "wrong usage: nothing was done")
}

pub fn unknown(err: Stderr, name: &[u8]) -> io::Result<()> {
    Print::write_all(&err, name)?;
    println!(err; ": there is no such command")?;
    wrong(err)
}

pub fn miscounted(err: Stderr, name: &[u8], given: usize, wanted: usize) -> io::Result<()> {
    Print::write_all(&err, name)?;
    println!(err; ": arguments given: {given}, wanted: {wanted}")?;
    wrong(err)
}
