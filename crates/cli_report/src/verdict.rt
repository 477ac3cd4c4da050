// What a sum says of a log, and what it does not say for weak challenges.
use crate::cuts::Cuts;
use lists::word_at;
use std::io;
use std::io::Stdout;

// Why a sum may be other than 0.
fn other(to: &impl Print, c: Cuts) -> io::Result<()> {
    println!(to;
        "verdict: the sum is not 0: this log does not meet its circuit, or the columns, witness or challenges are not those of one build"
    )?;
    if c.differ() {
        c.tell(to)?;
    }
    Ok(())
}

// The verdict: on standard output where the sum is 0, else where it is asked for.
pub fn verdict(out: Stdout, to: &impl Print, sum: u64, c: Cuts) -> io::Result<()> {
    if sum == 0 {
        return println!(out; "verdict: the sum is 0, as for a log that meets its circuit");
    }
    other(to, c)
}

// Are all values 0 or 1?
fn is_row(y: &[u64]) -> bool {
    y.iter().all(|value| *value <= 1)
}

// Challenges that hide faults. They are the user's, beta, gamma and alpha.
pub fn notes(out: Stdout, challenges: &[u64], y: &[u64], user: usize) -> io::Result<()> {
    if word_at(challenges, user) == 0 {
        println!(out;
            "note: beta is 0: no copy is looked at, and of each lookup only the first expression"
        )?;
    }
    if word_at(challenges, user.wrapping_add(2)) == 0 {
        println!(out;
            "note: alpha is 0: only the first part of the composed expression is looked at"
        )?;
    }
    if is_row(y) {
        println!(out;
            "note: y is a row of the cube: the constraints are looked at on that row only"
        )?;
    }
    Ok(())
}
