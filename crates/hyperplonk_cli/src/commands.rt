// build and check over files, of circuit words that were read and accepted.
use crate::found::tell;
use cli_messages::question;
use cli_messages::values::{Log, Needed, Sum, build_values, sum_values};
use cli_report::output;
use cli_report::output::Built;
use cli_report::shape::Shape;
use cli_report::verdict::{notes, verdict};
use cli_texts::host::{Host, Texts};
use std::io;
use std::rt::{Env, Files};

// The rooms that build reads the log into, and writes into.
#[derive(Drop)]
pub struct BuildRooms<'a> {
    pub instance: &'a mut [u64],
    pub witness: &'a mut [u64],
    pub columns: &'a mut [u64],
    pub nodes: &'a mut [u64],
}

// Of what the system gives, that with which a file is read and told of.
pub(crate) fn texts<'a, R>(host: &Host<'a, R>) -> Texts<'a, R> {
    Texts {
        rt: host.rt,
        err: host.err,
    }
}

// Writes what was built to the file that argument 6 names.
fn keep<R: Files + Env>(host: &Host<R>, built: &Built) -> io::Result<()> {
    let s = built.shape;
    println!(host.out; "writing")?;
    if !output::write(&texts(host), host.process, 6, built)? {
        return Ok(());
    }
    println!(host.out;
        "built: column words {}, nodes {}, z columns {}",
        s.column_words,
        s.nodes,
        s.cuts().parts
    )
}

// Says what was refused.
fn refused<R: Files + Env>(
    host: &Host<R>,
    log: &Log,
    s: &Shape,
    columns: &mut [u64],
    number: u64,
) -> io::Result<()> {
    question::answered_no(host.err, number)?;
    build_values(&texts(host), log, s.user() as u64, number)?;
    tell(&host.err, log, columns, number)
}

fn build_words<R: Files + Env>(
    host: &Host<R>,
    log: &Log,
    s: &Shape,
    columns: &mut [u64],
    nodes: &mut [u64],
) -> io::Result<()> {
    println!(host.out; "building")?;
    let built = hyperplonk::build(
        log.circuit,
        log.instance,
        log.witness,
        log.challenges,
        columns,
        nodes,
    );
    if built.number != 0 {
        return refused(host, log, s, columns, built.number);
    }
    let built = Built {
        columns,
        nodes,
        shape: s,
    };
    keep(host, &built)
}

// build CIRCUIT INSTANCE WITNESS CHALLENGES OUT
pub fn build<R: Files + Env>(
    host: &Host<R>,
    circuit: &[u64],
    s: &Shape,
    rooms: BuildRooms,
) -> io::Result<()> {
    let BuildRooms {
        instance,
        witness,
        columns,
        nodes,
    } = rooms;
    let Some(instances) = texts(host).read(3, instance)? else {
        return Ok(());
    };
    let Some(witnesses) = texts(host).read(4, witness)? else {
        return Ok(());
    };
    let mut challenges = [0u64; 64];
    let Some(n) = texts(host).read(5, &mut challenges)? else {
        return Ok(());
    };
    let log = Log {
        circuit,
        instance: &instance[..instances],
        witness: &witness[..witnesses],
        challenges: &challenges[..n],
    };
    build_words(host, &log, s, columns, nodes)
}

fn check_words<R: Files + Env>(host: &Host<R>, lent: &Sum, s: &Shape) -> io::Result<()> {
    println!(host.out; "summing")?;
    let sum = hyperplonk::row_sum(
        lent.circuit,
        lent.witness,
        lent.columns,
        lent.nodes,
        lent.challenges,
        lent.y,
    );
    println!(host.out; "number {}\nsum {}", sum.number, sum.sum)?;
    if sum.number == 0 {
        notes(host.out, lent.challenges, lent.y, s.user())?;
        return verdict(host.out, &host.err, sum.sum, s.cuts());
    }
    question::answered_no(host.err, sum.number)?;
    let needed = Needed {
        columns: s.column_words,
        nodes: s.nodes,
        user: s.user(),
    };
    sum_values(&texts(host), lent, needed)
}

// check CIRCUIT WITNESS CHALLENGES Y OUT
pub fn check<R: Files + Env>(
    host: &Host<R>,
    circuit: &[u64],
    s: &Shape,
    witness: &mut [u64],
    built: &mut [u64],
) -> io::Result<()> {
    let Some(witnesses) = texts(host).read(3, witness)? else {
        return Ok(());
    };
    let Some(builts) = texts(host).read(6, built)? else {
        return Ok(());
    };
    let mut challenges = [0u64; 64];
    let Some(n) = texts(host).read(4, &mut challenges)? else {
        return Ok(());
    };
    let mut y = [0u64; 64];
    let Some(k) = texts(host).read(5, &mut y)? else {
        return Ok(());
    };
    let (columns, nodes) = built[..builts].split_at(s.column_words.min(builts));
    let lent = Sum {
        circuit,
        witness: &witness[..witnesses],
        columns,
        nodes,
        challenges: &challenges[..n],
        y: &y[..k],
    };
    check_words(host, &lent, s)
}
