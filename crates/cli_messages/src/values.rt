// What questions 12, 13 and 16 found: lengths that are not the exact ones, values that are not below p.
use backend_sections::contents::{INSTANCE_COUNT, INSTANCE_START, K_WORD};
use backend_sections::words::is_element;
use cli_faults::bounds::{bounds_of, by_rows, sum_of};
use cli_texts::files::line_of;
use cli_texts::host::Texts;
use field::MODULUS;
use lists::word_at;
use std::io;
use std::rt::{Env, Files};

// The words that build is lent.
#[derive(Clone, Copy)]
pub struct Log<'a> {
    pub circuit: &'a [u64],
    pub instance: &'a [u64],
    pub witness: &'a [u64],
    pub challenges: &'a [u64],
}

// The words that check is lent.
#[derive(Clone, Copy)]
pub struct Sum<'a> {
    pub circuit: &'a [u64],
    pub witness: &'a [u64],
    pub columns: &'a [u64],
    pub nodes: &'a [u64],
    pub challenges: &'a [u64],
    pub y: &'a [u64],
}

// Words, the argument that names their file, and what they are called.
#[derive(Clone, Copy)]
struct Named<'a> {
    argument: usize,
    name: &'static str,
    words: &'a [u64],
}

impl<'a> Named<'a> {
    fn new(argument: usize, name: &'static str, words: &'a [u64]) -> Named<'a> {
        Named {
            argument,
            name,
            words,
        }
    }

    // Says so and answers true where the length is not the one needed.
    fn has_other_length<R: Files + Env>(self, texts: &Texts<R>, needed: u64) -> io::Result<bool> {
        let given = self.words.len() as u64;
        if given == needed {
            return Ok(false);
        }
        texts.name(self.argument)?;
        println!(texts.err; ": {} words given: {given}, needed: {needed}", self.name)?;
        if given < needed {
            texts.line_ends(self.argument)?;
        }
        Ok(true)
    }

    // Says so and answers true where a word is p or more.
    fn has_large<R: Files + Env>(self, texts: &Texts<R>) -> io::Result<bool> {
        let Some(at) = self.words.iter().position(|word| !is_element(*word)) else {
            return Ok(false);
        };
        texts.name(self.argument)?;
        if let Some(line) = line_of(texts.rt, self.argument, at) {
            print!(texts.err; ", line {line}")?;
        }
        println!(texts.err;
            ": {} word {at} is {}, at most p - 1, which is {}",
            self.name,
            word_at(self.words, at),
            MODULUS - 1
        )?;
        Ok(true)
    }
}

// The argument of check that names the file of columns and nodes.
const CHECK_OUT: usize = 6;

impl<'a> Log<'a> {
    fn instance(&self) -> Named<'a> {
        Named::new(3, "instance", self.instance)
    }

    fn witness(&self) -> Named<'a> {
        Named::new(4, "witness", self.witness)
    }

    fn challenges(&self) -> Named<'a> {
        Named::new(5, "challenge", self.challenges)
    }
}

impl<'a> Sum<'a> {
    fn witness(&self) -> Named<'a> {
        Named::new(3, "witness", self.witness)
    }

    fn challenges(&self) -> Named<'a> {
        Named::new(4, "challenge", self.challenges)
    }

    fn y(&self) -> Named<'a> {
        Named::new(5, "y", self.y)
    }

    fn columns(&self) -> Named<'a> {
        Named::new(CHECK_OUT, "column", self.columns)
    }

    fn nodes(&self) -> Named<'a> {
        Named::new(CHECK_OUT, "node", self.nodes)
    }
}

// The witness words needed.
fn witness_words(circuit: &[u64]) -> u64 {
    let b = bounds_of(circuit);
    by_rows(b.witness, b.k)
}

fn instance_words(circuit: &[u64]) -> u64 {
    sum_of(
        circuit,
        word_at(circuit, INSTANCE_START) as usize,
        1,
        word_at(circuit, INSTANCE_COUNT),
    )
}

// Of a build that was refused by 12, given how many challenges of the user's there are.
fn build_lengths<R: Files + Env>(texts: &Texts<R>, log: &Log, user: u64) -> io::Result<()> {
    let instance = log.instance();
    instance.has_other_length(texts, instance_words(log.circuit))?;
    let witness = log.witness();
    witness.has_other_length(texts, witness_words(log.circuit))?;
    let challenges = log.challenges();
    challenges.has_other_length(texts, user.wrapping_add(2))?;
    Ok(())
}

// Of a build that was refused by 12 or 13.
pub fn build_values<R: Files + Env>(
    texts: &Texts<R>,
    log: &Log,
    user: u64,
    no: u64,
) -> io::Result<()> {
    if no == 12 {
        build_lengths(texts, log, user)?;
    }
    if no == 13 {
        log.instance().has_large(texts)?;
        log.witness().has_large(texts)?;
        log.challenges().has_large(texts)?;
    }
    Ok(())
}

// The lengths that a circuit asks for: column words, nodes, user challenges.
#[derive(Clone, Copy)]
pub struct Needed {
    pub columns: usize,
    pub nodes: u64,
    pub user: usize,
}

// Have all words of a check the lengths needed? Says so where some have not.
fn all_exact<R: Files + Env>(texts: &Texts<R>, sum: &Sum, needed: Needed) -> io::Result<bool> {
    let user = (needed.user as u64).wrapping_add(3);
    let k = word_at(sum.circuit, K_WORD);
    let first = sum
        .witness()
        .has_other_length(texts, witness_words(sum.circuit))?;
    let second = sum
        .columns()
        .has_other_length(texts, needed.columns as u64)?;
    let third = sum.nodes().has_other_length(texts, needed.nodes << 2)?;
    let fourth = sum.challenges().has_other_length(texts, user)?;
    let fifth = sum.y().has_other_length(texts, k)?;
    Ok(!(first | second | third | fourth | fifth))
}

// Are all values below p? Says so where one is not.
fn all_small<R: Files + Env>(texts: &Texts<R>, sum: &Sum) -> io::Result<bool> {
    let first = sum.witness().has_large(texts)?;
    let second = sum.columns().has_large(texts)?;
    let third = sum.challenges().has_large(texts)?;
    let fourth = sum.y().has_large(texts)?;
    Ok(!(first | second | third | fourth))
}

// Of a row sum that was refused by 16.
pub fn sum_values<R: Files + Env>(texts: &Texts<R>, sum: &Sum, needed: Needed) -> io::Result<()> {
    if all_exact(texts, sum, needed)? && all_small(texts, sum)? {
        texts.name(CHECK_OUT)?;
        println!(texts.err; ": the node words are not those that building writes")?;
    }
    Ok(())
}
