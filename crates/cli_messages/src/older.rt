// Why words can't be rewritten: they do not have the layout from before groups.
use crate::refusal::stands;
use backend_sections::contents::FIRST_START;
use cli_faults::older::{OLDER_CONTENTS, older_fault};
use cli_texts::host::Texts;
use lists::word_at;
use std::io;
use std::rt::{Env, Files};

// The argument that names the circuit's file.
const CIRCUIT: usize = 2;

// Where the layout is left.
fn leaves<R: Files + Env>(texts: &Texts<R>, circuit: &[u64], place: usize) -> io::Result<()> {
    let err = texts.err;
    print!(err; " (contents of 20 words, then nine sections without gaps that end the words): ")?;
    if place < circuit.len() {
        stands(texts, place)?;
        print!(err; ", its value {}, does not fit", word_at(circuit, place))?;
    } else {
        print!(err; "words follow the last section")?;
    }
    Ok(())
}

// Says so of words for which `is_older` is no.
pub fn not_older<R: Files + Env>(texts: &Texts<R>, circuit: &[u64]) -> io::Result<()> {
    let err = texts.err;
    texts.name(CIRCUIT)?;
    if circuit.len() < OLDER_CONTENTS {
        println!(err;
            ": there are {} words, at least 20 are needed",
            circuit.len()
        )?;
        return texts.line_ends(CIRCUIT);
    }
    if word_at(circuit, FIRST_START) == 22 {
        print!(err; ": these words have the layout with groups already")?;
    } else {
        print!(err; ": these words do not have the layout from before groups")?;
        if let Some(place) = older_fault(circuit) {
            leaves(texts, circuit, place)?;
        }
    }
    println!(err; "; nothing is rewritten")
}
