// Circuit words, read: the sections, and the numbers of the circuit.
ghost use Rattle.std.specs.Prelude.{◌≡◌, ◌<◌, ◌≤◌, ◌^◌, min, get_or, length};
ghost use Rattle.backend.specs.Circuit.{Section, section_at, body_of, word_k, circuit_of, num_witness, num_challenges, num_poly};
ghost use Rattle.backend.specs.Laid.{ContentsValid, BodiesValid, bounds_of};
ghost use Rattle.backend_sections.specs.Unique.{BodiesValid-prop};

use crate::contents::{
    CELLS, CONSTRAINTS, FIRST_COUNT, FIRST_START, GROUPS, INSTANCE_COUNT, INSTANCES, K_WORD,
    LENGTHS, NEXT_START, NODES, PAIRS, PREPROCESS, PREPROCESS_COUNT, ROUNDS, STATED_WORD, WIDTHS,
};
use crate::words::total_to;
use backend::Part;
use bh::rows_of;
use lists::word_at;

// "Word 0 is k."
pub fn k_of(words: &[u64]) -> u64
    ensures { result ≡ word_k words.now }
{
    word_at(words, K_WORD)
}

// "Word 1 is 0 for no maximum degree, else that degree + 1."
pub fn stated_of(words: &[u64]) -> u64
    ensures { result ≡ get_or words.now 1 0 }
{
    word_at(words, STATED_WORD)
}

// Circuit words whose contents are laid out: questions 1 to 4 are yes at the contents.
#[derive(Clone, Copy)]
pub struct Laid<'a> {
    pub words: &'a [u64],
    pub ghost contents: { ContentsValid words.now },
}

impl<'a> Laid<'a> {
    // The section at a place of the contents.
    fn section(self, s: usize) -> Part
        requires { s < 10 }
        ensures value { result ≡ bounds_of self.entry.words.now (section_at s) }
        ensures start_le_end { (result.start ≤ result.end) × (result.end ≤ length self.entry.words.now) }
    {
        let start = self.words[FIRST_START + s * 2] as usize;
        let count = self.words[FIRST_COUNT + s * 2] as usize;
        if s == GROUPS {
            return Part {
                start,
                end: self.words.len(),
                count,
            };
        }
        let end = self.words[NEXT_START + s * 2] as usize;
        Part { start, end, count }
    }

    // The words of the section at a place of the contents.
    fn section_words(self, s: usize) -> &'a [u64]
        requires { s < 10 }
        ensures { result.now ≡ body_of self.entry.words.now (section_at s) }
    {
        let part = self.section(s);
        let start = part.start;
        let end = part.end;
        &self.words[start..end]
    }

    // "instance lengths"
    pub fn instances(self) -> &'a [u64]
        ensures { result.now ≡ body_of self.entry.words.now Section.instances }
    {
        self.section_words(INSTANCES)
    }

    // "preprocess columns (2^k words each)"
    pub fn preprocess(self) -> &'a [u64]
        ensures { result.now ≡ body_of self.entry.words.now Section.preprocess }
    {
        self.section_words(PREPROCESS)
    }

    // "rounds (witness columns, challenges)"
    pub fn rounds(self) -> &'a [u64]
        ensures { result.now ≡ body_of self.entry.words.now Section.rounds }
    {
        self.section_words(ROUNDS)
    }

    // "nodes (4 words)"
    pub fn nodes(self) -> &'a [u64]
        ensures { result.now ≡ body_of self.entry.words.now Section.nodes }
    {
        self.section_words(NODES)
    }

    // "constraint roots"
    pub fn constraints(self) -> &'a [u64]
        ensures { result.now ≡ body_of self.entry.words.now Section.constraints }
    {
        self.section_words(CONSTRAINTS)
    }

    // "lookup widths"
    pub fn widths(self) -> &'a [u64]
        ensures { result.now ≡ body_of self.entry.words.now Section.widths }
    {
        self.section_words(WIDTHS)
    }

    // "lookup pairs (input root, table root)"
    pub fn pairs(self) -> &'a [u64]
        ensures { result.now ≡ body_of self.entry.words.now Section.pairs }
    {
        self.section_words(PAIRS)
    }

    // "cycle lengths"
    pub fn lengths(self) -> &'a [u64]
        ensures { result.now ≡ body_of self.entry.words.now Section.lengths }
    {
        self.section_words(LENGTHS)
    }

    // "cells (polynomial, row)"
    pub fn cells(self) -> &'a [u64]
        ensures { result.now ≡ body_of self.entry.words.now Section.cells }
    {
        self.section_words(CELLS)
    }

    // "one group number per lookup"
    pub fn groups(self) -> &'a [u64]
        ensures { result.now ≡ body_of self.entry.words.now Section.groups }
    {
        self.section_words(GROUPS)
    }

    // Rows: 2^k.
    pub fn rows(self) -> u64
        ensures { result ≡ 2 ^ word_k self.entry.words.now }
    {
        let k = k_of(self.words);
        rows_of(k as usize) as u64
    }

    // Witness columns in all, the limit where they are more.
    pub fn witness_to(self, limit: u64) -> u64
        ensures { result ≡ min (num_witness (circuit_of self.entry.words.now)) limit }
    {
        let rounds = self.rounds();
        total_to(rounds, 2, 0, rounds.len() / 2, limit)
    }

    // User challenges in all, the limit where they are more.
    pub fn user_to(self, limit: u64) -> u64
        ensures { result ≡ min (num_challenges (circuit_of self.entry.words.now)) limit }
    {
        let rounds = self.rounds();
        total_to(rounds, 2, 1, rounds.len() / 2, limit)
    }
}

// Laid-out words whose bodies are right too: questions 3 and 4 are yes at the bodies.
#[derive(Clone, Copy)]
pub struct Circuit<'a> {
    pub words: &'a [u64],
    pub ghost contents: { ContentsValid words.now },
    pub ghost bodies: { BodiesValid words.now } by { BodiesValid-prop words.now },
}

impl<'a> Circuit<'a> {
    // Its sections.
    pub fn laid(self) -> Laid<'a>
        ensures { result.words ≡ self.entry.words }
    {
        Laid { words: self.words }
    }

    // Witness columns in all.
    pub fn num_witness(self) -> u64
        ensures { result ≡ num_witness (circuit_of self.entry.words.now) }
    {
        self.laid().witness_to(33)
    }

    // User challenges in all.
    pub fn num_user(self) -> u64
        ensures { result ≡ num_challenges (circuit_of self.entry.words.now) }
    {
        self.laid().user_to(17)
    }

    // Rust `num_poly`: instance, preprocess and witness columns.
    pub fn num_poly(self) -> u64
        ensures { result ≡ num_poly (circuit_of self.entry.words.now) }
    {
        let witness = self.num_witness();
        self.words[INSTANCE_COUNT] + self.words[PREPROCESS_COUNT] + witness
    }
}
