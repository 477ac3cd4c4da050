// Circuit words as they stand, with the contents read and no question asked: a word past the last is 0.
use backend_sections::contents::{
    CELL_COUNT, CELL_START, CONSTRAINT_COUNT, CONSTRAINT_START, GROUP_START, INSTANCE_COUNT,
    K_WORD, LENGTH_COUNT, LENGTH_START, NODE_COUNT, NODE_START, PAIR_COUNT, PAIR_START,
    PREPROCESS_COUNT, ROUND_COUNT, ROUND_START, WIDTH_COUNT, WIDTH_START,
};
use lists::word_at;

// How many sections there are.
pub const SECTIONS: usize = 10;

// Entries of as many words each: where the first begins, and how many there are.
#[derive(Clone, Copy)]
pub struct Entries {
    pub start: usize,
    pub size: usize,
    pub count: u64,
}

impl Entries {
    // Where entry j begins.
    pub fn at(self, j: u64) -> usize {
        self.start.wrapping_add(self.size.wrapping_mul(j as usize))
    }

    // Each entry's second word and what follows, up to the next entry's.
    pub(crate) fn from_second(self) -> Entries {
        Entries {
            start: self.start.wrapping_add(1),
            ..self
        }
    }
}

// The words, the entries of the sections, and the sums that questions 7 to 11 and 18 go by. A pair's two words are an entry each.
#[derive(Clone, Copy)]
pub struct Bounds<'a> {
    pub words: &'a [u64],
    pub k: u64,
    pub rows: u64,
    pub polys: u64,
    pub witness: u64,
    pub user: u64,
    pub rounds: Entries,
    pub nodes: Entries,
    pub constraints: Entries,
    pub widths: Entries,
    pub pairs: Entries,
    pub lengths: Entries,
    pub cells: Entries,
    pub groups: Entries,
}

impl<'a> Bounds<'a> {
    // The word at a place.
    pub fn word(self, at: usize) -> u64 {
        word_at(self.words, at)
    }

    // The words of the nodes; none where the starts do not say.
    pub(crate) fn node_words(self) -> &'a [u64] {
        self.words
            .get(self.nodes.start..self.constraints.start)
            .unwrap_or(&[])
    }

    // The sum of the entries' first words, 2^64 - 1 where it is more.
    pub fn sum(self, entries: Entries) -> u64 {
        sum_of(self.words, entries.start, entries.size, entries.count)
    }
}

// A count, and no more than there are words.
pub(crate) fn at_most_all(circuit: &[u64], count: u64) -> u64 {
    count.min(circuit.len() as u64)
}

// The sum of every `step`-th word of `count`, from a place on, 2^64 - 1 where it is more.
pub fn sum_of(circuit: &[u64], start: usize, step: usize, count: u64) -> u64 {
    let entries = Entries {
        start,
        size: step,
        count,
    };
    (0..at_most_all(circuit, count))
        .map(|j| word_at(circuit, entries.at(j)))
        .fold(0, u64::saturating_add)
}

// A count times 2^k, 0 for a k of 64 or more.
pub fn by_rows(count: u64, k: u64) -> u64 {
    if k < 64 { count << k } else { 0 }
}

pub fn bounds_of(circuit: &[u64]) -> Bounds<'_> {
    let entries = |start, size, count| Entries {
        start: word_at(circuit, start) as usize,
        size,
        count: word_at(circuit, count),
    };
    let k = word_at(circuit, K_WORD);
    let rounds = entries(ROUND_START, 2, ROUND_COUNT);
    let witness = sum_of(circuit, rounds.start, 2, rounds.count);
    let user = sum_of(circuit, rounds.start.wrapping_add(1), 2, rounds.count);
    let given = word_at(circuit, INSTANCE_COUNT).wrapping_add(word_at(circuit, PREPROCESS_COUNT));
    Bounds {
        words: circuit,
        k,
        rows: by_rows(1, k),
        polys: given.wrapping_add(witness),
        witness,
        user,
        rounds,
        nodes: entries(NODE_START, 4, NODE_COUNT),
        constraints: entries(CONSTRAINT_START, 1, CONSTRAINT_COUNT),
        widths: entries(WIDTH_START, 1, WIDTH_COUNT),
        pairs: Entries {
            count: word_at(circuit, PAIR_COUNT) << 1,
            ..entries(PAIR_START, 1, PAIR_COUNT)
        },
        lengths: entries(LENGTH_START, 1, LENGTH_COUNT),
        cells: entries(CELL_START, 2, CELL_COUNT),
        groups: entries(GROUP_START, 1, WIDTH_COUNT),
    }
}
