// Where the first offending word of refused circuit words stands.
use crate::bounds::{Bounds, Entries, SECTIONS, at_most_all, bounds_of, by_rows};
use backend_sections::contents::{
    CELL_COUNT, CELLS, CONSTRAINT_COUNT, FIRST_COUNT, FIRST_START, GROUP_COUNT, INSTANCE_COUNT,
    INSTANCE_START, K_WORD, LENGTH_COUNT, NODE_COUNT, NODES, PAIR_COUNT, PAIRS, PREPROCESS,
    PREPROCESS_COUNT, PREPROCESS_START, ROUND_COUNT, ROUND_START, ROUNDS, STATED_WORD, WIDTH_COUNT,
};
use backend_sections::words::is_element;

// The contents: the maximum degree + 1 and the counts of the sections before the group numbers; the counts; the starts.
const LIMITED: Entries = Entries {
    start: STATED_WORD,
    size: 2,
    count: 10,
};

const COUNTS: Entries = Entries {
    start: FIRST_COUNT,
    size: 2,
    count: 10,
};

const STARTS: Entries = Entries {
    start: FIRST_START,
    size: 2,
    count: 10,
};

// The limit of a count of the contents; word 1 is the maximum degree + 1, and the pairs and the group numbers have none.
pub fn limit_of(at: usize) -> u64 {
    match at {
        STATED_WORD => 33,
        INSTANCE_COUNT => 8,
        PREPROCESS_COUNT => 32,
        ROUND_COUNT => 4,
        NODE_COUNT => 1024,
        CONSTRAINT_COUNT => 32,
        WIDTH_COUNT => 8,
        LENGTH_COUNT => 1024,
        CELL_COUNT => 4096,
        _ => u64::MAX,
    }
}

// The lower of two places.
fn lower(first: Option<usize>, second: Option<usize>) -> Option<usize> {
    match (first, second) {
        (Some(a), Some(b)) => Some(a.min(b)),
        _ => first.or(second),
    }
}

// The words of a section, by its place in the contents.
pub(crate) fn words_in(k: u64, s: usize, count: u64) -> u64 {
    match s {
        PREPROCESS => by_rows(count, k),
        NODES => count << 2,
        ROUNDS | PAIRS | CELLS => count << 1,
        _ => count,
    }
}

impl Bounds<'_> {
    // The first offending word of entries: `fault` answers that of the entry that begins at a place, by its number.
    fn search<F: Fn(usize, u64) -> Option<usize>>(self, entries: Entries, fault: F) -> Option<usize>
        requires { F.IsAlwaysCallable fault }
    {
        (0..at_most_all(self.words, entries.count)).find_map(|j| fault(entries.at(j), j))
    }

    // The word at which the sum of the entries' first words passes the limit.
    fn passes(self, entries: Entries, limit: u64) -> Option<usize> {
        (0..at_most_all(self.words, entries.count))
            .map(|j| entries.at(j))
            .try_fold(limit, |left, at| left.checked_sub(self.word(at)).ok_or(at))
            .err()
    }

    fn count_fault(self, at: usize) -> Option<usize> {
        let count = self.word(at);
        (limit_of(at) < count || at == ROUND_COUNT && count == 0).then_some(at)
    }

    // 3 at the bodies.
    fn sums_fault(self) -> Option<usize> {
        let witness = self.passes(self.rounds, 32);
        let user = self.passes(self.rounds.from_second(), 16);
        let widths = self.search(self.widths, |at, _| (8 < self.word(at)).then_some(at));
        let lengths = self.passes(self.lengths, 4096);
        lower(witness, user).or(widths).or(lengths)
    }

    // 3 at the contents, then at the bodies.
    fn fault_3(self) -> Option<usize> {
        self.search(LIMITED, |at, _| self.count_fault(at))
            .or_else(|| self.sums_fault())
    }

    // Where section s begins by the counts of those before it; the tenth, which is none, where the contents end.
    pub fn begins(self, s: usize) -> u64 {
        (0..s)
            .map(|i| words_in(self.k, i, self.word(COUNTS.at(i as u64))))
            .fold(22, u64::wrapping_add)
    }

    // The first start that is not where the section before it ends.
    fn start_fault(self) -> Option<usize> {
        (0..SECTIONS)
            .map(|s| (s, STARTS.at(s as u64)))
            .find(|(s, at)| self.word(*at) != self.begins(*s))
            .map(|(_, at)| at)
    }

    // The lookup pairs, of which there can be no more than words: their count has no limit of its own.
    fn pairs_fault(self) -> Option<usize> {
        ((self.words.len() as u64) < self.word(PAIR_COUNT)).then_some(PAIR_COUNT)
    }

    // The group numbers, which are as many as the lookups.
    fn groups_fault(self) -> Option<usize> {
        (self.word(GROUP_COUNT) != self.word(WIDTH_COUNT)).then_some(GROUP_COUNT)
    }

    // 4 at the bodies: a count that is not the sum of the widths or of the lengths. None where the contents do not end where the
    // words do.
    fn totals_fault(self) -> Option<usize> {
        if self.begins(SECTIONS) != self.words.len() as u64 {
            return None;
        }
        if self.sum(self.widths) != self.word(PAIR_COUNT) {
            return Some(PAIR_COUNT);
        }
        Some(CELL_COUNT)
    }

    // 4 at the contents, then at the bodies.
    fn fault_4(self) -> Option<usize> {
        lower(
            self.start_fault(),
            self.pairs_fault().or(self.groups_fault()),
        )
        .or_else(|| self.totals_fault())
    }

    // "every round a witness column, every round but the last a challenge"
    fn round_fault(self, at: usize, j: u64) -> Option<usize> {
        let user = at.wrapping_add(1);
        if self.word(at) == 0 {
            return Some(at);
        }
        let last = j.wrapping_add(1) == self.rounds.count;
        (!last && self.word(user) == 0).then_some(user)
    }

    fn fault_5(self) -> Option<usize> {
        let instances = Entries {
            start: self.word(INSTANCE_START) as usize,
            size: 1,
            count: self.word(INSTANCE_COUNT),
        };
        self.search(
            instances,
            |at, _| (self.rows <= self.word(at)).then_some(at),
        )
        .or_else(|| self.search(self.rounds, |at, j| self.round_fault(at, j)))
    }

    fn fault_6(self) -> Option<usize> {
        let start = self.word(PREPROCESS_START);
        let preprocess = Entries {
            start: start as usize,
            size: 1,
            count: self.word(ROUND_START).wrapping_sub(start),
        };
        self.search(
            preprocess,
            |at, _| (!is_element(self.word(at))).then_some(at),
        )
        .or_else(|| self.search(self.nodes, |at, n| self.value_fault(at, n)))
    }

    // The place of a root that is not the number of a node that is no Item.
    fn root_fault(self, at: usize) -> Option<usize> {
        self.name_wrong(self.nodes.count, self.word(at), false)
            .map(|_| at)
    }

    fn fault_7(self) -> Option<usize> {
        self.search(self.nodes, |at, n| self.layout_fault(at, n))
            .or_else(|| self.search(self.constraints, |at, _| self.root_fault(at)))
            .or_else(|| self.search(self.pairs, |at, _| self.root_fault(at)))
            .or_else(|| self.search(self.nodes, |at, n| self.once_fault(at, n)))
    }

    // A width of 0, else the count of constraints, which is 0 as the two after it.
    fn fault_9(self) -> Option<usize> {
        self.search(self.widths, |at, _| (self.word(at) == 0).then_some(at))
            .or(Some(CONSTRAINT_COUNT))
    }

    // A group number, else a width or a table of a lookup.
    fn fault_18(self) -> Option<usize> {
        self.search(self.groups, |at, i| self.number_fault(at, i))
            .or_else(|| self.search(self.widths, |at, i| self.table_fault(at, i)))
    }

    // A constraint's root, else the first pair of a group.
    fn fault_10(self) -> Option<usize> {
        self.search(self.constraints, |at, _| self.degree_fault(at))
            .or_else(|| self.search(self.widths, |_, i| self.group_fault(i)))
    }

    // The length of a cycle without a cell, else a cell.
    fn fault_11(self) -> Option<usize> {
        self.search(self.lengths, |at, _| (self.word(at) == 0).then_some(at))
            .or_else(|| self.search(self.cells, |at, j| self.cell_fault(at, j)))
    }
}

// The place of the first offending word for the question answered no.
// Kept: the questions are numbers, since the calls answer their numbers to C.
pub fn place_of(circuit: &[u64], question: u64) -> Option<usize> {
    let b = bounds_of(circuit);
    match question {
        2 => Some(K_WORD),
        3 => b.fault_3(),
        4 => b.fault_4(),
        5 => b.fault_5(),
        6 => b.fault_6(),
        7 => b.fault_7(),
        8 => b.search(b.nodes, |at, n| b.range_fault(at, n)),
        9 => b.fault_9(),
        10 => b.fault_10(),
        11 => b.fault_11(),
        18 => b.fault_18(),
        _ => None,
    }
}
