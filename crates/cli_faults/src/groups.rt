// Groups of lookups, and for question 18 the faults of their numbers and of their tables.
use crate::bounds::{Bounds, Entries};
use expression_same::same_tree;

impl Bounds<'_> {
    // The group number of lookup i.
    pub fn number_of(self, i: u64) -> u64 {
        self.word(self.groups.at(i))
    }

    // The width of lookup i.
    pub fn width_of(self, i: u64) -> u64 {
        self.word(self.widths.at(i))
    }

    // The pairs of lookup i.
    pub fn pairs_of(self, i: u64) -> Entries {
        let before = self.sum(Entries {
            count: i,
            ..self.widths
        });
        Entries {
            start: self.pairs.at(before << 1),
            size: 2,
            count: self.width_of(i),
        }
    }

    // The first lookup of the group that lookup i is of.
    pub fn first_of(self, i: u64) -> u64 {
        let number = self.number_of(i);
        (0..i).find(|j| self.number_of(*j) == number).unwrap_or(i)
    }

    // How many lookups the group has that begins with lookup `first`.
    pub fn lookups_in(self, first: u64) -> u64 {
        let number = self.number_of(first);
        (first..self.widths.count)
            .take_while(|j| self.number_of(*j) == number)
            .count() as u64
    }

    // "one group number per lookup, first 0, each next the same or one more", of lookup i, whose number stands at a place.
    pub(crate) fn number_fault(self, at: usize, i: u64) -> Option<usize> {
        let number = self.word(at);
        let before = self.word(at.wrapping_sub(1));
        let good = if i == 0 {
            number == 0
        } else {
            number == before || number == before.wrapping_add(1)
        };
        (!good).then_some(at)
    }

    // Are the trees of two roots the same? Yes where there is no such node.
    fn same_roots(self, first: u64, second: u64) -> bool {
        let nodes = self.node_words();
        let count = (nodes.len() / 4) as u64;
        if first >= count || second >= count {
            return true;
        }
        same_tree(nodes, first as usize, second as usize)
    }

    // The place of the first table of a lookup that is not the same tree as that of another lookup.
    fn tree_fault(self, tables: Entries, others: Entries) -> Option<usize> {
        (0..tables.count)
            .find(|j| !self.same_roots(self.word(tables.at(*j)), self.word(others.at(*j))))
            .map(|j| tables.at(j))
    }

    // "tables of one group differ in width or as trees", of lookup i, whose width stands at a place.
    pub(crate) fn table_fault(self, at: usize, i: u64) -> Option<usize> {
        let first = self.first_of(i);
        if self.word(at) != self.width_of(first) {
            return Some(at);
        }
        let tables = self.pairs_of(i).from_second();
        let others = self.pairs_of(first).from_second();
        self.tree_fault(tables, others)
    }
}
