// How often and by which words a node is named, for question 7.
use crate::bounds::Bounds;
use crate::nodes::{NodeWord, names_first, uses_second};

impl Bounds<'_> {
    // Does the word at a place of the nodes name a node?
    fn node_names(self, place: usize) -> bool {
        let (n, word) = self.node_word(place);
        let node = self.node(n);
        match word {
            NodeWord::First => names_first(node.kind),
            NodeWord::Second => uses_second(node.kind, node.value),
            NodeWord::Kind | NodeWord::Value => false,
        }
    }

    // Does the word at a place name a node: in the nodes, or as a root?
    fn names(self, place: usize) -> bool {
        if place < self.constraints.start {
            return self.node_names(place);
        }
        let constraint = place.wrapping_sub(self.constraints.start) as u64;
        constraint < self.constraints.count || self.pairs.start <= place
    }

    // Does the word at a place name node n?
    fn is_name(self, place: usize, n: u64) -> bool {
        self.word(place) == n && self.names(place)
    }

    // The first place from one on that names node n.
    pub fn next_name(self, from: usize, n: u64) -> Option<usize> {
        (from..self.lengths.start).find(|at| self.is_name(*at, n))
    }

    // How often node n is named.
    pub fn times(self, n: u64) -> u64 {
        (self.nodes.start..self.lengths.start)
            .filter(|at| self.is_name(*at, n))
            .count() as u64
    }

    // "each is named exactly once, by a node or as a root"
    pub(crate) fn once_fault(self, at: usize, n: u64) -> Option<usize> {
        (self.times(n) != 1).then_some(at)
    }
}
