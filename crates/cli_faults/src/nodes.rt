// Faults of one node's words, for questions 6, 7 and 8: the place of the first offending word; and what is wrong with it.
use crate::bounds::Bounds;
use backend_sections::words::is_element;
use expression::kind::Kind;
use expression::node::{Node, SIGNED_OFFSET};
use std::fmt;

// The words of a node, in their order.
#[derive(Clone, Copy)]
pub enum NodeWord {
    Kind,
    First,
    Second,
    Value,
}

impl NodeWord {
    // The word that stands so many words after the start of the nodes.
    pub fn of(offset: usize) -> NodeWord {
        match offset % 4 {
            0 => NodeWord::Kind,
            1 => NodeWord::First,
            2 => NodeWord::Second,
            _ => NodeWord::Value,
        }
    }

    // Its place in a node that begins at a place.
    pub(crate) fn in_node(self, at: usize) -> usize {
        at.wrapping_add(self as usize)
    }
}

impl fmt::Display for NodeWord {
    fn fmt<W: fmt::Write>(&self, f: &mut fmt::Formatter<W>) -> fmt::Result {
        f.write_str(match self {
            NodeWord::Kind => "kind",
            NodeWord::First => "first",
            NodeWord::Second => "second",
            NodeWord::Value => "value",
        })
    }
}

// What is wrong with a word of a node: it is not used, and not 0; it is above the largest value; it names a node that is not lower, an
// Item, a node that is no Item, the last Item.
#[derive(Clone, Copy)]
pub enum Wrong {
    Unused,
    Large,
    High,
    Item,
    NoItem,
    LastItem,
}

// Is it one of the kinds?
pub fn is_kind(kind: u64) -> bool {
    Kind::try_from(kind).is_ok()
}

// The words that a kind uses: does it name a node, a polynomial or a challenge first, a node second, and hold a value?
fn uses_first(kind: u64) -> bool {
    names_first(kind) || matches!(Kind::try_from(kind), Ok(Kind::Polynomial | Kind::Challenge))
}

pub(crate) fn uses_second(kind: u64, value: u64) -> bool {
    match Kind::try_from(kind) {
        Ok(Kind::Sum | Kind::Product | Kind::DistributePowers) => true,
        Ok(Kind::Item) => value == 1,
        _ => false,
    }
}

fn uses_value(kind: u64) -> bool {
    matches!(
        Kind::try_from(kind),
        Ok(
            Kind::Constant
                | Kind::Lagrange
                | Kind::EqXy
                | Kind::Polynomial
                | Kind::Scaled
                | Kind::Item
        )
    )
}

// The largest value that a kind may hold.
pub fn largest(kind: u64) -> u64 {
    match Kind::try_from(kind) {
        Ok(Kind::Lagrange | Kind::Polynomial) => 4294967295,
        Ok(Kind::Item) => 1,
        _ => u64::MAX,
    }
}

// Does the kind name a node first?
pub(crate) fn names_first(kind: u64) -> bool {
    matches!(
        Kind::try_from(kind),
        Ok(
            Kind::Negated
                | Kind::Sum
                | Kind::Product
                | Kind::Scaled
                | Kind::DistributePowers
                | Kind::Item
        )
    )
}

// Is a kept rotation from -k to k?
fn is_near(kept: u64, k: u64) -> bool {
    kept.abs_diff(SIGNED_OFFSET) <= k
}

impl Bounds<'_> {
    // Node n.
    pub fn node(self, n: u64) -> Node {
        let at = self.nodes.at(n);
        Node {
            kind: self.word(at),
            first: self.word(NodeWord::First.in_node(at)),
            second: self.word(NodeWord::Second.in_node(at)),
            value: self.word(NodeWord::Value.in_node(at)),
        }
    }

    // The number of the node that a place of the nodes stands in, and which of its words it is.
    pub fn node_word(self, place: usize) -> (u64, NodeWord) {
        let offset = place.wrapping_sub(self.nodes.start);
        ((offset / 4) as u64, NodeWord::of(offset))
    }

    // Question 6, of node n, which begins at a place: Constants and scalars below p.
    pub(crate) fn value_fault(self, at: usize, n: u64) -> Option<usize> {
        let node = self.node(n);
        let held = matches!(Kind::try_from(node.kind), Ok(Kind::Constant | Kind::Scaled));
        (held && !is_element(node.value)).then_some(NodeWord::Value.in_node(at))
    }

    // What is wrong with n as the number of a node below `limit` that is an Item, or is none, as asked.
    pub(crate) fn name_wrong(self, limit: u64, n: u64, item: bool) -> Option<Wrong> {
        if limit <= n {
            return Some(Wrong::High);
        }
        match (self.node(n).kind == Kind::Item as u64, item) {
            (true, false) => Some(Wrong::Item),
            (false, true) => Some(Wrong::NoItem),
            _ => None,
        }
    }

    // What is wrong with the first word of node n: "an unused word is 0", "A node names lower nodes only", and an Item is "named
    // only as the second of kind 11 or 12".
    pub fn first_wrong(self, n: u64) -> Option<Wrong> {
        let node = self.node(n);
        if names_first(node.kind) {
            return self.name_wrong(n, node.first, false);
        }
        (!uses_first(node.kind) && node.first != 0).then_some(Wrong::Unused)
    }

    // What is wrong with the Item that kind 11 or 12 names second: after 11 it is not the last, by its value.
    fn item_wrong(self, limit: u64, kind: u64, n: u64) -> Option<Wrong> {
        self.name_wrong(limit, n, true).or_else(|| {
            let last = kind == Kind::DistributePowers as u64 && self.node(n).value != 1;
            last.then_some(Wrong::LastItem)
        })
    }

    // What is wrong with the second word of node n. Of an Item whose value is above 1 it is not known whether it names another.
    pub fn second_wrong(self, n: u64) -> Option<Wrong> {
        let node = self.node(n);
        if !uses_second(node.kind, node.value) {
            let known = node.kind != Kind::Item as u64 || node.value == 0;
            return (known && node.second != 0).then_some(Wrong::Unused);
        }
        match Kind::try_from(node.kind) {
            Ok(Kind::Sum | Kind::Product) => self.name_wrong(n, node.second, false),
            _ => self.item_wrong(n, node.kind, node.second),
        }
    }

    // What is wrong with the value of node n.
    pub fn value_wrong(self, n: u64) -> Option<Wrong> {
        let node = self.node(n);
        if !uses_value(node.kind) && node.value != 0 {
            return Some(Wrong::Unused);
        }
        (largest(node.kind) < node.value).then_some(Wrong::Large)
    }

    // Question 7, of node n by itself, which begins at a place: kind, first, second and value in this order.
    pub(crate) fn layout_fault(self, at: usize, n: u64) -> Option<usize> {
        if !is_kind(self.word(at)) {
            return Some(at);
        }
        let first = self.first_wrong(n).map(|_| NodeWord::First);
        let word = first
            .or_else(|| self.second_wrong(n).map(|_| NodeWord::Second))
            .or_else(|| self.value_wrong(n).map(|_| NodeWord::Value))?;
        Some(word.in_node(at))
    }

    // Question 8, of node n, which begins at a place.
    pub(crate) fn range_fault(self, at: usize, n: u64) -> Option<usize> {
        let node = self.node(n);
        match Kind::try_from(node.kind) {
            Ok(Kind::EqXy) => Some(at),
            Ok(Kind::Polynomial) if self.polys <= node.first => Some(NodeWord::First.in_node(at)),
            Ok(Kind::Polynomial) if !is_near(node.value, self.k) => Some(NodeWord::Value.in_node(
                at,
            )),
            Ok(Kind::Challenge) if self.user <= node.first => Some(NodeWord::First.in_node(at)),
            _ => None,
        }
    }
}
