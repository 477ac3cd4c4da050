// Questions 7 and 8: are the nodes as laid out, and the numbers that they name in range?
ghost use Rattle.std.specs.Prelude.{◌≡◌, ◌&&◌, [], ◌∷◌, ◌++◌, map, ◌<◌, ◌≤◌, ◌/◌, ◌+◌, ◌*◌, eqb, leb, nat_abs, length};
ghost use Rattle.expression.specs.Nodes.{kind_of, word_of, decode_signed};
ghost use Rattle.lists.specs.Lists.{all_of, tabulate, concat};
ghost use Rattle.backend.specs.Layout as def;
ghost use Rattle.backend_nodes.specs.Tally.{Room, Tally};

use expression::kind::{Kind, NoKind};
use expression::node::SIGNED_OFFSET;

// "an unused word is 0": has a node of this kind the words that it may have?
fn shaped(kind: u64, first: u64, second: u64, value: u64) -> bool
    ensures { result ≡ def.shaped (kind_of kind) first second value }
{
    match Kind::try_from(kind) {
        Ok(Kind::Constant) => (first == 0) & (second == 0),
        Ok(Kind::Identity) => (first == 0) & (second == 0) & (value == 0),
        Ok(Kind::Lagrange) => (first == 0) & (second == 0) & (value < 4294967296),
        Ok(Kind::EqXy) => (first == 0) & (second == 0),
        Ok(Kind::Polynomial) => (second == 0) & (value < 4294967296),
        Ok(Kind::Challenge) => (second == 0) & (value == 0),
        Ok(Kind::Negated) => (second == 0) & (value == 0),
        Ok(Kind::Sum) => value == 0,
        Ok(Kind::Product) => value == 0,
        Ok(Kind::Scaled) => second == 0,
        Ok(Kind::DistributePowers) => value == 0,
        Ok(Kind::Item) => (value == 1) | (value == 0) & (second == 0),
        Err(NoKind) => false,
    }
}

// A root, or a node that another names as no Item: lower than `limit`, and no Item.
fn plain(nodes: &[u64], limit: usize, node: u64) -> bool
    requires { limit ≤ def.node_count nodes.now }
    ensures { result ≡ def.right nodes.now limit (def.plain node) }
{
    node < limit as u64 && nodes[node as usize * 4] != Kind::Item as u64
}

// A node that another names as an Item: lower than `limit`, and an Item.
fn item(nodes: &[u64], limit: usize, node: u64) -> bool
    requires { limit ≤ def.node_count nodes.now }
    ensures { result ≡ def.right nodes.now limit (def.as_item node) }
{
    node < limit as u64 && nodes[node as usize * 4] == Kind::Item as u64
}

// The first Item of a list: an Item, and not the last.
fn first_item(nodes: &[u64], limit: usize, node: u64) -> bool
    requires { limit ≤ def.node_count nodes.now }
    ensures { result ≡ (def.right nodes.now limit (def.as_item node) && eqb (word_of nodes.now node 3) 1) }
{
    item(nodes, limit, node) && nodes[node as usize * 4 + 3] == 1
}

// Is node `n` in its place: of the right shape, naming lower nodes only, Items as Items?
fn in_place(nodes: &[u64], n: usize) -> bool
    requires { n < def.node_count nodes.now }
    ensures { result ≡ def.in_place nodes.now n }
{
    let at = n * 4;
    let kind = nodes[at];
    let first = nodes[at + 1];
    let second = nodes[at + 2];
    let value = nodes[at + 3];
    if !shaped(kind, first, second, value) {
        return false;
    }
    // A leaf names no node. It is told by its number, before the jump by kind.
    if kind < Kind::Negated as u64 {
        return true;
    }
    match Kind::try_from(kind) {
        Ok(Kind::Negated) => plain(nodes, n, first),
        Ok(Kind::Sum) => plain(nodes, n, first) & plain(nodes, n, second),
        Ok(Kind::Product) => plain(nodes, n, first) & plain(nodes, n, second),
        Ok(Kind::Scaled) => plain(nodes, n, first),
        Ok(Kind::DistributePowers) => plain(nodes, n, first) & first_item(nodes, n, second),
        Ok(Kind::Item) => plain(nodes, n, first) & ((value == 0) | item(nodes, n, second)),
        Ok(Kind::Constant) => true,
        Ok(Kind::Identity) => true,
        Ok(Kind::Lagrange) => true,
        Ok(Kind::EqXy) => true,
        Ok(Kind::Polynomial) => true,
        Ok(Kind::Challenge) => true,
        Err(NoKind) => true,
    }
}

// Is every node in its place?
fn all_in_place(nodes: &[u64]) -> bool
    ensures { result ≡ def.nodes_hold nodes.now (def.in_place nodes.now) }
{
    let count = nodes.len() / 4;
    for n in 0..count {
        if !in_place(nodes, n) {
            return false;
        }
    }
    true
}

// Is each root the number of a node that is no Item?
fn roots_right(nodes: &[u64], roots: &[u64]) -> bool
    ensures { result ≡ all_of (def.is_root nodes.now) roots.now }
{
    let count = nodes.len() / 4;
    roots.iter().all(|root| plain(nodes, count, *root))
}

// Counts one name of node `n`. A number past the 1024 places is passed over.
fn count_name(counts: &mut [u64; 1024], n: u64)
    requires { Room counts.old 1 }
    ensures { Tally counts.old (def.plain n ∷ []) counts.new }
{
    if n < 1024 {
        let at = n as usize;
        counts[at] = counts[at] + 1;
    }
}

// Counts the nodes that a node with these words names.
fn count_named(counts: &mut [u64; 1024], kind: u64, first: u64, second: u64, value: u64)
    requires { Room counts.old 2 }
    ensures { Tally counts.old (def.named (kind_of kind) first second value) counts.new }
{
    // A leaf, as in `in_place`.
    if kind < Kind::Negated as u64 {
        return;
    }
    match Kind::try_from(kind) {
        Ok(Kind::Negated) => {
            count_name(counts, first);
        }
        Ok(Kind::Sum) => {
            count_name(counts, first);
            count_name(counts, second);
        }
        Ok(Kind::Product) => {
            count_name(counts, first);
            count_name(counts, second);
        }
        Ok(Kind::Scaled) => {
            count_name(counts, first);
        }
        Ok(Kind::DistributePowers) => {
            count_name(counts, first);
            count_name(counts, second);
        }
        Ok(Kind::Item) => {
            count_name(counts, first);
            if value != 0 {
                count_name(counts, second);
            }
        }
        Ok(Kind::Constant) => {}
        Ok(Kind::Identity) => {}
        Ok(Kind::Lagrange) => {}
        Ok(Kind::EqXy) => {}
        Ok(Kind::Polynomial) => {}
        Ok(Kind::Challenge) => {}
        Err(NoKind) => {}
    }
}

// Counts the nodes that nodes name.
fn count_nodes(counts: &mut [u64; 1024], nodes: &[u64])
    requires { Room counts.old (def.node_count nodes.now * 2) }
    ensures { Tally counts.old (concat (tabulate (def.by_words def.named nodes.now) (def.node_count nodes.now))) counts.new }
{
    let count = nodes.len() / 4;
    for m in 0..count {
        let at = m * 4;
        count_named(
            counts,
            nodes[at],
            nodes[at + 1],
            nodes[at + 2],
            nodes[at + 3],
        );
    }
}

// Counts the nodes that are roots.
fn count_roots(counts: &mut [u64; 1024], roots: &[u64])
    requires { Room counts.old (length roots.now) }
    ensures { Tally counts.old (map def.plain roots.now) counts.new }
{
    for root in roots {
        count_name(counts, *root);
    }
}

// Is each node named exactly once, by a node or as a root? Each name is looked at once, and counted in its node's place.
fn named_once(nodes: &[u64], constraints: &[u64], pairs: &[u64]) -> bool
    requires { def.node_count nodes.now ≤ 1024 }
    ensures { result ≡ def.nodes_hold nodes.now (def.once nodes.now (constraints.now ++ pairs.now)) }
{
    let mut counts = [0; 1024];
    count_nodes(&mut counts, nodes);
    count_roots(&mut counts, constraints);
    count_roots(&mut counts, pairs);
    let count = nodes.len() / 4;
    for n in 0..count {
        if counts[n] != 1 {
            return false;
        }
    }
    true
}

// Question 7: are the nodes as laid out? The roots are those of the constraints and of the lookup pairs.
pub fn laid_out(nodes: &[u64], constraints: &[u64], pairs: &[u64]) -> bool
    requires { def.node_count nodes.now ≤ 1024 }
    ensures { result ≡ def.laid_out nodes.now (constraints.now ++ pairs.now) }
{
    if !all_in_place(nodes) {
        return false;
    }
    if !roots_right(nodes, constraints) {
        return false;
    }
    if !roots_right(nodes, pairs) {
        return false;
    }
    named_once(nodes, constraints, pairs)
}

// Is a kept rotation from −k to k?
fn rotation_in_range(kept: u64, k: u64) -> bool
    ensures { result ≡ leb (nat_abs (decode_signed kept)) k }
{
    kept.abs_diff(SIGNED_OFFSET) <= k
}

// Are the numbers of node `n` in range?
fn in_range(nodes: &[u64], n: usize, polys: u64, user: u64, k: u64) -> bool
    requires { n < def.node_count nodes.now }
    ensures { result ≡ def.by_words (def.in_range polys user k) nodes.now n }
{
    let at = n * 4;
    // These have no number of a polynomial or a challenge.
    if nodes[at] > Kind::Challenge as u64 {
        return true;
    }
    match Kind::try_from(nodes[at]) {
        Ok(Kind::EqXy) => false,
        Ok(Kind::Polynomial) => (nodes[at + 1] < polys) & rotation_in_range(nodes[at + 3], k),
        Ok(Kind::Challenge) => nodes[at + 1] < user,
        _ => true,
    }
}

// Question 8: is every polynomial and user challenge number in range, every rotation from −k to k, and kind 4 absent?
pub fn nodes_in_range(nodes: &[u64], polys: u64, user: u64, k: u64) -> bool
    ensures { result ≡ def.nodes_in_range polys user k nodes.now }
{
    let count = nodes.len() / 4;
    for n in 0..count {
        if !in_range(nodes, n, polys, user, k) {
            return false;
        }
    }
    true
}
