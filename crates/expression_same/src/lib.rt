// Are two expressions one tree, by shape and words? Node n is kept as the place n + 1; place 0 is no node, and reads as Constant 0.
// Kept: the walk ends by the sum of the two places, of which no node is the least, so an Option would be made this number again.
#![tactic(auto)]

ghost use Rattle.std.specs.Prelude.{◌≡◌, cond, suc, ◌+◌, ◌*◌, ◌-◌, ◌≤◌, ◌<◌, ltb, length};
ghost use Rattle.expression.specs.Nodes.{expr_of, items_of, under, no_expr, no_exprs};
ghost use Rattle.expression.specs.Read.{node_at};
ghost use Rattle.expression.specs.Same.{same_expr, same_exprs};
ghost use Rattle.expression_same.specs.Places.{placed, no_node, alone};

use expression::kind::{Kind, NoKind};
use expression::node::Node;
use expression_nodes::read_node;

// Are the trees of nodes a and b the same?
pub fn same_tree(ws: &[u64], a: usize, b: usize) -> bool
    requires { (a * 4 + 4 ≤ length ws.now) × (b * 4 + 4 ≤ length ws.now) }
    ensures { result ≡ same_expr (expr_of ws.now a) (expr_of ws.now b) }
{
    same_at(ws, a + 1, b + 1)
}

// The trees at places p and q: their tops, and then what is below these.
#[cycle(lower_items_same_at_same_items_same_lower)]
fn same_at(ws: &[u64], p: usize, q: usize) -> bool
    requires { (p * 4 ≤ length ws.now) × (q * 4 ≤ length ws.now) }
    ensures { result ≡ same_expr (placed no_expr (expr_of ws.now) p) (placed no_expr (expr_of ws.now) q) }
{
    let d = words_at(ws, p);
    let e = words_at(ws, q);
    if !same_top(d, e) {
        return false;
    }
    match Kind::try_from(d.kind) {
        Ok(Kind::Negated) => same_lower(ws, p, q, d.first, e.first),
        Ok(Kind::Sum) => {
            let x = same_lower(ws, p, q, d.first, e.first);
            let y = same_lower(ws, p, q, d.second, e.second);
            x & y
        }
        Ok(Kind::Product) => {
            let x = same_lower(ws, p, q, d.first, e.first);
            let y = same_lower(ws, p, q, d.second, e.second);
            x & y
        }
        Ok(Kind::Scaled) => same_lower(ws, p, q, d.first, e.first),
        Ok(Kind::DistributePowers) => {
            let x = same_lower(ws, p, q, d.first, e.first);
            let y = lower_items(ws, p, q, d.second, e.second);
            x & y
        }
        _ => true,
    }
}

// The trees that the nodes at places p and q name by a and b.
#[cycle(lower_items_same_at_same_items_same_lower)]
fn same_lower(ws: &[u64], p: usize, q: usize, a: u64, b: u64) -> bool
    requires { (p * 4 ≤ length ws.now) × (q * 4 ≤ length ws.now) }
    ensures { result ≡ same_expr (under (p - 1) no_expr (expr_of ws.now) a) (under (q - 1) no_expr (expr_of ws.now) b) }
{
    let x = place(p, a);
    let y = place(q, b);
    same_at(ws, x, y)
}

// The chains that begin at the Items at places p and q.
#[cycle(lower_items_same_at_same_items_same_lower)]
fn same_items(ws: &[u64], p: usize, q: usize) -> bool
    requires { (p * 4 ≤ length ws.now) × (q * 4 ≤ length ws.now) }
    ensures { result ≡ same_exprs (placed no_exprs (items_of ws.now) p) (placed no_exprs (items_of ws.now) q) }
{
    let d = words_at(ws, p);
    let e = words_at(ws, q);
    let first = same_lower(ws, p, q, d.first, e.first);
    if d.value == 0 {
        if e.value == 0 {
            return first;
        }
        return false;
    }
    if e.value == 0 {
        return false;
    }
    let rest = lower_items(ws, p, q, d.second, e.second);
    first & rest
}

#[cycle(lower_items_same_at_same_items_same_lower)]
fn lower_items(ws: &[u64], p: usize, q: usize, a: u64, b: u64) -> bool
    requires { (p * 4 ≤ length ws.now) × (q * 4 ≤ length ws.now) }
    ensures { result ≡ same_exprs (under (p - 1) no_exprs (items_of ws.now) a) (under (q - 1) no_exprs (items_of ws.now) b) }
{
    let x = place(p, a);
    let y = place(q, b);
    same_items(ws, x, y)
}

// The words of the node at place p.
fn words_at(ws: &[u64], p: usize) -> Node
    requires { p * 4 ≤ length ws.now }
    ensures { result ≡ placed no_node (node_at ws.now) p }
{
    if p == 0 {
        return Node {
            kind: 0,
            first: 0,
            second: 0,
            value: 0,
        };
    }
    read_node(ws, p - 1)
}

// The place of what the node at place p names by a: no node where a is not lower.
fn place(p: usize, a: u64) -> usize
    ensures { (result ≡ cond (ltb a (p - 1)) (suc a) 0) × (result ≤ p - 1) }
{
    if p == 0 {
        return 0;
    }
    let b = a as usize;
    if b < p - 1 {
        return b + 1;
    }
    0
}

// Are two nodes the same, by kind and by the words that it keeps, with what is below them left out?
fn same_top(d: Node, e: Node) -> bool
    ensures { result ≡ same_expr (alone d) (alone e) }
{
    let x = as_expression(d);
    let y = as_expression(e);
    if x.kind != y.kind {
        return false;
    }
    match Kind::try_from(x.kind) {
        Ok(Kind::Identity) => true,
        Ok(Kind::Polynomial) => (x.first == y.first) & (x.value == y.value),
        Ok(Kind::Challenge) => x.first == y.first,
        Ok(Kind::Negated) => true,
        Ok(Kind::Sum) => true,
        Ok(Kind::Product) => true,
        Ok(Kind::DistributePowers) => true,
        Ok(Kind::Constant) => x.value == y.value,
        Ok(Kind::Lagrange) => x.value == y.value,
        Ok(Kind::EqXy) => x.value == y.value,
        Ok(Kind::Scaled) => x.value == y.value,
        // `as_expression` leaves neither.
        Ok(Kind::Item) => false,
        Err(NoKind) => false,
    }
}

// A node that is no expression's is Constant 0.
fn as_expression(d: Node) -> Node
    ensures { (1 ≤ result.kind) × ((result.kind ≤ 11) × (alone result ≡ alone d)) }
{
    let zero = Node {
        kind: Kind::Constant as u64,
        first: 0,
        second: 0,
        value: 0,
    };
    match Kind::try_from(d.kind) {
        Ok(Kind::Item) => zero,
        Err(NoKind) => zero,
        _ => d,
    }
}
