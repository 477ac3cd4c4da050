// The degree of an expression (Rust `degree`), and how many nodes its tree takes, from its node words. Each is capped in every
// step, so that no sum wraps.
#![tactic(auto)]

ghost use Rattle.std.specs.Prelude.{◌≡◌, ℕ, ◌+◌, ◌*◌, ◌≤◌, min, max, length};
ghost use Rattle.expression.specs.Expr.{degree};
ghost use Rattle.expression.specs.Nodes.{expr_of, items_of, under, no_expr, no_exprs};
ghost use Rattle.expression.specs.Flat.{largest_size};
ghost use Rattle.expression.specs.Walks.{cap_ops, weight, weights};

use expression::kind::Kind;
use expression_nodes::read_node;
use expression_walk::{Operations, node};

// No more nodes than these are counted: 2^60.
const LARGEST_SIZE: u64 = 1152921504606846976;

// No larger degree is told apart.
const LARGEST_DEGREE: u64 = 1025;

// The degree of a node, 1025 where it is more.
#[derive(Clone, Copy)]
struct Degree;

#[tactic(auto, unfolding(expression::specs::Walks::cap_sum, expression::specs::Walks::cap_ops))]
impl Operations for Degree {
    type Value = u64;

    ghost Carrier = { ℕ };

    ghost meaning = { λ d. d };

    ghost ops = { λ _. cap_ops };

    fn constant(&self, _value: u64) -> u64 {
        0
    }

    fn identity(&self) -> u64 {
        1
    }

    fn lagrange(&self, _number: u64) -> u64 {
        1
    }

    fn eq_xy(&self, _number: u64) -> u64 {
        1
    }

    fn poly(&self, _polynomial: u64, _rotation: u64) -> u64 {
        1
    }

    fn challenge(&self, _number: u64) -> u64 {
        0
    }

    fn negated(&self, x: u64) -> u64 {
        x
    }

    fn sum(&self, x: u64, y: u64) -> u64 {
        x.max(y)
    }

    fn product(&self, x: u64, y: u64) -> u64 {
        x.saturating_add(y).min(LARGEST_DEGREE)
    }

    fn scaled(&self, x: u64, _scalar: u64) -> u64 {
        x
    }
}

// The degree of node n, 1025 where it is more.
pub fn degree_of(ws: &[u64], n: usize) -> u64
    requires { n * 4 + 4 ≤ length ws.now }
    ensures { result ≡ min 1025 (degree (expr_of ws.now n)) }
{
    node(&Degree, ws, n)
}

// The sum of two sizes, 2^60 where it is more.
pub fn add_sizes(a: u64, b: u64) -> u64
    ensures { result ≡ min largest_size (a + b) }
{
    a.saturating_add(b).min(LARGEST_SIZE)
}

// How many nodes the tree of node n takes, an Item counted as `item`, 2^60 where it is more.
// Kept: no `Operations` has this fold, since it counts the Items, which `evaluate` does not see.
#[cycle(items_size_lower_items_size_lower_size_size_of)]
pub fn size_of(ws: &[u64], n: usize, item: u64) -> u64
    requires { n * 4 + 4 ≤ length ws.now }
    ensures { result ≡ min largest_size (weight item (expr_of ws.now n)) }
{
    let d = read_node(ws, n);
    // A leaf. It is told by its number, before the jump by kind.
    if d.kind < Kind::Negated as u64 {
        return 1;
    }
    match Kind::try_from(d.kind) {
        Ok(Kind::Negated) => add_sizes(1, lower_size(ws, n, d.first, item)),
        Ok(Kind::Sum) => {
            let x = lower_size(ws, n, d.first, item);
            let y = lower_size(ws, n, d.second, item);
            add_sizes(1, add_sizes(x, y))
        }
        Ok(Kind::Product) => {
            let x = lower_size(ws, n, d.first, item);
            let y = lower_size(ws, n, d.second, item);
            add_sizes(1, add_sizes(x, y))
        }
        Ok(Kind::Scaled) => add_sizes(1, lower_size(ws, n, d.first, item)),
        Ok(Kind::DistributePowers) => {
            let base = lower_size(ws, n, d.first, item);
            let items = lower_items_size(ws, n, d.second, item);
            add_sizes(1, add_sizes(items, base))
        }
        _ => 1,
    }
}

#[cycle(items_size_lower_items_size_lower_size_size_of)]
fn lower_size(ws: &[u64], n: usize, a: u64, item: u64) -> u64
    requires { n * 4 + 4 ≤ length ws.now }
    ensures { result ≡ min largest_size (weight item (under n no_expr (expr_of ws.now) a)) }
{
    let b = a as usize;
    if b < n {
        return size_of(ws, b, item);
    }
    1
}

// How many nodes the Items from n on take, with their expressions.
#[cycle(items_size_lower_items_size_lower_size_size_of)]
fn items_size(ws: &[u64], n: usize, item: u64) -> u64
    requires { n * 4 + 4 ≤ length ws.now }
    ensures { result ≡ min largest_size (weights item (items_of ws.now n)) }
{
    let d = read_node(ws, n);
    let x = lower_size(ws, n, d.first, item);
    if d.value == 0 {
        return add_sizes(item, x);
    }
    let y = lower_items_size(ws, n, d.second, item);
    add_sizes(item, add_sizes(x, y))
}

#[cycle(items_size_lower_items_size_lower_size_size_of)]
fn lower_items_size(ws: &[u64], n: usize, a: u64, item: u64) -> u64
    requires { n * 4 + 4 ≤ length ws.now }
    ensures { result ≡ min largest_size (weights item (under n no_exprs (items_of ws.now) a)) }
{
    let b = a as usize;
    if b < n {
        return items_size(ws, b, item);
    }
    add_sizes(item, 1)
}
