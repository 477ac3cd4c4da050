// Trees written anew into a lent buffer, in document 01's order, whatever their order in the words that they are read from. The buffer
// stands for the words from word `from` on; what falls outside it is left out.
#![tactic(auto)]

pub mod operations;

ghost use Rattle.std.specs.Prelude.{◌≡◌, ◌+◌, ◌*◌, ◌≤◌, ◌<◌, [], ◌∷◌, length};
ghost use Rattle.lists.specs.Lists.{write_window};
ghost use Rattle.expression.specs.Expr.{Expr};
ghost use Rattle.expression.specs.Kinds.{number};
ghost use Rattle.expression.specs.Nodes.{expr_of, items_of, under, no_expr, no_exprs};
ghost use Rattle.expression.specs.Flat.{size, sizes, extra};
ghost use Rattle.expression.specs.Written.{most_words, Pushed, ExprWritten, WrittenOne, WrittenPair, WrittenBase, WrittenList};

use expression::kind::{Kind, NoKind};
use expression_nodes::read_node;

// What writing a list returns: the next node's number, and the base's.
#[derive(Clone, Copy)]
pub struct Listed {
    pub next: usize,
    pub base: usize,
}

// Word i, if it falls into the buffer, which stands for the words from `from` on.
fn put(nodes: &mut [u64], from: usize, i: usize, word: u64)
    ensures { nodes.new ≡ write_window from nodes.old i (word ∷ []) }
{
    let Some(j) = i.checked_sub(from) else {
        return;
    };
    if j < nodes.len() {
        nodes[j] = word;
    }
}

// Writes one node's words, and returns the next node's number.
// Kept: a struct of the buffer and `from` is no plainer: each contract below would say once more that its reference and `from` stay.
pub fn push(
    nodes: &mut [u64],
    from: usize,
    at: usize,
    kind: u64,
    first: u64,
    second: u64,
    value: u64,
) -> usize
    requires { at * 4 + 4 ≤ most_words }
    ensures { Pushed from at kind first second value nodes.old nodes.new result }
{
    let i = at * 4;
    put(nodes, from, i, kind);
    put(nodes, from, i + 1, first);
    put(nodes, from, i + 2, second);
    put(nodes, from, i + 3, value);
    at + 1
}

// Writes a node of a kind, and returns the next node's number.
pub fn push_node(
    nodes: &mut [u64],
    from: usize,
    at: usize,
    kind: Kind,
    first: u64,
    second: u64,
    value: u64,
) -> usize
    requires { at * 4 + 4 ≤ most_words }
    ensures { Pushed from at (number kind) first second value nodes.old nodes.new result }
{
    push(nodes, from, at, u64::from(kind), first, second, value)
}

// Writes the expression at node n of ws from node `at` on, and returns the next node's number.
#[cycle(copy_base_copy_expr_copy_items_copy_low_copy_one_copy_pair_copy_powers)]
pub fn copy_expr(ws: &[u64], nodes: &mut [u64], from: usize, n: usize, at: usize) -> usize
    requires { (n * 4 + 4 ≤ length ws.now) × ((at + size (expr_of ws.now n)) * 4 ≤ most_words) }
    ensures { ExprWritten from (expr_of ws.now n) at nodes.old nodes.new result }
{
    let d = read_node(ws, n);
    match Kind::try_from(d.kind) {
        Ok(Kind::Constant) => push_node(nodes, from, at, Kind::Constant, 0, 0, d.value),
        Ok(Kind::Identity) => push_node(nodes, from, at, Kind::Identity, 0, 0, 0),
        Ok(Kind::Lagrange) => push_node(nodes, from, at, Kind::Lagrange, 0, 0, d.value),
        Ok(Kind::EqXy) => push_node(nodes, from, at, Kind::EqXy, 0, 0, d.value),
        Ok(Kind::Polynomial) => push_node(nodes, from, at, Kind::Polynomial, d.first, 0, d.value),
        Ok(Kind::Challenge) => push_node(nodes, from, at, Kind::Challenge, d.first, 0, 0),
        Ok(Kind::Negated) => copy_one(ws, nodes, from, n, at, Kind::Negated, d.first, 0),
        Ok(Kind::Sum) => copy_pair(ws, nodes, from, n, at, Kind::Sum, d.first, d.second),
        Ok(Kind::Product) => copy_pair(ws, nodes, from, n, at, Kind::Product, d.first, d.second),
        Ok(Kind::Scaled) => copy_one(ws, nodes, from, n, at, Kind::Scaled, d.first, d.value),
        Ok(Kind::DistributePowers) => copy_powers(ws, nodes, from, n, at, d.first, d.second),
        Ok(Kind::Item) => push_node(nodes, from, at, Kind::Constant, 0, 0, 0),
        Err(NoKind) => push_node(nodes, from, at, Kind::Constant, 0, 0, 0),
    }
}

// The expression at node a, if it is below n: else Constant 0.
#[cycle(copy_base_copy_expr_copy_items_copy_low_copy_one_copy_pair_copy_powers)]
fn copy_low(ws: &[u64], nodes: &mut [u64], from: usize, n: usize, at: usize, a: u64) -> usize
    requires { (n * 4 + 4 ≤ length ws.now) × ((at + size (under n no_expr (expr_of ws.now) a)) * 4 ≤ most_words) }
    ensures { ExprWritten from (under n no_expr (expr_of ws.now) a) at nodes.old nodes.new result }
{
    let c = a as usize;
    if c < n {
        return copy_expr(ws, nodes, from, c, at);
    }
    push_node(nodes, from, at, Kind::Constant, 0, 0, 0)
}

// A node of a kind with one part.
#[cycle(copy_base_copy_expr_copy_items_copy_low_copy_one_copy_pair_copy_powers)]
fn copy_one(
    ws: &[u64],
    nodes: &mut [u64],
    from: usize,
    n: usize,
    at: usize,
    kind: Kind,
    a: u64,
    value: u64,
) -> usize
    requires { (n * 4 + 4 ≤ length ws.now) × ((at + size (under n no_expr (expr_of ws.now) a) + 1) * 4 ≤ most_words) }
    ensures { WrittenOne from (number kind) (under n no_expr (expr_of ws.now) a) value at nodes.old nodes.new result }
{
    let x = copy_low(ws, nodes, from, n, at, a);
    push_node(nodes, from, x, kind, (x - 1) as u64, 0, value)
}

// A node of a kind with two parts.
#[cycle(copy_base_copy_expr_copy_items_copy_low_copy_one_copy_pair_copy_powers)]
fn copy_pair(
    ws: &[u64],
    nodes: &mut [u64],
    from: usize,
    n: usize,
    at: usize,
    kind: Kind,
    a: u64,
    b: u64,
) -> usize
    requires { (n * 4 + 4 ≤ length ws.now) × ((at + size (under n no_expr (expr_of ws.now) a) + size (under n no_expr (expr_of ws.now) b) + 1) * 4 ≤ most_words) }
    ensures { WrittenPair from (number kind) (under n no_expr (expr_of ws.now) a) (under n no_expr (expr_of ws.now) b) at nodes.old nodes.new result }
{
    let x = copy_low(ws, nodes, from, n, at, a);
    let y = copy_low(ws, nodes, from, n, x, b);
    push_node(nodes, from, y, kind, (x - 1) as u64, (y - 1) as u64, 0)
}

// A DistributePowers with its base and its first Item.
#[cycle(copy_base_copy_expr_copy_items_copy_low_copy_one_copy_pair_copy_powers)]
fn copy_powers(
    ws: &[u64],
    nodes: &mut [u64],
    from: usize,
    n: usize,
    at: usize,
    base: u64,
    item: u64,
) -> usize
    requires { (n * 4 + 4 ≤ length ws.now) × ((at + sizes (under n no_exprs (items_of ws.now) item) + size (under n no_expr (expr_of ws.now) base) + extra (under n no_exprs (items_of ws.now) item) + 2) * 4 ≤ most_words) }
    ensures { ExprWritten from (Expr.powers (under n no_exprs (items_of ws.now) item) (under n no_expr (expr_of ws.now) base)) at nodes.old nodes.new result }
{
    let l = copy_items(ws, nodes, from, n, at, base, n, item);
    push_node(
        nodes,
        from,
        l.next,
        Kind::DistributePowers,
        l.base as u64,
        (l.next - 1) as u64,
        0,
    )
}

// The expressions of the list that begins at the Item, if it is below `bound`, then the base, then the Items from last to first.
#[cycle(copy_base_copy_expr_copy_items_copy_low_copy_one_copy_pair_copy_powers)]
fn copy_items(
    ws: &[u64],
    nodes: &mut [u64],
    from: usize,
    n: usize,
    at: usize,
    base: u64,
    bound: usize,
    item: u64,
) -> Listed
    requires { (n * 4 + 4 ≤ length ws.now) × ((bound ≤ n) × ((at + sizes (under bound no_exprs (items_of ws.now) item) + size (under n no_expr (expr_of ws.now) base) + extra (under bound no_exprs (items_of ws.now) item) + 1) * 4 ≤ most_words)) }
    ensures { WrittenList from (under bound no_exprs (items_of ws.now) item) (under n no_expr (expr_of ws.now) base) at nodes.old nodes.new result.next result.base }
{
    let i = item as usize;
    if i < bound {
        let d = read_node(ws, i);
        let x = copy_low(ws, nodes, from, i, at, d.first);
        if d.value == 0 {
            return copy_base(ws, nodes, from, n, x, base);
        }
        let l = copy_items(ws, nodes, from, n, x, base, i, d.second);
        let next = push_node(
            nodes,
            from,
            l.next,
            Kind::Item,
            (x - 1) as u64,
            (l.next - 1) as u64,
            1,
        );
        return Listed { next, base: l.base };
    }
    let x = push_node(nodes, from, at, Kind::Constant, 0, 0, 0);
    copy_base(ws, nodes, from, n, x, base)
}

// The base, and the last Item, whose expression ends before it.
#[cycle(copy_base_copy_expr_copy_items_copy_low_copy_one_copy_pair_copy_powers)]
fn copy_base(ws: &[u64], nodes: &mut [u64], from: usize, n: usize, at: usize, base: u64) -> Listed
    requires { (n * 4 + 4 ≤ length ws.now) × ((0 < at) × ((at + size (under n no_expr (expr_of ws.now) base) + 1) * 4 ≤ most_words)) }
    ensures { WrittenBase from (under n no_expr (expr_of ws.now) base) at nodes.old nodes.new result.next result.base }
{
    let y = copy_low(ws, nodes, from, n, at, base);
    let next = push_node(nodes, from, y, Kind::Item, (at - 1) as u64, 0, 0);
    Listed { next, base: y - 1 }
}
