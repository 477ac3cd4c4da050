// The walk over node words (Rust `evaluate`): one recursion for the value, the degree and the queries. A node names lower nodes
// only, and the walk goes down by their numbers.
#![tactic(auto)]

ghost use Rattle.std.specs.Prelude.{◌≡◌, ◌≢◌, ℕ, ◌+◌, ◌*◌, ◌≤◌, length};
ghost use Rattle.expression.specs.Expr.{Ops, evaluate, powers_first, powers_rest};
ghost use Rattle.expression.specs.Nodes.{expr_of, items_of, under, no_expr, decode_signed};
ghost use Rattle.expression.specs.Read.{node_at};

use expression::kind::Kind;
use expression_nodes::read_node;

// The numbers of the kinds.
// Kept: by the enum the row sum takes a third longer (docs/CHANGES.md).
const CONSTANT: u64 = Kind::Constant as u64;

const IDENTITY: u64 = Kind::Identity as u64;

const LAGRANGE: u64 = Kind::Lagrange as u64;

const EQ_XY: u64 = Kind::EqXy as u64;

const POLYNOMIAL: u64 = Kind::Polynomial as u64;

const CHALLENGE: u64 = Kind::Challenge as u64;

const NEGATED: u64 = Kind::Negated as u64;

const SUM: u64 = Kind::Sum as u64;

const PRODUCT: u64 = Kind::Product as u64;

const SCALED: u64 = Kind::Scaled as u64;

const DISTRIBUTE_POWERS: u64 = Kind::DistributePowers as u64;

// What is computed at each node (the functions that Rust's `evaluate` takes), over values of one type. `ops` are the operations
// that they meet, over what the values stand for. A signed number comes as the word that keeps it.
pub trait Operations {
    type Value: Copy;

    ghost Carrier: { Type 0 };

    ghost meaning: { Self.Value → Carrier };

    ghost ops: { Self → Ops Carrier };

    fn constant(&self, value: u64) -> Self::Value
        ensures { meaning result ≡ (ops self.now).constant_op value };

    fn identity(&self) -> Self::Value
        ensures { meaning result ≡ (ops self.now).identity_op };

    fn lagrange(&self, number: u64) -> Self::Value
        ensures { meaning result ≡ (ops self.now).lagrange_op (decode_signed number) };

    fn eq_xy(&self, number: u64) -> Self::Value
        ensures { meaning result ≡ (ops self.now).eq_xy_op number };

    fn poly(&self, polynomial: u64, rotation: u64) -> Self::Value
        ensures { meaning result ≡ (ops self.now).poly_op polynomial (decode_signed rotation) };

    fn challenge(&self, number: u64) -> Self::Value
        ensures { meaning result ≡ (ops self.now).challenge_op number };

    fn negated(&self, x: Self::Value) -> Self::Value
        ensures { meaning result ≡ (ops self.now).negated_op (meaning x) };

    fn sum(&self, x: Self::Value, y: Self::Value) -> Self::Value
        ensures { meaning result ≡ (ops self.now).sum_op (meaning x) (meaning y) };

    fn product(&self, x: Self::Value, y: Self::Value) -> Self::Value
        ensures { meaning result ≡ (ops self.now).product_op (meaning x) (meaning y) };

    fn scaled(&self, x: Self::Value, scalar: u64) -> Self::Value
        ensures { meaning result ≡ (ops self.now).scaled_op (meaning x) scalar };
}

// What the expression at node n computes.
pub fn node<O: Operations>(ops: &O, nodes: &[u64], n: usize) -> O::Value
    requires { n * 4 + 4 ≤ length nodes.now }
    ensures { O.meaning result ≡ evaluate (O.ops ops.now) (expr_of nodes.now n) }
{
    lower(ops, nodes, nodes.len() / 4, n as u64)
}

// What node a computes where it is below n, and else what the constant 0 does. A query and a challenge are read at once.
#[cycle(walk)]
pub fn lower<O: Operations>(ops: &O, nodes: &[u64], n: usize, a: u64) -> O::Value
    requires { n * 4 ≤ length nodes.now }
    ensures { O.meaning result ≡ evaluate (O.ops ops.now) (under n no_expr (expr_of nodes.now) a) }
{
    let b = a as usize;
    if b < n {
        let d = read_node(nodes, b);
        let kind = d.kind;
        if kind == POLYNOMIAL {
            return ops.poly(d.first, d.value);
        }
        if kind == CHALLENGE {
            return ops.challenge(d.first);
        }
        return inner(ops, nodes, b);
    }
    ops.constant(0)
}

// What node n computes. `lower` reads a query and a challenge itself, and calls this for the other kinds; the node is read once
// more here, which keeps the tests of those two kinds before the jump by kind.
#[cycle(walk)]
fn inner<O: Operations>(ops: &O, nodes: &[u64], n: usize) -> O::Value
    requires { (n * 4 + 4 ≤ length nodes.now) × ((node_at nodes.now n).kind ≢ 5) × ((node_at nodes.now n).kind ≢ 6) }
    ensures { O.meaning result ≡ evaluate (O.ops ops.now) (expr_of nodes.now n) }
{
    let d = read_node(nodes, n);
    let kind = d.kind;
    match kind {
        CONSTANT => ops.constant(d.value),
        IDENTITY => ops.identity(),
        LAGRANGE => ops.lagrange(d.value),
        EQ_XY => ops.eq_xy(d.value),
        NEGATED => {
            let x = lower(ops, nodes, n, d.first);
            ops.negated(x)
        }
        SUM => {
            let x = lower(ops, nodes, n, d.first);
            let y = lower(ops, nodes, n, d.second);
            ops.sum(x, y)
        }
        PRODUCT => {
            let x = lower(ops, nodes, n, d.first);
            let y = lower(ops, nodes, n, d.second);
            ops.product(x, y)
        }
        SCALED => {
            let x = lower(ops, nodes, n, d.first);
            ops.scaled(x, d.value)
        }
        DISTRIBUTE_POWERS => {
            let base = lower(ops, nodes, n, d.first);
            let item = d.second as usize;
            if item < n {
                return chain(ops, nodes, item, base);
            }
            ops.constant(0)
        }
        _ => ops.constant(0),
    }
}

// The chain that begins at Item n, by powers of base.
#[cycle(walk)]
fn chain<O: Operations>(ops: &O, nodes: &[u64], n: usize, base: O::Value) -> O::Value
    requires { n * 4 + 4 ≤ length nodes.now }
    ensures { O.meaning result ≡ powers_first (O.ops ops.now) (O.meaning base) (items_of nodes.now n) }
{
    let d = read_node(nodes, n);
    let x = lower(ops, nodes, n, d.first);
    if d.value == 0 {
        return x;
    }
    let item = d.second as usize;
    if item < n {
        return items(ops, nodes, item, base, base, x);
    }
    let zero = ops.constant(0);
    let last = ops.product(base, zero);
    ops.sum(x, last)
}

// The rest of a chain, from Item n on.
#[cycle(walk)]
fn items<O: Operations>(
    ops: &O,
    nodes: &[u64],
    n: usize,
    base: O::Value,
    power: O::Value,
    acc: O::Value,
) -> O::Value
    requires { n * 4 + 4 ≤ length nodes.now }
    ensures { O.meaning result ≡ powers_rest (O.ops ops.now) (O.meaning base) (O.meaning power) (O.meaning acc) (items_of nodes.now n) }
{
    let d = read_node(nodes, n);
    let x = lower(ops, nodes, n, d.first);
    let term = ops.product(power, x);
    let sum = ops.sum(acc, term);
    if d.value == 0 {
        return sum;
    }
    let p = ops.product(power, base);
    let item = d.second as usize;
    if item < n {
        return items(ops, nodes, item, base, p, sum);
    }
    let zero = ops.constant(0);
    let last = ops.product(p, zero);
    ops.sum(sum, last)
}
