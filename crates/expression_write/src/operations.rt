// "Operations become nodes": the queries, challenges, sums, products, negations and lists of the composed expression, each written by
// `push_node` into a lent buffer.
ghost use Rattle.std.specs.Prelude.{◌+◌, ◌-◌, ◌*◌, ◌≤◌, ◌<◌, pos};
ghost use Rattle.expression.specs.Expr.{Expr};
ghost use Rattle.expression.specs.Written.{most_words, Pushed, ExprWritten, WrittenBase};

pub use crate::Listed;
use crate::push_node;
use expression::kind::Kind;
use expression::node::SIGNED_OFFSET;

// ---- leaves, pairs

// A query with rotation 0.
pub fn query(out: &mut [u64], from: usize, at: usize, q: u64) -> usize
    requires { at * 4 + 4 ≤ most_words }
    ensures { ExprWritten from (Expr.poly q (pos 0)) at out.old out.new result }
{
    push_node(out, from, at, Kind::Polynomial, q, 0, SIGNED_OFFSET)
}

pub fn challenge(out: &mut [u64], from: usize, at: usize, i: u64) -> usize
    requires { at * 4 + 4 ≤ most_words }
    ensures { ExprWritten from (Expr.challenge i) at out.old out.new result }
{
    push_node(out, from, at, Kind::Challenge, i, 0, 0)
}

// The sum of the expression that ends before node x and the one that ends before node y.
pub fn sum(out: &mut [u64], from: usize, x: usize, y: usize) -> usize
    requires { (0 < x) × ((0 < y) × (y * 4 + 4 ≤ most_words)) }
    ensures { Pushed from y 8 (x - 1) (y - 1) 0 out.old out.new result }
{
    push_node(out, from, y, Kind::Sum, (x - 1) as u64, (y - 1) as u64, 0)
}

pub fn product(out: &mut [u64], from: usize, x: usize, y: usize) -> usize
    requires { (0 < x) × ((0 < y) × (y * 4 + 4 ≤ most_words)) }
    ensures { Pushed from y 9 (x - 1) (y - 1) 0 out.old out.new result }
{
    push_node(
        out,
        from,
        y,
        Kind::Product,
        (x - 1) as u64,
        (y - 1) as u64,
        0,
    )
}

pub fn negated(out: &mut [u64], from: usize, x: usize) -> usize
    requires { (0 < x) × (x * 4 + 4 ≤ most_words) }
    ensures { Pushed from x 7 (x - 1) 0 0 out.old out.new result }
{
    push_node(out, from, x, Kind::Negated, (x - 1) as u64, 0, 0)
}

// ---- lists

// The base, a challenge, and the last Item, whose expression ends before node x.
pub fn list_end(out: &mut [u64], from: usize, x: usize, base: usize) -> Listed
    requires { (0 < x) × ((x + 2) * 4 ≤ most_words) }
    ensures { WrittenBase from (Expr.challenge base) x out.old out.new result.next result.base }
{
    let y = challenge(out, from, x, base as u64);
    let next = push_node(out, from, y, Kind::Item, (x - 1) as u64, 0, 0);
    Listed { next, base: y - 1 }
}

// The Item of the expression that ends before node x, behind the Items of a list.
pub fn item(out: &mut [u64], from: usize, x: usize, next: usize) -> usize
    requires { (0 < x) × ((0 < next) × (next * 4 + 4 ≤ most_words)) }
    ensures { Pushed from next 12 (x - 1) (next - 1) 1 out.old out.new result }
{
    push_node(
        out,
        from,
        next,
        Kind::Item,
        (x - 1) as u64,
        (next - 1) as u64,
        1,
    )
}

// Kind 11.
pub fn list_head(out: &mut [u64], from: usize, l: Listed) -> usize
    requires { (0 < l.next) × (l.next * 4 + 4 ≤ most_words) }
    ensures { Pushed from l.next 11 l.base (l.next - 1) 0 out.old out.new result }
{
    push_node(
        out,
        from,
        l.next,
        Kind::DistributePowers,
        l.base as u64,
        (l.next - 1) as u64,
        0,
    )
}
