// The queries of an expression (Rust `used_query`), from its node words.
#![tactic(auto)]

ghost use Rattle.std.specs.Prelude.{◌≡◌, Bool, cond, ◌&&◌, ◌||◌, ◌+◌, ◌-◌, ◌*◌, ◌≤◌, ◌<◌, eqb, leb, length};
ghost use Rattle.lists.specs.Lists.{write_prefix};
ghost use Rattle.expression.specs.Nodes.{expr_of};
ghost use Rattle.expression.specs.Walks.{used_ops};
ghost use Rattle.expression.specs.Queries.{query_of, used_queries, queries_into};

use expression::node::SIGNED_OFFSET;
use expression_walk::{Operations, node};

// Is a query used? `word` keeps its rotation.
#[derive(Clone, Copy)]
struct Uses {
    polynomial: u64,
    word: u64,
}

#[tactic(auto, unfolding(expression::specs::Walks::used_ops))]
impl Operations for Uses {
    type Value = bool;

    ghost Carrier = { Bool };

    ghost meaning = { λ b. b };

    ghost ops = { λ s. used_ops (query_of s.polynomial s.word) };

    fn constant(&self, _value: u64) -> bool {
        false
    }

    fn identity(&self) -> bool {
        false
    }

    fn lagrange(&self, _number: u64) -> bool {
        false
    }

    fn eq_xy(&self, _number: u64) -> bool {
        false
    }

    fn poly(&self, polynomial: u64, rotation: u64) -> bool {
        self.polynomial == polynomial && self.word == rotation
    }

    fn challenge(&self, _number: u64) -> bool {
        false
    }

    fn negated(&self, x: bool) -> bool {
        x
    }

    fn sum(&self, x: bool, y: bool) -> bool {
        x || y
    }

    fn product(&self, x: bool, y: bool) -> bool {
        x || y
    }

    fn scaled(&self, x: bool, _scalar: u64) -> bool {
        x
    }
}

// How many queries are used at node n, with a polynomial below `polys` and a rotation from -k to k.
fn count_queries(ws: &[u64], n: usize, polys: usize, k: usize) -> usize
    requires { (n * 4 + 4 ≤ length ws.now) × ((polys ≤ 1048576) × (k ≤ 1048576)) }
    ensures { result ≡ length (used_queries (expr_of ws.now n) polys k) }
{
    let wide = k + k + 1;
    let low = SIGNED_OFFSET as usize - k;
    let end = polys * wide;
    let mut count: usize = 0;
    for i in 0..end {
        let query = Uses {
            polynomial: (i / wide) as u64,
            word: (low + i % wide) as u64,
        };
        if node(&query, ws, n) {
            count += 1;
        }
    }
    count
}

// Writes them in rising order, by polynomial and then by rotation, each as two words, the rotation kept as a word is. Returns how
// many there are; a buffer with too few words is left as it is.
pub fn used_queries(ws: &[u64], n: usize, polys: usize, k: usize, out: &mut [u64]) -> usize
    requires { (n * 4 + 4 ≤ length ws.now) × ((polys ≤ 1048576) × (k ≤ 1048576)) }
    ensures { (result ≡ length (used_queries (expr_of ws.now n) polys k)) × (out.new ≡ queries_into (used_queries (expr_of ws.now n) polys k) out.old) }
{
    let count = count_queries(ws, n, polys, k);
    if out.len() / 2 < count {
        return count;
    }
    let wide = k + k + 1;
    let low = SIGNED_OFFSET as usize - k;
    let end = polys * wide;
    let mut at: usize = 0;
    for i in 0..end {
        let query = Uses {
            polynomial: (i / wide) as u64,
            word: (low + i % wide) as u64,
        };
        if node(&query, ws, n) {
            out[at] = query.polynomial;
            out[at + 1] = query.word;
            at += 2;
        }
    }
    count
}
