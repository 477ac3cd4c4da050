// Node words, and the signed numbers kept in them.
#![tactic(auto)]

pub mod leaves;
pub mod poly;

ghost use Rattle.std.specs.Prelude.{◌≡◌, ℕ, ◌+◌, ◌*◌, ◌^◌, ◌≤◌, ◌<◌, ◌%◌, length, pos, neg_ℤ, nat_abs};
ghost use Rattle.bh.specs.Rows.{rotated};
ghost use Rattle.expression.specs.Nodes.{decode_signed};
ghost use Rattle.expression.specs.Read.{node_at};

use bh::Rotation;
use expression::node::{Node, SIGNED_OFFSET};

// The words of node n.
pub fn read_node(ws: &[u64], n: usize) -> Node
    requires { n * 4 + 4 ≤ length ws.now }
    ensures { result ≡ node_at ws.now n }
{
    let at = n * 4;
    let kind = ws[at];
    let first = ws[at + 1];
    let second = ws[at + 2];
    let value = ws[at + 3];
    Node {
        kind,
        first,
        second,
        value,
    }
}

// d rows on.
fn forward(d: u64) -> Rotation
    requires { d < 2 ^ 31 }
    ensures { result.0 ≡ pos d }
{
    Rotation(d as i32)
}

// d rows back.
fn backward(d: u64) -> Rotation
    requires { d < 2 ^ 31 }
    ensures { result.0 ≡ neg_ℤ (pos d) }
{
    Rotation(0 - (d as i32))
}

// A distance of more than once round the order, n steps, is cut by rounds.
fn mod_period(d: u64, n: u64) -> u64
    requires { (0 < n) × (n < 2 ^ 31) }
    ensures { (result % n ≡ d % n) × (result < 2 ^ 31) × (d ≤ n → result ≡ d) }
{
    if d <= n {
        return d;
    }
    d % n
}

// The rotation that a word keeps. A number from −k to k is kept as it is; a longer one is cut by rounds of the order, and
// leads from each row to the row that the word's number leads to.
fn rotation_of(word: u64, k: usize) -> Rotation
    requires { (0 < k) × (k < 21) }
    ensures leads { (b : ℕ) → b < 2 ^ k → rotated k b result.0 ≡ rotated k b (decode_signed word) }
    ensures number { nat_abs (decode_signed word) ≤ k → result.0 ≡ decode_signed word }
{
    let n: u64 = (1 << k) - 1;
    if word < SIGNED_OFFSET {
        return backward(mod_period(SIGNED_OFFSET - word, n));
    }
    forward(mod_period(word - SIGNED_OFFSET, n))
}
