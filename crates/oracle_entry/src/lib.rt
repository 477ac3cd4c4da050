// Expressions and the questions, for the oracle: any words may be lent. oracle_entry_c exports the calls to C.
#![tactic(auto)]

ghost use Rattle.std.specs.Prelude.{◌≡◌, ◌&&◌, ◌+◌, ◌*◌, ◌^◌, ◌≤◌, ◌<◌, eqb, ltb, length};
ghost use Rattle.lists.specs.Lists.{tabulate, write_at, all_of, first_no};
ghost use Rattle.expression.specs.Reader.{LayoutSmall};
ghost use Rattle.expression.specs.Queries.{queries_into};
ghost use Rattle.backend.specs.Questions.{circuit_questions};
ghost use Rattle.oracle_entry.specs.Entry.{degree_at, queries_at, layout_from, value_word, values_into};

use backend_questions::first_no;
use backend_sections::words::all_below;
use bh::{row_after, rows_of};
use expression::poly::Layout;
use expression::value::Point;
use expression_degree::degree_of;
use expression_evaluate::evaluation::Evaluation;
use expression_query::used_queries;
use lists::word_at;

// The degree of node n, 1025 where it is more, 0 where there is no node.
// Kept: the number is what C is answered.
pub fn expression_degree(nodes: &[u64], n: usize) -> u64
    ensures { result ≡ degree_at nodes.now n }
{
    if n < nodes.len() / 4 {
        return degree_of(nodes, n);
    }
    0
}

// The queries of node n with a polynomial below `polys` and a rotation from -k to k, two words each in rising order. Returns how
// many there are, and writes none where they do not all fit.
pub fn expression_queries(nodes: &[u64], n: usize, polys: usize, k: usize, out: &mut [u64]) -> usize
    ensures { (result ≡ length (queries_at nodes.now n polys k)) × (out.new ≡ queries_into (queries_at nodes.now n polys k) out.old) }
{
    let small = (n < nodes.len() / 4) & ((polys <= 1048576) & (k <= 1048576));
    if small {
        return used_queries(nodes, n, polys, k, out);
    }
    0
}

// Where the polynomials stand: seven words from `instances` on, as a Layout has them.
fn layout_from(k: usize, words: &[u64]) -> Layout
    requires { k ≤ 20 }
    ensures { result ≡ layout_from k words.now }
{
    Layout {
        rows: rows_of(k),
        instances: word_at(words, 0) as usize,
        preprocess: word_at(words, 1) as usize,
        start: word_at(words, 2) as usize,
        witness: word_at(words, 3) as usize,
        permutations: word_at(words, 4) as usize,
        skipped: word_at(words, 5) as usize,
        rest: word_at(words, 6) as usize,
    }
}

// The words that are lent for the values of an expression: those of the nodes, those that a node may read, where the polynomials stand
// (seven words from `instances` on, as a Layout has them), and EqXY's value at each row.
#[derive(Clone, Copy)]
pub struct Lent<'a> {
    pub nodes: &'a [u64],
    pub circuit: &'a [u64],
    pub witness: &'a [u64],
    pub columns: &'a [u64],
    pub challenges: &'a [u64],
    pub layout: &'a [u64],
    pub eq: &'a [u64],
}

// What is evaluated at every row: node n, over polynomials of 2^k rows that stand as `layout` says.
#[derive(Clone, Copy)]
struct EveryRow<'a> {
    lent: Lent<'a>,
    layout: Layout,
    k: usize,
    n: usize,
    ghost there: { n * 4 + 4 ≤ length lent.nodes.now },
    ghost small: { LayoutSmall layout },
    ghost order: { (0 < k) × (k < 21) },
}

impl EveryRow<'_> {
    // The value of the node at every row, through the row order once.
    fn values(&self, out: &mut [u64])
        requires { 2 ^ self.now.k ≤ length out.old }
        ensures { out.new ≡ write_at out.old 0 (tabulate (value_word self.now.lent.nodes.now self.now.lent.circuit.now self.now.lent.witness.now self.now.lent.columns.now self.now.lent.challenges.now self.now.layout self.now.k self.now.lent.eq.now self.now.n) (2 ^ self.now.k)) }
    {
        let lent = self.lent;
        let rows = rows_of(self.k);
        let mut row: usize = 0;
        for place in 0..rows {
            let e = word_at(lent.eq, row);
            let over = Evaluation {
                circuit: lent.circuit,
                witness: lent.witness,
                columns: lent.columns,
                challenges: lent.challenges,
                layout: self.layout,
                point: Point {
                    k: self.k,
                    row,
                    place,
                    eq: e,
                },
            };
            let x = over.value(lent.nodes, self.n);
            out[row] = u64::from(x);
            row = row_after(row, place, self.k);
        }
    }
}

// Seven words, each at most 2^20?
fn small_layout(words: &[u64]) -> bool
    ensures { result ≡ (eqb (length words.now) 7 && all_of (λ w. ltb w 1048577) words.now) }
{
    (words.len() == 7) & all_below(words, 1048577)
}

impl Lent<'_> {
    // The value of node n at every row, over the first 2^k words of `out`. Where k, the layout or n is out of range, or `out` is short, it
    // stays as it is.
    pub fn expression_values(&self, k: usize, n: usize, out: &mut [u64])
        ensures { out.new ≡ values_into k self.now.nodes.now self.now.circuit.now self.now.witness.now self.now.columns.now self.now.challenges.now self.now.layout.now self.now.eq.now n out.old }
    {
        let order = (1 <= k) & (k <= 20);
        if !order {
            return;
        }
        if !small_layout(self.layout) {
            return;
        }
        let room = (n < self.nodes.len() / 4) & (rows_of(k) <= out.len());
        if !room {
            return;
        }
        let of = EveryRow {
            lent: *self,
            layout: layout_from(k, self.layout),
            k,
            n,
        };
        of.values(out);
    }
}

// Questions 1 to 11: the first no, 0 if there is none.
pub fn circuit_first_no(circuit: &[u64]) -> u64
    ensures { result ≡ first_no circuit_questions circuit.now }
{
    first_no(circuit)
}
