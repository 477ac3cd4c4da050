// The identity and permutation factors of the permutation constraints, and their products, written as node words into a lent buffer.
ghost use Rattle.std.specs.Prelude.{◌≡◌, ◌+◌, ◌-◌, ◌*◌, ◌≤◌, ◌<◌, length};
ghost use Rattle.expression.specs.Written.{most_words, ExprWritten};

use crate::{Numbers, Span};
use expression::kind::Kind;
use expression_write::operations::{challenge, product, query, sum};
use expression_write::push_node;

// The copied columns, each by its polynomial's number, with the circuit's numbers.
#[derive(Clone, Copy)]
pub struct Copied<'a> {
    pub copied: &'a [u64],
    pub numbers: Numbers,
    pub ghost all_copied: { numbers.params.num_permutation_polys ≤ length copied.now },
}

// The two sides of a part's constraint: where a cell is, and where the permutation takes it.
#[derive(Clone, Copy)]
pub enum Side {
    Identity,
    Permutation,
}

impl Copied<'_> {
    ghost use Rattle.preprocessor_constraints.specs.Copied.{label_tree, factor_nodes, factor_tree, factors_tree};

    // label + id, or the permutation's column
    fn label(&self, side: Side, out: &mut [u64], from: usize, i: usize, at: usize) -> usize
        requires below { i < self.now.numbers.params.num_permutation_polys }
        requires room { (at + factor_nodes side - 7) * 4 ≤ most_words }
        ensures { ExprWritten from (label_tree side self.now i) at out.old out.new result }
    {
        let params = self.numbers.params;
        match side {
            Side::Identity => {
                let label = (i * params.rows) as u64;
                let x = push_node(out, from, at, Kind::Constant, 0, 0, label);
                let id = push_node(out, from, x, Kind::Identity, 0, 0, 0);
                sum(out, from, x, id)
            }
            Side::Permutation => query(out, from, at, (params.num_poly + i) as u64),
        }
    }

    // poly + beta * label + gamma
    fn factor(&self, side: Side, out: &mut [u64], from: usize, i: usize, at: usize) -> usize
        requires below { i < self.now.numbers.params.num_permutation_polys }
        requires room { (at + factor_nodes side - 1) * 4 ≤ most_words }
        ensures { ExprWritten from (factor_tree side self.now i) at out.old out.new result }
    {
        let challenges = self.numbers.params.num_challenges;
        let poly = query(out, from, at, self.copied[i]);
        let beta = challenge(out, from, poly, challenges as u64);
        let label = self.label(side, out, from, i, beta);
        let p = product(out, from, beta, label);
        let s = sum(out, from, poly, p);
        let gamma = challenge(out, from, s, (challenges + 1) as u64);
        sum(out, from, s, gamma)
    }

    // The product of the factors of these copied columns, one or more.
    pub fn factors_product(
        &self,
        side: Side,
        columns: Span,
        out: &mut [u64],
        from: usize,
        at: usize,
    ) -> usize
        requires some { 0 < columns.count }
        requires inside { columns.first + columns.count ≤ self.now.numbers.params.num_permutation_polys }
        requires room { (at + columns.count * factor_nodes side) * 4 ≤ most_words + 4 }
        ensures number { result + 1 ≡ at + columns.count * factor_nodes side }
        ensures written { ExprWritten from (factors_tree side self.now columns.first columns.count) at out.old out.new result }
    {
        let mut x = self.factor(side, out, from, columns.first, at);
        for j in 1..columns.count {
            let y = self.factor(side, out, from, columns.first + j, x);
            x = product(out, from, x, y);
        }
        x
    }
}
