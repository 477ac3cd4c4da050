// Rust `permutation_constraints`: the start's constraint and each part's, written as node words into a lent buffer.
ghost use Rattle.std.specs.Prelude.{◌≡◌, ◌+◌, ◌*◌, ◌≤◌, ◌<◌, length};
ghost use Rattle.expression.specs.Expr.{Expr};
ghost use Rattle.expression.specs.Written.{most_words, ExprWritten};
ghost use Rattle.backend.specs.Circuit.{max_polys};
ghost use Rattle.preprocessor.specs.Compose.{next_tree, chunk, start_tree};

use crate::factors::{Copied, Side};
use crate::{Numbers, Span};
use expression::kind::Kind;
use expression::node::SIGNED_ONE;
use expression_write::operations::{negated, product, query, sum};
use expression_write::push_node;

impl Numbers {
    // The number of the first z.
    fn first_z(&self) -> usize
        ensures { result ≡ self.now.params.num_poly + self.now.params.num_permutation_polys + self.now.params.num_groups * 2 }
    {
        self.params.num_poly + self.params.num_permutation_polys + self.params.num_groups * 2
    }

    // "Next is the following part's z at that row; after the last part it is the first z with rotation 1."
    fn next_z(&self, out: &mut [u64], from: usize, i: usize, at: usize) -> usize
        requires below { i < max_polys }
        requires room { (at + 1) * 4 ≤ most_words }
        ensures { ExprWritten from (next_tree self.now.params i) at out.old out.new result }
    {
        let z = self.first_z();
        if i + 1 < self.params.num_chunks {
            return query(out, from, at, (z + (i + 1)) as u64);
        }
        push_node(out, from, at, Kind::Polynomial, z as u64, 0, SIGNED_ONE)
    }

    // The copied columns of part i.
    fn part(&self, i: usize) -> Span
        requires { i < self.now.params.num_chunks }
        ensures first { result.first ≡ i * self.now.params.chunk_size }
        ensures count { result.count ≡ length (chunk self.now.params i) }
        ensures inside { (0 < result.count) × (result.first + result.count ≤ self.now.params.num_permutation_polys) }
    {
        let first = i * self.params.chunk_size;
        let left = self.params.num_permutation_polys - first;
        let count = left.min(self.params.chunk_size);
        Span { first, count }
    }

    // l_1 * (z_0 - one)
    pub fn start_constraint(&self, out: &mut [u64], from: usize, at: usize) -> usize
        requires { (at + 6) * 4 ≤ most_words }
        ensures { ExprWritten from (start_tree self.now.params) at out.old out.new result }
    {
        let l = push_node(out, from, at, Kind::Lagrange, 0, 0, SIGNED_ONE);
        let z = query(out, from, l, self.first_z() as u64);
        let one = push_node(out, from, z, Kind::Constant, 0, 0, 1);
        let n = negated(out, from, one);
        let s = sum(out, from, z, n);
        product(out, from, l, s)
    }
}

impl Copied<'_> {
    ghost use Rattle.preprocessor_constraints.specs.Copied.{factor_nodes, factors_tree, z_tree, part_of};

    // Part i's z on this side.
    fn z(&self, side: Side, out: &mut [u64], from: usize, i: usize, at: usize) -> usize
        requires below { i < max_polys }
        requires room { (at + 1) * 4 ≤ most_words }
        ensures { ExprWritten from (z_tree side self.now i) at out.old out.new result }
    {
        match side {
            Side::Identity => query(out, from, at, (self.numbers.first_z() + i) as u64),
            Side::Permutation => self.numbers.next_z(out, from, i, at),
        }
    }

    // z_lhs * product of identity factors, or z_rhs * product of permutation factors, of part i
    fn z_product(&self, side: Side, out: &mut [u64], from: usize, i: usize, at: usize) -> usize
        requires below { i < self.now.numbers.params.num_chunks }
        requires room { (at + length (chunk self.now.numbers.params i) * factor_nodes side + 1) * 4 ≤ most_words }
        ensures number { result ≡ at + length (chunk self.now.numbers.params i) * factor_nodes side + 1 }
        ensures written { ExprWritten from (Expr.product (z_tree side self.now i) (factors_tree side self.now (i * self.now.numbers.params.chunk_size) (length (chunk self.now.numbers.params i)))) at out.old out.new result }
    {
        let columns = self.numbers.part(i);
        let z = self.z(side, out, from, i, at);
        let p = self.factors_product(side, columns, out, from, z);
        product(out, from, z, p)
    }

    // The constraint of part i.
    pub fn part_constraint(&self, out: &mut [u64], from: usize, i: usize, at: usize) -> usize
        requires below { i < self.now.numbers.params.num_chunks }
        requires room { (at + length (chunk self.now.numbers.params i) * 18 + 4) * 4 ≤ most_words }
        ensures { ExprWritten from (part_of self.now i) at out.old out.new result }
    {
        let left = self.z_product(Side::Identity, out, from, i, at);
        let right = self.z_product(Side::Permutation, out, from, i, left);
        let n = negated(out, from, right);
        sum(out, from, left, n)
    }
}
