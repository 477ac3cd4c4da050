// Rust `lookup_constraints`: the constraint of a group of lookups, written as node words into a lent buffer.
ghost use Rattle.std.specs.Prelude.{◌≡◌, [], map, ◌+◌, ◌*◌, ◌≤◌, ◌<◌, ◌^◌, pos, get_or, length};
ghost use Rattle.expression.specs.Expr.{Expr, product_from, product_of};
ghost use Rattle.expression.specs.Flat.{size};
ghost use Rattle.expression.specs.Written.{most_words, ExprWritten};
ghost use Rattle.backend.specs.Constraints.{omit_one, sum_of, numerator_tree};

use crate::lookup::{LookupSide, Lookups};
use crate::{Numbers, Span};
use expression_write::operations::{negated, product, query, sum};

// A group of lookups: one or more in a row.
#[derive(Clone, Copy)]
pub struct Group<'a> {
    pub lookups: Lookups<'a>,
    pub members: Span,
    pub ghost some: { 0 < members.count },
    pub ghost all_members: { members.first + members.count ≤ length lookups.widths.now },
}

// Number i of a group's lookups besides number `omit`.
fn besides(omit: usize, i: usize) -> usize
    requires { i < 2 ^ 63 }
    ensures { (i < omit → result ≡ i) × (omit ≤ i → result ≡ i + 1) }
{
    if i < omit {
        return i;
    }
    i + 1
}

impl Group<'_> {
    ghost use Rattle.preprocessor_constraints.specs.Groups.{inputs_of, table_of, group_of};

    // h * (input + gamma) * ..., or m * (input + gamma) * ..., over the inputs of a group
    fn inputs_product(&self, out: &mut [u64], from: usize, q: usize, at: usize) -> usize
        requires { (at + size (product_from (Expr.poly q (pos 0)) (inputs_of self.now))) * 4 ≤ most_words }
        ensures { ExprWritten from (product_from (Expr.poly q (pos 0)) (inputs_of self.now)) at out.old out.new result }
    {
        let lookups = self.lookups;
        let mut x = query(out, from, at, q as u64);
        for i in 0..self.members.count {
            let y = lookups.side(LookupSide::Input, out, from, self.members.first + i, x);
            x = product(out, from, x, y);
        }
        x
    }

    // The product of a group's inputs besides number `omit`.
    fn product_besides(&self, out: &mut [u64], from: usize, omit: usize, at: usize) -> usize
        requires more { 2 ≤ self.now.members.count }
        requires below { omit < self.now.members.count }
        requires room { (at + size (product_of (get_or (omit_one (inputs_of self.now)) omit []))) * 4 ≤ most_words }
        ensures { ExprWritten from (product_of (get_or (omit_one (inputs_of self.now)) omit [])) at out.old out.new result }
    {
        let lookups = self.lookups;
        let first = self.members.first + besides(omit, 0);
        let mut x = lookups.side(LookupSide::Input, out, from, first, at);
        for i in 1..self.members.count - 1 {
            let other = self.members.first + besides(omit, i);
            let y = lookups.side(LookupSide::Input, out, from, other, x);
            x = product(out, from, x, y);
        }
        x
    }

    // The sum of the products of all inputs of a group but one.
    fn products_sum(&self, out: &mut [u64], from: usize, at: usize) -> usize
        requires more { 2 ≤ self.now.members.count }
        requires room { (at + size (sum_of (map product_of (omit_one (inputs_of self.now))))) * 4 ≤ most_words }
        ensures { ExprWritten from (sum_of (map product_of (omit_one (inputs_of self.now)))) at out.old out.new result }
    {
        let mut x = self.product_besides(out, from, 0, at);
        for k in 1..self.members.count {
            let y = self.product_besides(out, from, k, x);
            x = sum(out, from, x, y);
        }
        x
    }

    // The table, times the sum of those products where there are two inputs or more.
    fn numerator(&self, out: &mut [u64], from: usize, at: usize) -> usize
        requires { (at + size (numerator_tree (table_of self.now) (inputs_of self.now))) * 4 ≤ most_words }
        ensures { ExprWritten from (numerator_tree (table_of self.now) (inputs_of self.now)) at out.old out.new result }
    {
        let t = self
            .lookups
            .side(LookupSide::Table, out, from, self.members.first, at);
        if self.members.count < 2 {
            return t;
        }
        let s = self.products_sum(out, from, t);
        product(out, from, t, s)
    }

    // h * inputs * table - table * (products of all inputs but one) + m * inputs, as group j of a circuit with these numbers
    pub fn lookup_constraint(
        &self,
        numbers: Numbers,
        out: &mut [u64],
        from: usize,
        j: usize,
        at: usize,
    ) -> usize
        requires beta { self.now.lookups.beta ≡ numbers.params.num_challenges }
        requires below { j < numbers.params.num_groups }
        requires room { (at + size (group_of numbers.params self.now j)) * 4 ≤ most_words }
        ensures { ExprWritten from (group_of numbers.params self.now j) at out.old out.new result }
    {
        let params = numbers.params;
        let m = params.num_poly + params.num_permutation_polys + j;
        let h = params.num_poly + params.num_permutation_polys + params.num_groups + j;
        let a = self.inputs_product(out, from, h, at);
        let b = self
            .lookups
            .side(LookupSide::Table, out, from, self.members.first, a);
        let p = product(out, from, a, b);
        let t = self.numerator(out, from, p);
        let n = negated(out, from, t);
        let d = sum(out, from, p, n);
        let e = self.inputs_product(out, from, m, d);
        sum(out, from, d, e)
    }
}
