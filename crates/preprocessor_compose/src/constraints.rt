// The composed constraints: user, lookup and permutation constraints by powers of alpha, written as node words into a lent buffer.
ghost use Rattle.std.specs.Prelude.{◌≡◌, ◌+◌, ◌*◌, ◌≤◌, ◌<◌, ◌^◌, get_or};
ghost use Rattle.expression.specs.Expr.{Expr, distribute_powers};
ghost use Rattle.expression.specs.Flat.{size, sizes, extra};
ghost use Rattle.expression.specs.Written.{most_words, ExprWritten, WrittenList};
ghost use Rattle.preprocessor.specs.ComposeWords.{exprs_from, num_constraints};

use crate::words::Input;
use expression::kind::Kind;
use expression_write::operations::{item, list_end, list_head};
use expression_write::{Listed, copy_expr, push_node};
use lists::sum_before;
use preprocessor_constraints::factors::Copied;
use preprocessor_constraints::group::Group;
use preprocessor_constraints::lookup::Lookups;
use preprocessor_constraints::{Numbers, Span};

// How many constraints there are.
pub fn num_constraints(own: usize, numbers: Numbers) -> usize
    requires { own < 2 ^ 63 }
    ensures { result ≡ num_constraints own numbers.params }
{
    let params = numbers.params;
    if params.num_permutation_polys == 0 {
        return own + params.num_groups;
    }
    own + params.num_groups + (1 + params.num_chunks)
}

impl Input<'_> {
    ghost use Rattle.preprocessor_compose.specs.Input.{count_of, constraints_of};

    // Constraint i: "user, lookup, permutation constraints".
    fn constraint(&self, out: &mut [u64], from: usize, i: usize, at: usize) -> usize
        requires below { i < count_of self.now }
        requires room { (at + size (get_or (constraints_of self.now) i (Expr.constant 0))) * 4 ≤ most_words }
        ensures { ExprWritten from (get_or (constraints_of self.now) i (Expr.constant 0)) at out.old out.new result }
    {
        let words = self.words;
        let params = words.params;
        let numbers = Numbers { params };
        let own = words.roots.len();
        if i < own {
            let n = words.roots[i] as usize;
            return copy_expr(words.user, out, from, n, at);
        }
        let j = i - own;
        if j < params.num_groups {
            let first = sum_before(words.sizes, j);
            let count = words.sizes[j] as usize;
            let members = Span { first, count };
            let lookups = Lookups {
                user: words.user,
                widths: words.widths,
                pairs: words.pairs,
                beta: params.num_challenges,
            };
            let group = Group { lookups, members };
            return group.lookup_constraint(numbers, out, from, j, at);
        }
        let p = j - params.num_groups;
        if p == 0 {
            return numbers.start_constraint(out, from, at);
        }
        let copied = Copied {
            copied: self.copied,
            numbers,
        };
        copied.part_constraint(out, from, p - 1, at)
    }

    // The constraints from number i on, the base, the Items.
    fn constraint_items(&self, out: &mut [u64], from: usize, i: usize, at: usize) -> Listed
        requires below { i < count_of self.now }
        requires room { (at + sizes (exprs_from (constraints_of self.now) i) + extra (exprs_from (constraints_of self.now) i) + 2) * 4 ≤ most_words }
        ensures { WrittenList from (exprs_from (constraints_of self.now) i) (Expr.challenge (self.now.words.now.params.num_challenges + 2)) at out.old out.new result.next result.base }
    {
        let params = self.words.params;
        let n = num_constraints(self.words.roots.len(), Numbers { params });
        let x = self.constraint(out, from, i, at);
        if i + 1 < n {
            let l = self.constraint_items(out, from, i + 1, x);
            let next = item(out, from, x, l.next);
            return Listed { next, base: l.base };
        }
        list_end(out, from, x, params.num_challenges + 2)
    }

    // The constraints by powers of alpha.
    pub fn constraint_powers(&self, out: &mut [u64], from: usize, at: usize) -> usize
        requires { (at + size (distribute_powers (constraints_of self.now) (Expr.challenge (self.now.words.now.params.num_challenges + 2)))) * 4 ≤ most_words }
        ensures { ExprWritten from (distribute_powers (constraints_of self.now) (Expr.challenge (self.now.words.now.params.num_challenges + 2))) at out.old out.new result }
    {
        let params = self.words.params;
        let n = num_constraints(self.words.roots.len(), Numbers { params });
        if n == 0 {
            return push_node(out, from, at, Kind::Constant, 0, 0, 0);
        }
        if n == 1 {
            return self.constraint(out, from, 0, at);
        }
        let l = self.constraint_items(out, from, 0, at);
        list_head(out, from, l)
    }
}
