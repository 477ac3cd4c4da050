// Rust `compose`: the composed expression, written as node words into a lent buffer.
#![tactic(auto)]

mod constraints;
pub mod count;
pub mod words;

ghost use Rattle.std.specs.Prelude.{◌+◌, ◌-◌, ◌*◌, ◌≤◌, ◌<◌};
ghost use Rattle.expression.specs.Expr.{Expr};
ghost use Rattle.expression.specs.Flat.{size, sizes, extra};
ghost use Rattle.expression.specs.Written.{most_words, ExprWritten, WrittenList};
ghost use Rattle.backend.specs.Circuit.{Circuit};
ghost use Rattle.preprocessor.specs.ComposeWords.{exprs_from, Composed};
ghost use Rattle.preprocessor_compose.specs.Input.{zero_of, outer_of, tree_of, IsInputOf};

use crate::words::Input;
use expression::kind::Kind;
use expression_write::operations::{item, list_end, list_head, product, query};
use expression_write::{Listed, push_node};

impl Input<'_> {
    // The zero check: the constraints by powers of alpha, times EqXY(0).
    fn zero_check(&self, out: &mut [u64], from: usize, at: usize) -> usize
        requires { (at + size (zero_of self.now)) * 4 ≤ most_words }
        ensures { ExprWritten from (zero_of self.now) at out.old out.new result }
    {
        let x = self.constraint_powers(out, from, at);
        let y = push_node(out, from, x, Kind::EqXy, 0, 0, 0);
        product(out, from, x, y)
    }

    // The h queries from number i on, the zero check, the base, the Items.
    fn outer_items(&self, out: &mut [u64], from: usize, i: usize, at: usize) -> Listed
        requires below { i ≤ self.now.words.now.params.num_groups }
        requires room { (at + sizes (exprs_from (outer_of self.now) i) + extra (exprs_from (outer_of self.now) i) + 2) * 4 ≤ most_words }
        ensures { WrittenList from (exprs_from (outer_of self.now) i) (Expr.challenge (self.now.words.now.params.num_challenges + 2)) at out.old out.new result.next result.base }
    {
        let params = self.words.params;
        if i < params.num_groups {
            let h = params.num_poly + params.num_permutation_polys + params.num_groups + i;
            let x = query(out, from, at, h as u64);
            let l = self.outer_items(out, from, i + 1, x);
            let next = item(out, from, x, l.next);
            return Listed { next, base: l.base };
        }
        let x = self.zero_check(out, from, at);
        list_end(out, from, x, params.num_challenges + 2)
    }

    // The composed expression from node 0 on.
    fn outer(&self, out: &mut [u64], from: usize) -> usize
        requires { size (tree_of self.now) * 4 ≤ most_words }
        ensures { ExprWritten from (tree_of self.now) 0 out.old out.new result }
    {
        if self.words.params.num_groups == 0 {
            return self.zero_check(out, from, 0);
        }
        let l = self.outer_items(out, from, 0, 0);
        list_head(out, from, l)
    }
}

// Rust `compose`: the node words of the composed expression into the first words of `out`; returns the number of nodes.
pub fn compose(input: &Input, out: &mut [u64], from: usize) -> usize
    requires { size (tree_of input.now) * 4 ≤ most_words }
    ensures { (c : Circuit) → IsInputOf c input.now → Composed from c out.old out.new result }
{
    input.outer(out, from)
}
