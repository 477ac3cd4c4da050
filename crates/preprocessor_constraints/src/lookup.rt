// A lookup's inputs and tables by powers of beta, with gamma, written as node words into a lent buffer.
ghost use Rattle.std.specs.Prelude.{◌≡◌, ◌+◌, ◌*◌, ◌≤◌, ◌<◌, length};
ghost use Rattle.lists.specs.Lists.{total, All};
ghost use Rattle.expression.specs.Expr.{Expr, distribute_powers};
ghost use Rattle.expression.specs.Flat.{size, sizes, extra};
ghost use Rattle.expression.specs.Written.{most_words, ExprWritten, WrittenList};
ghost use Rattle.preprocessor.specs.ComposeWords.{side_tree, exprs_from, IsNode};
ghost use Rattle.preprocessor_constraints.specs.Unique.{nodes-prop};

use crate::Span;
use expression::kind::Kind;
use expression_write::operations::{challenge, item, list_end, list_head, sum};
use expression_write::{Listed, copy_expr, push_node};
use lists::sum_before;

// What a lookup looks up, and where: a pair of roots has one of each.
#[derive(Clone, Copy)]
pub enum LookupSide {
    Input,
    Table,
}

impl LookupSide {
    ghost use Rattle.preprocessor_constraints.specs.Lookups.{word_of};

    // Which word of a pair is this side's root.
    fn word(self) -> usize
        ensures { result ≡ word_of self }
    {
        match self {
            LookupSide::Input => 0,
            LookupSide::Table => 1,
        }
    }
}

// The user's node words, and the lookups over them: how many pairs of roots each has, and the pairs; with the number of the challenge
// beta, whose powers join the expressions of a side.
#[derive(Clone, Copy)]
pub struct Lookups<'a> {
    pub user: &'a [u64],
    pub widths: &'a [u64],
    pub pairs: &'a [u64],
    pub beta: usize,
    pub ghost few_challenges: { beta ≤ 16 },
    pub ghost all_pairs: { total widths.now * 2 ≤ length pairs.now },
    pub ghost pairs_named: { All (IsNode user.now) pairs.now } by { nodes-prop user.now pairs.now },
}

impl Lookups<'_> {
    ghost use Rattle.preprocessor_constraints.specs.Lookups.{exprs_of, side_of};

    // Where the roots of lookup i's side stand.
    pub fn roots(&self, side: LookupSide, i: usize) -> Span
        requires { i < length self.now.widths.now }
        ensures inside { result.first + result.count * 2 ≤ length self.now.pairs.now + 1 }
        ensures tree { side_of side self.now i ≡ side_tree self.now.user.now self.now.pairs.now self.now.beta result.first result.count }
    {
        let first = sum_before(self.widths, i) * 2 + side.word();
        let count = self.widths[i] as usize;
        Span { first, count }
    }

    // The expressions with these roots from number i on, the base, the Items.
    fn side_items(&self, roots: Span, out: &mut [u64], from: usize, i: usize, at: usize) -> Listed
        requires bound { roots.first + roots.count * 2 ≤ length self.now.pairs.now + 1 }
        requires below { i < roots.count }
        requires room { (at + sizes (exprs_from (exprs_of self.now roots.first roots.count) i) + extra (exprs_from (exprs_of self.now roots.first roots.count) i) + 2) * 4 ≤ most_words }
        ensures { WrittenList from (exprs_from (exprs_of self.now roots.first roots.count) i) (Expr.challenge self.now.beta) at out.old out.new result.next result.base }
    {
        let n = self.pairs[roots.first + i * 2] as usize;
        let x = copy_expr(self.user, out, from, n, at);
        if i + 1 < roots.count {
            let l = self.side_items(roots, out, from, i + 1, x);
            let next = item(out, from, x, l.next);
            return Listed { next, base: l.base };
        }
        list_end(out, from, x, self.beta)
    }

    // The expressions with these roots by powers of beta.
    fn side_powers(&self, roots: Span, out: &mut [u64], from: usize, at: usize) -> usize
        requires bound { roots.first + roots.count * 2 ≤ length self.now.pairs.now + 1 }
        requires room { (at + size (distribute_powers (exprs_of self.now roots.first roots.count) (Expr.challenge self.now.beta))) * 4 ≤ most_words }
        ensures { ExprWritten from (distribute_powers (exprs_of self.now roots.first roots.count) (Expr.challenge self.now.beta)) at out.old out.new result }
    {
        if roots.count == 0 {
            return push_node(out, from, at, Kind::Constant, 0, 0, 0);
        }
        if roots.count == 1 {
            let n = self.pairs[roots.first] as usize;
            return copy_expr(self.user, out, from, n, at);
        }
        let l = self.side_items(roots, out, from, 0, at);
        list_head(out, from, l)
    }

    // input + gamma, or table + gamma, of lookup i
    pub fn side(&self, side: LookupSide, out: &mut [u64], from: usize, i: usize, at: usize) -> usize
        requires below { i < length self.now.widths.now }
        requires room { (at + size (side_of side self.now i)) * 4 ≤ most_words }
        ensures { ExprWritten from (side_of side self.now i) at out.old out.new result }
    {
        let roots = self.roots(side, i);
        let x = self.side_powers(roots, out, from, at);
        let gamma = challenge(out, from, x, (self.beta + 1) as u64);
        sum(out, from, x, gamma)
    }
}
