// The compressed columns: the sum of beta^i times expression i, at each row.
#![tactic(auto)]

ghost use Rattle.std.specs.Prelude.{◌≡◌, [], ◌∷◌, ◌+◌, ◌*◌, ◌%◌, ◌^◌, ◌≤◌, ◌<◌, length, take, drop};
ghost use Rattle.field.specs.Field.{𝔾, val};
ghost use Rattle.field.specs.Element.{elem};
ghost use Rattle.lists.specs.Lists.{tabulate, write_at, split, total};
ghost use Rattle.expression.specs.Nodes.{expr_of};
ghost use Rattle.expression.specs.Value.{value_at};
ghost use Rattle.expression.specs.Point.{PointInOrder, environment_of};
ghost use Rattle.expression_evaluate.specs.Environment.{environment};
ghost use Rattle.backend.specs.Circuit.{pairs_of};
ghost use Rattle.backend.specs.Constraints.{inputs_of, tables_of};
ghost use Rattle.prover.specs.Words.{words_of};
ghost use Rattle.prover.specs.Lent.{Given, environment_from_words, compressed_in, compressed_polys_in, roots_of};

use bh::{row_after, rows_of};
use expression::poly::Layout;
use expression::value::Point;
use expression_evaluate::evaluation::Evaluation;
use expression_walk::lower;
use field::goldilocks::Goldilocks;
use prover::Roots;

// What compressed columns are made with: where the given polynomials stand, of 2^k rows; beta; and the word of the column buffer
// that the first begins at, behind the instance columns.
#[derive(Clone, Copy)]
pub struct CompressedPolys {
    pub layout: Layout,
    pub k: usize,
    pub beta: Goldilocks,
    pub to: usize,
    pub ghost small: { (0 < k) × (k < 21) },
    pub ghost given: { Given k layout },
    pub ghost before: { layout.instances * 2 ^ k ≤ to },
}

// The words that are lent: those of the nodes, those that a node may read, and the lookups: how many pairs each has, and the pairs
// (input root, table root) of one after another.
#[derive(Clone, Copy)]
pub struct Lent<'a> {
    pub nodes: &'a [u64],
    pub circuit: &'a [u64],
    pub witness: &'a [u64],
    pub challenges: &'a [u64],
    pub widths: &'a [u64],
    pub pairs: &'a [u64],
    pub ghost whole: { length nodes.now % 4 ≡ 0 },
    pub ghost paired: { total widths.now * 2 ≤ length pairs.now },
}

// The expressions at some of the lookups' roots.
#[derive(Clone, Copy)]
struct Expressions<'a> {
    nodes: &'a [u64],
    pairs: &'a [u64],
    roots: Roots,
    ghost whole: { length nodes.now % 4 ≡ 0 },
    ghost inside: { (roots.start + roots.width) * 2 ≤ length pairs.now },
    ghost side: { roots.side < 2 },
}

impl Expressions<'_> {
    // The value of the expression at a root, 0 where there is no such node.
    fn value_of_root(&self, over: &Evaluation, root: u64) -> Goldilocks
        ensures { elem result ≡ value_at 𝔾 (environment over.now) (expr_of self.now.nodes.now root) over.now.point.row }
    {
        lower(over, self.nodes, self.nodes.len() / 4, root)
    }

    // The compressed value at the point of the evaluation.
    fn compressed_over(&self, over: &Evaluation, beta: Goldilocks) -> Goldilocks
        ensures { elem result ≡ compressed_in 𝔾 (environment over.now) (elem beta) (roots_of self.now.nodes.now self.now.pairs.now self.now.roots) over.now.point.row }
    {
        let roots = self.roots;
        let mut sum = Goldilocks::ZERO;
        let mut power = Goldilocks::ONE;
        for i in 0..roots.width {
            let root = self.pairs[(roots.start + i) * 2 + roots.side];
            let x = self.value_of_root(over, root);
            sum = sum + power * x;
            power = power * beta;
        }
        sum
    }
}

impl Lent<'_> {
    // The compressed value at a point: the evaluation is made once for all its expressions.
    fn compressed_at(
        &self,
        columns: &[u64],
        polys: CompressedPolys,
        of: &Expressions,
        point: Point,
    ) -> Goldilocks
        requires { PointInOrder point }
        ensures { elem result ≡ compressed_in 𝔾 (environment_of self.now.circuit.now self.now.witness.now columns.now self.now.challenges.now polys.layout point) (elem polys.beta) (roots_of of.now.nodes.now of.now.pairs.now of.now.roots) point.row }
    {
        let over = Evaluation {
            circuit: self.circuit,
            witness: self.witness,
            columns,
            challenges: self.challenges,
            layout: polys.layout,
            point,
        };
        of.compressed_over(&over, polys.beta)
    }

    // One compressed column, through the row order once.
    fn lookup_compressed_poly(&self, columns: &mut [u64], polys: CompressedPolys, of: &Expressions)
        requires { polys.to + 2 ^ polys.k ≤ length columns.old }
        ensures { columns.new ≡ write_at columns.old polys.to (tabulate (λ b. val (compressed_in 𝔾 (environment_from_words self.now.circuit.now self.now.witness.now columns.old self.now.challenges.now polys.layout polys.k) (elem polys.beta) (roots_of of.now.nodes.now of.now.pairs.now of.now.roots) b)) (2 ^ polys.k)) }
    {
        let rows = rows_of(polys.k);
        let given = polys.layout.instances * rows;
        let mut row: usize = 0;
        for place in 0..rows {
            let point = Point {
                k: polys.k,
                row,
                place,
                eq: 0,
            };
            let x = self.compressed_at(&columns[0..given], polys, of, point);
            columns[polys.to + row] = u64::from(x);
            row = row_after(row, place, polys.k);
        }
    }

    // Both columns of a lookup: the input, whose roots are given, and the table behind it.
    fn compressed_pair(
        &self,
        columns: &mut [u64],
        polys: CompressedPolys,
        start: usize,
        width: usize,
    )
        requires { (polys.to + (2 ^ polys.k + 2 ^ polys.k) ≤ length columns.old) × ((start + width) * 2 ≤ length self.now.pairs.now) }
        ensures { columns.new ≡ write_at columns.old polys.to (words_of (2 ^ polys.k) (compressed_in 𝔾 (environment_from_words self.now.circuit.now self.now.witness.now columns.old self.now.challenges.now polys.layout polys.k) (elem polys.beta) (inputs_of (take width (drop start (pairs_of self.now.nodes.now self.now.pairs.now)))) ∷ compressed_in 𝔾 (environment_from_words self.now.circuit.now self.now.witness.now columns.old self.now.challenges.now polys.layout polys.k) (elem polys.beta) (tables_of (take width (drop start (pairs_of self.now.nodes.now self.now.pairs.now)))) ∷ [])) }
    {
        let inputs = Expressions {
            nodes: self.nodes,
            pairs: self.pairs,
            roots: Roots {
                start,
                width,
                side: 0,
            },
        };
        self.lookup_compressed_poly(columns, polys, &inputs);
        let tables = Expressions {
            nodes: self.nodes,
            pairs: self.pairs,
            roots: Roots {
                start,
                width,
                side: 1,
            },
        };
        let behind = CompressedPolys {
            layout: polys.layout,
            k: polys.k,
            beta: polys.beta,
            to: polys.to + rows_of(polys.k),
        };
        self.lookup_compressed_poly(columns, behind, &tables);
    }

    // The compressed columns of all lookups, of these widths: input 0, table 0, input 1, table 1, ..
    pub fn lookup_compressed_polys(&self, columns: &mut [u64], polys: CompressedPolys)
        requires { polys.to + length self.now.widths.now * (2 ^ polys.k + 2 ^ polys.k) ≤ length columns.old }
        ensures { columns.new ≡ write_at columns.old polys.to (words_of (2 ^ polys.k) (compressed_polys_in 𝔾 (environment_from_words self.now.circuit.now self.now.witness.now columns.old self.now.challenges.now polys.layout polys.k) (elem polys.beta) (split self.now.widths.now (pairs_of self.now.nodes.now self.now.pairs.now)))) }
    {
        let rows = rows_of(polys.k);
        let mut start: usize = 0;
        let mut at = polys.to;
        for word in self.widths {
            let width = *word as usize;
            let here = CompressedPolys {
                layout: polys.layout,
                k: polys.k,
                beta: polys.beta,
                to: at,
            };
            self.compressed_pair(columns, here, start, width);
            start += width;
            at += rows + rows;
        }
    }
}
