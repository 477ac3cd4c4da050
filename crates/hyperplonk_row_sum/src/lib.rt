// The row sum: question 16, and the sum of the composed expression over the rows.
#![tactic(auto)]

ghost use Rattle.std.specs.Prelude.{◌≡◌, true, length};
ghost use Rattle.field.specs.Element.{elem};
ghost use Rattle.backend.specs.Circuit.{circuit_of};
ghost use Rattle.hyperplonk_spec.specs.RowSum.{q16, sum_of, row_sum_of, lent_sum};
ghost use Rattle.hyperplonk_row_sum.specs.Sum.{lengths_right, lent_small, sum_layout, answered};
ghost use Rattle.hyperplonk_spec.specs.RowSumClaim.{RowSumClaim};

use backend_sections::reader::k_of;
use backend_sections::words::all_elements;
use bh::{row_after, rows_of};
use expression::poly::Layout;
use expression::value::Point;
use expression_evaluate::evaluation::Evaluation;
use field::goldilocks::Goldilocks;
use hyperplonk_nodes::same_nodes;
use hyperplonk_prepare::circuit::AcceptedCircuit;
use hyperplonk_prepare::needed::PreparedCircuit;
use hyperplonk_spec::RowSum;
use multilinear::eq_at;

// Where the polynomials stand that the row sum reads.
fn sum_layout(prepared: &PreparedCircuit) -> Layout
    ensures { result ≡ sum_layout prepared.now.circuit.words.now }
{
    let params = prepared.params;
    Layout {
        permutations: params.num_permutation_polys,
        skipped: params.num_lookups * 2,
        rest: params.num_groups * 2 + params.num_chunks,
        ..prepared.circuit.layout()
    }
}

// The words that stand beside circuit words in a row sum.
#[derive(Clone, Copy)]
struct Lent<'a> {
    witness: &'a [u64],
    columns: &'a [u64],
    nodes: &'a [u64],
    challenges: &'a [u64],
    y: &'a [u64],
}

impl<'a> Lent<'a> {
    // Question 16, of the lengths.
    fn lengths_right(&self, prepared: &PreparedCircuit) -> bool
        ensures { result ≡ lengths_right (circuit_of prepared.now.circuit.words.now) (length self.now.witness.now) (length self.now.columns.now) (length self.now.nodes.now) (length self.now.challenges.now) (length self.now.y.now) }
    {
        let layout = sum_layout(prepared);
        let words = prepared.column_words();
        let composed = prepared.composed_nodes();
        let k = k_of(prepared.circuit.words) as usize;
        (self.witness.len() == layout.witness * layout.rows)
            & (self.columns.len() == words)
            & (self.challenges.len() == prepared.params.num_challenges + 3)
            & (self.y.len() == k)
            & (self.nodes.len() == composed * 4)
    }

    // Question 16, of the values.
    fn values_small(&self) -> bool
        ensures { result ≡ lent_small self.now.witness.now self.now.columns.now self.now.challenges.now self.now.y.now }
    {
        let first = all_elements(self.witness);
        let second = all_elements(self.columns);
        let third = all_elements(self.challenges);
        let fourth = all_elements(self.y);
        first & second & third & fourth
    }

    // Question 16.
    fn question_16(&self, prepared: &PreparedCircuit) -> bool
        ensures { result ≡ q16 (circuit_of prepared.now.circuit.words.now) self.now.witness.now self.now.columns.now self.now.nodes.now self.now.challenges.now self.now.y.now }
    {
        if !self.lengths_right(prepared) {
            return false;
        }
        if !same_nodes(prepared, self.nodes) {
            return false;
        }
        self.values_small()
    }

    // The sum of the last node's values over the rows, through the row order once, EqXY(0) at each row with it.
    fn sum_rows(&self, prepared: &PreparedCircuit<'a>) -> Goldilocks
        requires { q16 (circuit_of prepared.now.circuit.words.now) self.now.witness.now self.now.columns.now self.now.nodes.now self.now.challenges.now self.now.y.now ≡ true }
        ensures { elem result ≡ sum_of (lent_sum prepared.now.circuit.words.now self.now.witness.now self.now.columns.now self.now.nodes.now self.now.challenges.now self.now.y.now) }
    {
        let circuit = prepared.circuit.words;
        let layout = sum_layout(prepared);
        let k = k_of(circuit) as usize;
        let rows = rows_of(k);
        let root = self.nodes.len() / 4 - 1;
        let mut sum = Goldilocks::ZERO;
        let mut row: usize = 0;
        for place in 0..rows {
            let eq = eq_at(k, self.y, row).word();
            let over = Evaluation {
                circuit,
                witness: self.witness,
                columns: self.columns,
                challenges: self.challenges,
                layout,
                point: Point { k, row, place, eq },
            };
            let x = over.value(self.nodes, root);
            sum = sum + x;
            row = row_after(row, place, k);
        }
        sum
    }
}

// The sum, or the number of the first question that is answered no.
fn asked<'a>(circuit: &'a [u64], lent: &Lent<'a>) -> Result<u64, u64>
    ensures { answered result ≡ row_sum_of (lent_sum circuit.now lent.now.witness.now lent.now.columns.now lent.now.nodes.now lent.now.challenges.now lent.now.y.now) }
{
    let accepted = AcceptedCircuit::new(circuit)?;
    let prepared = PreparedCircuit::new(accepted);
    // Kept: the error is a question's number, which the call answers to C.
    if !lent.question_16(&prepared) {
        return Err(16);
    }
    let sum = lent.sum_rows(&prepared);
    Ok(u64::from(sum))
}

// The row sum: the number of the first question that is answered no and the sum 0, or 0 and the sum.
pub fn row_sum<'a>(
    circuit: &'a [u64],
    witness: &'a [u64],
    columns: &'a [u64],
    nodes: &'a [u64],
    challenges: &'a [u64],
    y: &[u64],
) -> RowSum
    ensures { let lent = lent_sum circuit.now witness.now columns.now nodes.now challenges.now y.now in (result ≡ row_sum_of lent) × RowSumClaim lent result }
{
    let lent = Lent {
        witness,
        columns,
        nodes,
        challenges,
        y,
    };
    match asked(circuit, &lent) {
        Ok(sum) => RowSum { number: 0, sum },
        Err(number) => RowSum { number, sum: 0 },
    }
}
