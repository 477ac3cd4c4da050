// hyperplonk.rs: the calls, with what each promises. `entry` has them as include/hyperplonk.h declares them, for C and Rust.
#![tactic(auto)]

pub mod entry;

ghost use Rattle.std.specs.Prelude.{◌≡◌};
ghost use Rattle.hyperplonk_spec.specs.Build.{Output, build_of, lent_build};
ghost use Rattle.hyperplonk_spec.specs.BuildAndSum.{Left, build_and_sum_of};
ghost use Rattle.hyperplonk_spec.specs.Demand.{DemandThreeAt};
ghost use Rattle.hyperplonk_spec.specs.RowSum.{row_sum_of, lent_sum};
ghost use Rattle.hyperplonk_spec.specs.RowSumClaim.{RowSumClaim};
ghost use Rattle.hyperplonk_spec.specs.Sizes.{sizes_of, Foretells};
ghost use Rattle.completeness.specs.DemandWhole.{DemandThreeWhole};

use hyperplonk_spec::{Built, RowSum, Sizes, Summed};
pub use hyperplonk_stages::{eq_xy, lookup_h_poly, lookup_m_poly};

// Kept: `sizes`, `build` and `row_sum` are functions and not a `pub use` like the three stages, since what demand 3 promises of them (`Foretells`, `DemandThreeAt`, `RowSumClaim`) is read here, and must-fail edits show here that it is proved.

// What a circuit asks for, before there is a log: the words that building needs, and the nodes that one evaluation on one row visits.
pub fn sizes(circuit: &[u64]) -> Sizes
    ensures { (result ≡ sizes_of circuit.now) × Foretells circuit.now result }
{
    hyperplonk_sizes::sizes(circuit)
}

// The building call.
pub fn build(
    circuit: &[u64],
    instance: &[u64],
    witness: &[u64],
    challenges: &[u64],
    columns: &mut [u64],
    nodes: &mut [u64],
) -> Built
    ensures { (let lent = lent_build circuit.now instance.now witness.now challenges.now columns.old nodes.old in let left : Output = record { answer = result; columns = columns.new; nodes = nodes.new } in (left ≡ build_of lent) × DemandThreeAt lent left) }
{
    hyperplonk_build::build(circuit, instance, witness, challenges, columns, nodes)
}

// The row sum.
pub fn row_sum(
    circuit: &[u64],
    witness: &[u64],
    columns: &[u64],
    nodes: &[u64],
    challenges: &[u64],
    y: &[u64],
) -> RowSum
    ensures { let lent = lent_sum circuit.now witness.now columns.now nodes.now challenges.now y.now in (result ≡ row_sum_of lent) × RowSumClaim lent result }
{
    hyperplonk_row_sum::row_sum(circuit, witness, columns, nodes, challenges, y)
}

// Builds with all challenges but the last, α, and then sums what was written over the rows, with all challenges and y. What it returns and
// leaves is one definition's, for any words and buffers; and demand 3 holds of it.
// Kept: seven parameters, which are those of the two calls.
pub fn build_and_sum(
    circuit: &[u64],
    instance: &[u64],
    witness: &[u64],
    challenges: &[u64],
    y: &[u64],
    columns: &mut [u64],
    nodes: &mut [u64],
) -> Summed
    ensures { (let lent = lent_build circuit.now instance.now witness.now challenges.now columns.old nodes.old in let left : Left = record { answer = result; columns = columns.new; nodes = nodes.new } in (left ≡ build_and_sum_of lent y.now) × DemandThreeWhole lent y.now left) }
{
    let count = challenges.len().saturating_sub(1);
    let b = build(
        circuit,
        instance,
        witness,
        &challenges[0..count],
        columns,
        nodes,
    );
    if b.number != 0 {
        return Summed {
            number: b.number,
            column_words: b.column_words,
            nodes: b.nodes,
            z_columns: b.z_columns,
            sum: 0,
        };
    }
    let column_words = b.column_words;
    let node_words = b.nodes * 4;
    let s = row_sum(
        circuit,
        witness,
        &columns[0..column_words],
        &nodes[0..node_words],
        challenges,
        y,
    );
    Summed {
        number: s.number,
        column_words: b.column_words,
        nodes: b.nodes,
        z_columns: b.z_columns,
        sum: s.sum,
    }
}
