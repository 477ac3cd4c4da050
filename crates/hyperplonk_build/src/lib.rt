// The building call: the questions in their order, then the columns and the nodes.
#![tactic(auto)]

ghost use Rattle.std.specs.Prelude.{◌≡◌, true};
ghost use Rattle.backend.specs.Circuit.{circuit_of};
ghost use Rattle.hyperplonk_spec.specs.Build.{Output, q14, build_log, build_of, lent_build};
ghost use Rattle.hyperplonk_spec.specs.Demand.{DemandThreeAt};
ghost use Rattle.hyperplonk_prepare.specs.Log.{lent_log};
ghost use Rattle.hyperplonk_build.specs.Answer.{answered};

use hyperplonk_columns::write_columns;
use hyperplonk_nodes::compose_nodes;
use hyperplonk_prepare::circuit::AcceptedCircuit;
use hyperplonk_prepare::inputs::{Inputs, LentLog};
use hyperplonk_prepare::needed::PreparedCircuit;
use hyperplonk_spec::Built;

// Questions 15 and 17 and after, once 1 to 14 are answered yes.
fn build_checked(log: &LentLog, columns: &mut [u64], nodes: &mut [u64]) -> Result<Built, u64>
    requires { q14 (circuit_of log.now.prepared.circuit.words.now) columns.old nodes.old ≡ true }
    ensures { record { answer = answered result; columns = columns.new; nodes = nodes.new } ≡ build_log (lent_log log.now) columns.old nodes.old }
{
    write_columns(log, columns)?;
    let words = log.prepared.column_words();
    let count = compose_nodes(&log.prepared, 0, nodes);
    Ok(Built {
        number: 0,
        column_words: words,
        nodes: count,
        z_columns: log.prepared.params.num_chunks,
    })
}

// What is built, or the number of the first question that is answered no.
fn asked<'a>(
    circuit: &'a [u64],
    inputs: Inputs<'a>,
    columns: &mut [u64],
    nodes: &mut [u64],
) -> Result<Built, u64>
    ensures { record { answer = answered result; columns = columns.new; nodes = nodes.new } ≡ build_of (lent_build circuit.now inputs.entry.instance.now inputs.entry.witness.now inputs.entry.challenges.now columns.old nodes.old) }
{
    let accepted = AcceptedCircuit::new(circuit)?;
    // Kept: the error is a question's number, which the call answers to C.
    if !accepted.question_12(&inputs) {
        return Err(12);
    }
    if !inputs.question_13() {
        return Err(13);
    }
    let prepared = PreparedCircuit::new(accepted);
    if !prepared.question_14(columns.len(), nodes.len()) {
        return Err(14);
    }
    let log = LentLog { prepared, inputs };
    build_checked(&log, columns, nodes)
}

// The building call. What it returns and leaves is document 01's, for any words and buffers; and so demand 3 holds of it. "A refusal
// returns three zeros after its number."
pub fn build<'a>(
    circuit: &'a [u64],
    instance: &[u64],
    witness: &'a [u64],
    challenges: &'a [u64],
    columns: &mut [u64],
    nodes: &mut [u64],
) -> Built
    ensures { (let lent = lent_build circuit.now instance.now witness.now challenges.now columns.old nodes.old in let left : Output = record { answer = result; columns = columns.new; nodes = nodes.new } in (left ≡ build_of lent) × DemandThreeAt lent left) }
{
    let inputs = Inputs {
        instance,
        witness,
        challenges,
    };
    match asked(circuit, inputs, columns, nodes) {
        Ok(built) => built,
        Err(number) => Built {
            number,
            column_words: 0,
            nodes: 0,
            z_columns: 0,
        },
    }
}
