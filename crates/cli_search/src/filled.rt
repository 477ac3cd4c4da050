// The columns before m, filled anew.
ghost use Rattle.std.specs.Prelude.{◌≡◌, ◌≤◌, length, IfSome};
ghost use Rattle.backend.specs.Circuit.{circuit_of};
ghost use Rattle.hyperplonk_spec.specs.Build.{column_words};

use hyperplonk_columns::columns_before_m;
use hyperplonk_prepare::circuit::AcceptedCircuit;
use hyperplonk_prepare::inputs::{Inputs, LentLog};
use hyperplonk_prepare::needed::PreparedCircuit;

// Fills the instance, permutation and compressed columns. None where the circuit words are refused, the words beside them have not the
// lengths, or the buffer has no room for all columns.
pub(crate) fn fill<'a>(
    circuit: &'a [u64],
    instance: &'a [u64],
    witness: &'a [u64],
    challenges: &'a [u64],
    columns: &mut [u64],
) -> Option<PreparedCircuit<'a>>
    ensures circuit { IfSome result (λ p. p.circuit.words.now ≡ circuit.now) }
    ensures room { IfSome result (λ p. column_words (circuit_of circuit.now) ≤ length columns.new) }
{
    let accepted = AcceptedCircuit::new(circuit).ok()?;
    let inputs = Inputs {
        instance,
        witness,
        challenges,
    };
    if !accepted.question_12(&inputs) {
        return None;
    }
    let prepared = PreparedCircuit::new(accepted);
    if prepared.column_words() > columns.len() {
        return None;
    }
    let log = LentLog { prepared, inputs };
    columns_before_m(&log, columns);
    Some(log.prepared)
}
