// What a circuit asks for, from its words alone: column words, nodes and node visits. Nothing is built: no column, no node word.
#![tactic(auto)]

ghost use Rattle.std.specs.Prelude.{◌≡◌};
ghost use Rattle.hyperplonk_spec.specs.Sizes.{sizes_of, Foretells};

use hyperplonk_prepare::circuit::AcceptedCircuit;
use hyperplonk_prepare::needed::PreparedCircuit;
use hyperplonk_spec::Sizes;

// What the circuit asks for: one definition's, for any words; and what it tells of the building call and of an evaluation holds. "A refusal
// returns three zeros after its number."
pub fn sizes(circuit: &[u64]) -> Sizes
    ensures { (result ≡ sizes_of circuit.now) × Foretells circuit.now result }
{
    match AcceptedCircuit::new(circuit) {
        Ok(accepted) => {
            let prepared = PreparedCircuit::new(accepted);
            Sizes {
                number: 0,
                column_words: prepared.column_words(),
                nodes: prepared.composed_nodes(),
                visits: prepared.composed_visits(),
            }
        }
        Err(number) => Sizes {
            number,
            column_words: 0,
            nodes: 0,
            visits: 0,
        },
    }
}
