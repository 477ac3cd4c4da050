// Questions 7 and 8, put to the sections of circuit words.
ghost use Rattle.std.specs.Prelude.{◌≡◌};
ghost use Rattle.backend.specs.Circuit.{circuit_of};
ghost use Rattle.backend.specs.Questions.{q7, q8};

use backend_nodes::layout::{laid_out, nodes_in_range};
use backend_sections::reader::{Circuit, Laid, k_of};

// Question 7.
pub fn question_7(laid: Laid) -> bool
    ensures { result ≡ q7 (circuit_of laid.entry.words.now) }
{
    let nodes = laid.nodes();
    let constraints = laid.constraints();
    let pairs = laid.pairs();
    laid_out(nodes, constraints, pairs)
}

// Question 8.
pub fn question_8(circuit: Circuit) -> bool
    ensures { result ≡ q8 (circuit_of circuit.entry.words.now) }
{
    let nodes = circuit.laid().nodes();
    let polys = circuit.num_poly();
    let user = circuit.num_user();
    let k = k_of(circuit.words);
    nodes_in_range(nodes, polys, user, k)
}
