// Question 10, the limits of the degrees, put to circuit words.
ghost use Rattle.std.specs.Prelude.{◌≡◌, true};
ghost use Rattle.backend.specs.Circuit.{circuit_of};
ghost use Rattle.backend.specs.Questions.{q7, q10, q18};

use backend_nodes::degrees::{degrees_fit, degrees_of};
use backend_sections::reader::Circuit;

// Question 10, once 7 and 18 have been answered yes.
pub fn question_10(circuit: Circuit) -> bool
    requires { (q7 (circuit_of circuit.words.now) ≡ true) × (q18 (circuit_of circuit.words.now) ≡ true) }
    ensures { result ≡ q10 (circuit_of circuit.entry.words.now) }
{
    let d = degrees_of(circuit);
    degrees_fit(d)
}
