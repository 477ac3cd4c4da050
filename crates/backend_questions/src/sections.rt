// Questions 5, 6 and 9.
ghost use Rattle.std.specs.Prelude.{◌≡◌};
ghost use Rattle.backend.specs.Circuit.{circuit_of};
ghost use Rattle.backend.specs.Questions.{rounds_good, values_small, q5, q6, q9};

use backend_sections::contents::{CONSTRAINT_COUNT, LENGTH_COUNT, WIDTH_COUNT};
use backend_sections::reader::{Circuit, Laid};
use backend_sections::words::{all_below, all_elements, all_positive, is_element};
use expression::kind::Kind;

// "Has every round a witness column, every round but the last a challenge"
fn rounds_good(laid: Laid) -> bool
    ensures { result ≡ rounds_good (circuit_of laid.entry.words.now).rounds }
{
    let rounds = laid.rounds();
    let count = rounds.len() / 2;
    let witness = all_positive(rounds, 2, 0, count);
    let user = all_positive(rounds, 2, 1, count - 1);
    witness & user
}

// Question 5.
pub fn question_5(laid: Laid) -> bool
    ensures { result ≡ q5 (circuit_of laid.entry.words.now) }
{
    let good = rounds_good(laid);
    let rows = laid.rows();
    let short = all_below(laid.instances(), rows);
    good & short
}

// Are Constants and scalars below p? Kinds 1 and 10 alone hold them.
fn values_small(nodes: &[u64]) -> bool
    ensures { result ≡ values_small nodes.now }
{
    for i in 0..nodes.len() / 4 {
        let kind = nodes[i * 4];
        let value = nodes[i * 4 + 3];
        let held = (kind == Kind::Constant as u64) | (kind == Kind::Scaled as u64);
        let bad = held & !is_element(value);
        if bad {
            return false;
        }
    }
    true
}

// Question 6.
pub fn question_6(laid: Laid) -> bool
    ensures { result ≡ q6 (circuit_of laid.entry.words.now) }
{
    let given = all_elements(laid.preprocess());
    let values = values_small(laid.nodes());
    given & values
}

// Question 9.
pub fn question_9(circuit: Circuit) -> bool
    ensures { result ≡ q9 (circuit_of circuit.entry.words.now) }
{
    let widths = circuit.laid().widths();
    let wide = all_positive(widths, 1, 0, widths.len());
    let constraints = circuit.words[CONSTRAINT_COUNT];
    let lookups = circuit.words[WIDTH_COUNT];
    let cycles = circuit.words[LENGTH_COUNT];
    wide & ((0 < constraints) | (0 < lookups) | (0 < cycles))
}
