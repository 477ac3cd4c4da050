// The node words of accepted circuit words' composed expression: written, whole or in a window, and compared with lent ones.
#![tactic(auto)]

ghost use Rattle.std.specs.Prelude.{◌≡◌, ◌+◌, ◌-◌, ◌*◌, ◌≤◌, length, take, drop};
ghost use Rattle.lists.specs.Lists.{same_words};
ghost use Rattle.backend.specs.Circuit.{circuit_of};
ghost use Rattle.preprocessor.specs.Compose.{composed_words, composed_nodes};
ghost use Rattle.preprocessor.specs.ComposeWords.{Composed};

use hyperplonk_prepare::needed::PreparedCircuit;
use preprocessor_compose::compose;
use preprocessor_compose::words::Input;

// The words that are composed at a time to be compared.
const WINDOW: usize = 2048;

// The composed nodes that fall into `nodes`, which stands for the words from word `from` on; returns the number of nodes.
pub fn compose_nodes(prepared: &PreparedCircuit, from: usize, nodes: &mut [u64]) -> usize
    ensures { Composed from (circuit_of prepared.now.circuit.words.now) nodes.old nodes.new result }
{
    let words = prepared.circuit_words();
    let copied = prepared.copied();
    let input = Input {
        words: &words,
        copied,
    };
    compose(&input, nodes, from)
}

// Are words `at` to `end` of `nodes` those of the composed expression?
fn same_window(prepared: &PreparedCircuit, nodes: &[u64], at: usize, end: usize) -> bool
    requires length { length nodes.now ≡ composed_nodes (circuit_of prepared.now.circuit.words.now) * 4 }
    requires order { at ≤ end }
    requires inside { end ≤ length nodes.now }
    requires short { end ≤ at + 2048 }
    ensures { result ≡ same_words (take (end - at) (drop at nodes.now)) (take (end - at) (drop at (composed_words (circuit_of prepared.now.circuit.words.now)))) }
{
    let mut window = [0; WINDOW];
    compose_nodes(prepared, at, &mut window);
    nodes[at..end] == window[..end - at]
}

// Are these the node words that building writes? They are composed window by window, and compared.
pub fn same_nodes(prepared: &PreparedCircuit, nodes: &[u64]) -> bool
    requires { length nodes.now ≡ composed_nodes (circuit_of prepared.now.circuit.words.now) * 4 }
    ensures { result ≡ same_words nodes.now (composed_words (circuit_of prepared.now.circuit.words.now)) }
{
    for i in 0..nodes.len().div_ceil(WINDOW) {
        let at = i * WINDOW;
        let end = nodes.len().min(at + WINDOW);
        if !same_window(prepared, nodes, at, end) {
            return false;
        }
    }
    true
}
