// The lookups of circuit words for which question 7 is yes.
ghost use Rattle.std.specs.Prelude.{◌≡◌, true, ◌/◌, length};
ghost use Rattle.lists.specs.Lists.{all_of, total};
ghost use Rattle.backend.specs.Circuit.{Section, body_of, circuit_of};
ghost use Rattle.backend.specs.Layout.{is_root};
ghost use Rattle.backend.specs.Questions.{q7};

use backend_sections::reader::Circuit;

// The node words, how many pairs of roots each lookup has, and the pairs, whose words are all roots.
#[derive(Clone, Copy)]
pub struct Lookups<'a> {
    pub nodes: &'a [u64],
    pub widths: &'a [u64],
    pub pairs: &'a [u64],
    pub ghost roots: { all_of (is_root nodes.now) pairs.now ≡ true },
    pub ghost all_pairs: { total widths.now ≡ length pairs.now / 2 },
}

impl<'a> Lookups<'a> {
    // The lookups of a circuit, once 7 has been answered yes.
    pub fn new(circuit: Circuit<'a>) -> Lookups<'a>
        requires { q7 (circuit_of circuit.words.now) ≡ true }
        ensures nodes { result.nodes.now ≡ body_of circuit.entry.words.now Section.nodes }
        ensures widths { result.widths.now ≡ body_of circuit.entry.words.now Section.widths }
        ensures pairs { result.pairs.now ≡ body_of circuit.entry.words.now Section.pairs }
    {
        let laid = circuit.laid();
        let nodes = laid.nodes();
        let widths = laid.widths();
        let pairs = laid.pairs();
        Lookups {
            nodes,
            widths,
            pairs,
        }
    }
}
