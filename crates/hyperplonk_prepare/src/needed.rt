// What is computed once from accepted circuit words: the copied columns, the sizes of the groups and the numbers that the composed
// expression names; and from these how many words the columns and the nodes need, how many nodes an evaluation visits, and question 14,
// whether the buffers have the words. Nothing is built: the nodes are counted.
ghost use Rattle.std.specs.Prelude.{◌≡◌, List, ℕ, ◌≤◌, min, length};
ghost use Rattle.expression.specs.Flat.{largest_size};
ghost use Rattle.expression.specs.Walks.{weight};
ghost use Rattle.backend.specs.Circuit.{circuit_of, group_sizes};
ghost use Rattle.backend.specs.Circuit as def;
ghost use Rattle.preprocessor.specs.Compose.{compose, composed_nodes, params_of};
ghost use Rattle.preprocessor.specs.ComposeWords.{DecodedFrom};
ghost use Rattle.preprocessor_compose.specs.Counted.{item_of};
ghost use Rattle.hyperplonk_spec.specs.Build.{column_words, q14};
ghost use Rattle.hyperplonk_spec.specs.Sizes.{composed_visits, most_nodes};

use crate::circuit::AcceptedCircuit;
use arrayvec::ArrayVec;
use backend::MAX_POLYS;
use backend_sections::contents::INSTANCE_COUNT;
use preprocessor::CircuitParams;
use preprocessor_compose::count::Counted;
use preprocessor_compose::words::CircuitWords;

// An accepted circuit with what is computed from it.
#[derive(Drop)]
pub struct PreparedCircuit<'a> {
    pub circuit: AcceptedCircuit<'a>,
    pub params: CircuitParams,
    copied: ArrayVec<u64, MAX_POLYS>,
    sizes: ArrayVec<u64, 8>,
    pub ghost params_are: { params ≡ params_of (circuit_of circuit.words.now) },
    ghost copied_are: { copied.items ≡ def.copied (circuit_of circuit.words.now) },
    ghost sizes_are: { sizes.items ≡ group_sizes (circuit_of circuit.words.now).groups },
}

impl<'a> PreparedCircuit<'a> {
    pub fn new(circuit: AcceptedCircuit<'a>) -> Self
        ensures { result.circuit.words.now ≡ circuit.entry.words.now }
    {
        let copied = circuit.copied();
        let sizes = circuit.group_sizes();
        let params = circuit.params(copied.len(), sizes.len());
        PreparedCircuit {
            circuit,
            params,
            copied,
            sizes,
        }
    }

    // The copied columns.
    pub fn copied(&self) -> &[u64]
        ensures { result.now ≡ def.copied (circuit_of self.now.circuit.words.now) }
    {
        self.copied.as_slice()
    }

    // How many lookups each group has.
    pub fn group_sizes(&self) -> &[u64]
        ensures { result.now ≡ group_sizes (circuit_of self.now.circuit.words.now).groups }
    {
        self.sizes.as_slice()
    }

    // The column words needed.
    pub fn column_words(&self) -> usize
        ensures { result ≡ column_words (circuit_of self.now.circuit.words.now) }
    {
        let params = self.params;
        let instances = self.circuit.words[INSTANCE_COUNT] as usize;
        (instances
            + params.num_permutation_polys
            + params.num_lookups * 2
            + params.num_groups * 2
            + params.num_chunks)
            * params.rows
    }

    // The words from which the composed expression is made.
    pub fn circuit_words(&self) -> CircuitWords<'_>
        ensures { DecodedFrom (circuit_of self.now.circuit.words.now) result.params (def.copied (circuit_of self.now.circuit.words.now)) result.user.now result.roots.now result.sizes.now result.widths.now result.pairs.now }
    {
        let laid = self.circuit.circuit().laid();
        let user = laid.nodes();
        let roots = laid.constraints();
        let widths = laid.widths();
        let pairs = laid.pairs();
        let sizes = self.group_sizes();
        let params = self.params;
        CircuitWords {
            user,
            roots,
            sizes,
            widths,
            pairs,
            params,
        }
    }

    // The nodes of the composed expression, or those that an evaluation of it visits; no more than 2^60 are counted.
    fn composed_count(&self, counted: Counted) -> u64
        ensures { result ≡ min largest_size (weight (item_of counted) (compose (circuit_of self.now.circuit.words.now))) }
    {
        let words = self.circuit_words();
        preprocessor_compose::count::composed_nodes(&words, counted)
    }

    // The nodes that the composed expression takes.
    pub fn composed_nodes(&self) -> usize
        ensures nodes { result ≡ composed_nodes (circuit_of self.now.circuit.words.now) }
        ensures few { result ≤ most_nodes }
    {
        self.composed_count(Counted::Nodes) as usize
    }

    // The nodes that one evaluation of it visits: its Items are not.
    pub fn composed_visits(&self) -> usize
        ensures { result ≡ composed_visits (circuit_of self.now.circuit.words.now) }
    {
        self.composed_count(Counted::Visits) as usize
    }

    // Question 14, of buffers of so many words.
    pub fn question_14(&self, columns: usize, nodes: usize) -> bool
        ensures { (cs ns : List ℕ) → length cs ≡ columns → length ns ≡ nodes → result ≡ q14 (circuit_of self.now.circuit.words.now) cs ns }
    {
        let words = self.column_words();
        let composed = self.composed_nodes();
        (words <= columns) & (composed * 4 <= nodes)
    }
}
