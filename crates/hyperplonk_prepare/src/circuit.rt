// Circuit words for which questions 1 to 11 and 18 are yes, and what is computed from them alone.
ghost use Rattle.std.specs.Prelude.{◌≡◌, ◌≤◌};
ghost use Rattle.arrayvec.specs.ArrayVec.{array_vec_len};
ghost use Rattle.lists.specs.Lists.{total};
ghost use Rattle.backend.specs.Circuit.{circuit_of, num_copied, num_groups, group_sizes, max_polys};
ghost use Rattle.backend.specs.Circuit as def;
ghost use Rattle.backend.specs.Constraints.{max_degree};
ghost use Rattle.preprocessor.specs.Compose.{params_of};
ghost use Rattle.hyperplonk_spec.specs.Build.{q12};
ghost use Rattle.hyperplonk_prepare.specs.Prepared.{Accepted, layout_from_words};

use crate::inputs::Inputs;
use arrayvec::ArrayVec;
use backend::MAX_POLYS;
use backend_nodes::degrees::{degrees_of, max_degree};
use backend_questions::accepted;
use backend_sections::contents::{INSTANCE_COUNT, PREPROCESS_COUNT, PREPROCESS_START, WIDTH_COUNT};
use backend_sections::copied::copied_columns;
use backend_sections::groups::group_sizes;
use backend_sections::reader::Circuit;
use backend_sections::words::total_to;
use expression::poly::Layout;
use preprocessor::CircuitParams;

// Words for which questions 1 to 11 and 18 are yes.
#[derive(Clone, Copy)]
pub struct AcceptedCircuit<'a> {
    pub words: &'a [u64],
    pub ghost accepted: { Accepted words.now },
}

impl<'a> AcceptedCircuit<'a> {
    ghost use Rattle.hyperplonk_prepare.specs.Answer.{IsAnswer};

    // Asks questions 1 to 11 and 18. An error is the number of the first that is answered no.
    // Kept: a question's number is document 01's name for it, and what each call returns.
    pub fn new(words: &'a [u64]) -> Result<AcceptedCircuit<'a>, u64>
        ensures { IsAnswer words.now result }
    {
        accepted(words)?;
        Ok(AcceptedCircuit { words })
    }

    // The circuit that questions 1 to 4 make of the words.
    pub fn circuit(&self) -> Circuit<'a>
        ensures { result.words ≡ self.now.words }
    {
        Circuit { words: self.words }
    }

    // The copied columns of the circuit.
    pub fn copied(&self) -> ArrayVec<u64, MAX_POLYS>
        ensures columns { result.items ≡ def.copied (circuit_of self.now.words.now) }
        ensures few { array_vec_len result ≤ max_polys }
    {
        let circuit = self.circuit();
        let polys = circuit.num_poly();
        let cells = circuit.laid().cells();
        copied_columns(cells, polys as usize)
    }

    // How many lookups each group has.
    pub fn group_sizes(&self) -> ArrayVec<u64, 8>
        ensures sizes { result.items ≡ group_sizes (circuit_of self.now.words.now).groups }
        ensures count { array_vec_len result ≡ num_groups (circuit_of self.now.words.now) }
        ensures few { array_vec_len result ≤ 8 }
    {
        let numbers = self.circuit().laid().groups();
        group_sizes(numbers)
    }

    // Where the polynomials that are given stand.
    pub fn layout(&self) -> Layout
        ensures { result ≡ layout_from_words self.now.words.now }
    {
        let circuit = self.circuit();
        let rows = circuit.laid().rows();
        let witness = circuit.num_witness();
        Layout {
            rows: rows as usize,
            instances: self.words[INSTANCE_COUNT] as usize,
            preprocess: self.words[PREPROCESS_COUNT] as usize,
            start: self.words[PREPROCESS_START] as usize,
            witness: witness as usize,
            permutations: 0,
            skipped: 0,
            rest: 0,
        }
    }

    // Rust `max_degree`, D.
    fn degree(&self) -> usize
        ensures { result ≡ max_degree (circuit_of self.now.words.now) }
    {
        let d = degrees_of(self.circuit());
        let degree = max_degree(d);
        degree as usize
    }

    // The numbers that the composed expression names, given how many columns are copied and how many groups there are.
    pub fn params(&self, copied: usize, groups: usize) -> CircuitParams
        requires copied { copied ≡ num_copied (circuit_of self.now.words.now) }
        requires groups { groups ≡ num_groups (circuit_of self.now.words.now) }
        ensures { result ≡ params_of (circuit_of self.now.words.now) }
    {
        let circuit = self.circuit();
        let polys = circuit.num_poly();
        let user = circuit.num_user();
        let rows = circuit.laid().rows();
        let lookups = self.words[WIDTH_COUNT];
        let part = self.degree() - 1;
        let parts = copied.div_ceil(part);
        CircuitParams {
            num_poly: polys as usize,
            num_permutation_polys: copied,
            num_lookups: lookups as usize,
            num_groups: groups,
            num_challenges: user as usize,
            rows: rows as usize,
            chunk_size: part,
            num_chunks: parts,
        }
    }

    // Instance values in all.
    fn instance_words(&self) -> u64
        ensures { result ≡ total (circuit_of self.now.words.now).instances }
    {
        let instances = self.circuit().laid().instances();
        total_to(instances, 1, 0, instances.len(), 8192)
    }

    // Question 12.
    pub fn question_12(&self, inputs: &Inputs) -> bool
        ensures { result ≡ q12 (circuit_of self.now.words.now) inputs.now.instance.now inputs.now.witness.now inputs.now.challenges.now }
    {
        let values = self.instance_words();
        let circuit = self.circuit();
        let columns = circuit.num_witness();
        let rows = circuit.laid().rows();
        let user = circuit.num_user();
        let words = columns * rows;
        (inputs.instance.len() as u64 == values)
            & (inputs.witness.len() as u64 == words)
            & (inputs.challenges.len() as u64 == user + 2)
    }
}
