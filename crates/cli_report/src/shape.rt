// What circuit words have and ask for, once questions 1 to 11 and 18 have been put to them; what they ask for is told by `sizes`.
ghost use Rattle.std.specs.Prelude.{◌≡◌};
ghost use Rattle.backend.specs.Circuit.{circuit_of};
ghost use Rattle.preprocessor.specs.Compose.{params_of};

use crate::cuts::Cuts;
use backend_sections::contents::INSTANCE_COUNT;
use hyperplonk_prepare::circuit::AcceptedCircuit;
use hyperplonk_prepare::needed::PreparedCircuit;
use hyperplonk_sizes::sizes;
use hyperplonk_spec::Sizes;
use lists::word_at;
use preprocessor::CircuitParams;

// The column words and the nodes up to which the smaller rooms of the program do.
pub const HALF_COLUMNS: usize = 98304;

pub const HALF_NODES: usize = 4190;

// Which rooms of the program do.
#[derive(Clone, Copy, PartialEq, Eq)]
pub enum Rooms {
    Half,
    Whole,
}

// Accepted circuit words, their numbers, and what they ask for.
#[derive(Clone, Copy)]
pub struct Shape<'a> {
    pub circuit: AcceptedCircuit<'a>,
    pub params: CircuitParams,
    pub column_words: usize,
    pub nodes: u64,
    pub visits: u64,
    pub rooms: Rooms,
    pub ghost params_are: { params ≡ params_of (circuit_of circuit.words.now) },
}

impl<'a> Shape<'a> {
    // How many instance columns there are.
    pub fn instances(&self) -> usize {
        word_at(self.circuit.words, INSTANCE_COUNT) as usize
    }

    // How many challenges are the user's.
    pub fn user(&self) -> usize {
        self.params.num_challenges
    }

    // Both cuts of the copied columns.
    pub fn cuts(&self) -> Cuts {
        let params = self.params;
        Cuts {
            copied: params.num_permutation_polys,
            part: params.chunk_size,
            parts: params.num_chunks,
        }
    }
}

fn rooms_of(told: Sizes) -> Rooms {
    if told.column_words <= HALF_COLUMNS && told.nodes <= HALF_NODES {
        Rooms::Half
    } else {
        Rooms::Whole
    }
}

// What circuit words ask for; the number of the first question answered no for refused ones.
pub fn shape_of<'a>(circuit: &'a [u64]) -> Result<Shape<'a>, u64> {
    let told = sizes(circuit);
    if told.number != 0 {
        return Err(told.number);
    }
    let accepted = AcceptedCircuit { words: circuit };
    let prepared = PreparedCircuit::new(accepted);
    Ok(Shape {
        circuit: accepted,
        params: prepared.params,
        column_words: told.column_words,
        nodes: told.nodes as u64,
        visits: told.visits as u64,
        rooms: rooms_of(told),
    })
}
