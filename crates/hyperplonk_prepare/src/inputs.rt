// The instance, witness and challenge words that stand beside circuit words in a build.
ghost use Rattle.std.specs.Prelude.{◌≡◌, true};
ghost use Rattle.backend.specs.Circuit.{circuit_of};
ghost use Rattle.hyperplonk_spec.specs.Build.{q12, q13};

use crate::needed::PreparedCircuit;
use backend_sections::words::all_elements;

// The words, of any lengths and values.
#[derive(Clone, Copy)]
pub struct Inputs<'a> {
    pub instance: &'a [u64],
    pub witness: &'a [u64],
    pub challenges: &'a [u64],
}

impl<'a> Inputs<'a> {
    // Question 13.
    pub fn question_13(&self) -> bool
        ensures { result ≡ q13 self.now.instance.now self.now.witness.now self.now.challenges.now }
    {
        let first = all_elements(self.instance);
        let second = all_elements(self.witness);
        let third = all_elements(self.challenges);
        first & second & third
    }
}

// The log that the lent words are: an accepted circuit, and inputs of the lengths that it asks for, so that question 12 is yes.
#[derive(Drop)]
pub struct LentLog<'a> {
    pub prepared: PreparedCircuit<'a>,
    pub inputs: Inputs<'a>,
    pub ghost lengths: { q12 (circuit_of prepared.circuit.words.now) inputs.instance.now inputs.witness.now inputs.challenges.now ≡ true },
}
