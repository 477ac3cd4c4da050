// hyperplonk/preprocessor.rs: the permutation and lookup constraints, written as node words.
#![tactic(auto)]

pub mod factors;
pub mod group;
pub mod lookup;
pub mod permutation;

ghost use Rattle.std.specs.Prelude.{◌+◌, ◌<◌, ◌^◌};
ghost use Rattle.preprocessor.specs.ComposeWords.{Limits};
ghost use Rattle.preprocessor_constraints.specs.Unique.{Limits-prop};

use preprocessor::CircuitParams;

// A circuit's numbers, within their limits.
#[derive(Clone, Copy)]
pub struct Numbers {
    pub params: CircuitParams,
    pub ghost limits: { Limits params } by { Limits-prop params },
}

// `count` in a row, from number `first` on: copied columns, lookups, or every second word.
#[derive(Clone, Copy)]
pub struct Span {
    pub first: usize,
    pub count: usize,
    pub ghost fits: { first + count < 2 ^ 63 },
}
