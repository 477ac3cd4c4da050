// prover.rs `instance_polys`: the instance columns.
#![tactic(auto)]

pub mod blank_column;

ghost use Rattle.std.specs.Prelude.{◌≡◌, map, ℕ, ◌+◌, ◌*◌, ◌^◌, ◌<◌, ◌≤◌, length, get_or};
ghost use Rattle.field.specs.Field.{𝔾, el, val};
ghost use Rattle.lists.specs.Lists.{tabulate, write_at, split, total};
ghost use Rattle.prover.specs.Columns.{instance_at};
ghost use Rattle.prover.specs.Words.{words_of};

use crate::blank_column::clear;
use bh::rows_of;
use field::goldilocks::Goldilocks;

// One instance column, from word `at` on: value t stands at place t + 1 of the row order.
fn instance_column(k: usize, values: &[u64], columns: &mut [u64], at: usize)
    requires { (1 ≤ k) × (k ≤ 20) × (length values.now < 2 ^ k) × (at + 2 ^ k ≤ length columns.old) }
    ensures { columns.new ≡ write_at columns.old at (tabulate (λ b. val (instance_at 𝔾 k (map el values.now) b)) (2 ^ k)) }
{
    clear(columns, at, rows_of(k));
    let mut row: usize = 1;
    for value in values {
        columns[at + row] = u64::from(Goldilocks::from(*value));
        row = bh::next(row, k);
    }
}

// The instance columns, at the front of the buffer, of these lengths.
pub fn instance_polys(k: usize, lengths: &[u64], instance: &[u64], columns: &mut [u64])
    requires { (1 ≤ k) × (k ≤ 20) × ((i : ℕ) → i < length lengths.now → get_or lengths.now i 0 < 2 ^ k) × (total lengths.now ≡ length instance.now) × (length lengths.now * 2 ^ k ≤ length columns.old) }
    ensures { columns.new ≡ write_at columns.old 0 (words_of (2 ^ k) (map (λ vs b. instance_at 𝔾 k (map el vs) b) (split lengths.now instance.now))) }
{
    let rows = rows_of(k);
    let mut from: usize = 0;
    let mut at: usize = 0;
    for count in lengths {
        let end = from + *count as usize;
        instance_column(k, &instance[from..end], columns, at);
        from = end;
        at += rows;
    }
}
