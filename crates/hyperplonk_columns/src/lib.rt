// The columns of a build: the stages one after another on the one column buffer.
#![tactic(auto)]

pub mod stages;

ghost use Rattle.std.specs.Prelude.{◌≡◌, ◌≤◌, length, take};
ghost use Rattle.field.specs.Field.{𝔾};
ghost use Rattle.lists.specs.Lists.{write_at, write_prefix};
ghost use Rattle.backend.specs.Circuit.{circuit_of, rows_of, group_sizes};
ghost use Rattle.prover.specs.Words.{words_of};
ghost use Rattle.hyperplonk_spec.specs.Build.{column_words};
ghost use Rattle.hyperplonk_prepare.specs.Log.{lent_log};
ghost use Rattle.hyperplonk_prepare.specs.Prepared.{compressed_offset, m_offset, h_offset};
ghost use Rattle.hyperplonk_columns.specs.Kinds.{polys_before_m, polys_through_m};
ghost use Rattle.hyperplonk_columns.specs.Outcome.{columns_outcome, columns_left, AfterM};

use crate::stages::{compressed_columns, instance_columns, permutation_columns, z_columns};
use backend_sections::contents::INSTANCE_COUNT;
use field::goldilocks::Goldilocks;
use hyperplonk_prepare::inputs::LentLog;
use hyperplonk_prepare::needed::PreparedCircuit;
use prover::ZeroDenominator;
use prover_instance::blank_column::clear;
use prover_lookup::Groups;

// Why the columns are not written: an input equals no table row, which gives 15; a denominator is zero, which gives 17
// (specs/Outcome.antt).
#[derive(Clone, Copy, Debug, PartialEq, Eq)]
pub enum Refused {
    Uncovered,
    ZeroDenominator,
}

// The number of a refusal.
impl From<Refused> for u64 {
    ghost use Rattle.std.specs.Prelude.{◌≡◌};
    ghost use Rattle.hyperplonk_columns.specs.Outcome.{refused_number};

    ghost from_gives = { λ refused number. number ≡ refused_number refused };

    fn from(refused: Refused) -> u64 {
        match refused {
            Refused::Uncovered => 15,
            Refused::ZeroDenominator => 17,
        }
    }
}

// The groups of lookups, and the words at which their compressed columns, m and h begin.
fn places_of<'a>(prepared: &'a PreparedCircuit) -> Groups<'a>
    ensures sizes { result.sizes.now ≡ group_sizes (circuit_of prepared.now.circuit.words.now).groups }
    ensures compressed { result.compressed ≡ compressed_offset (circuit_of prepared.now.circuit.words.now) }
    ensures counts { result.counts ≡ m_offset (circuit_of prepared.now.circuit.words.now) }
    ensures hs { result.hs ≡ h_offset (circuit_of prepared.now.circuit.words.now) }
    ensures rows { result.rows ≡ prepared.now.params.rows }
{
    let sizes = prepared.group_sizes();
    let params = prepared.params;
    let instances = prepared.circuit.words[INSTANCE_COUNT] as usize;
    let named = instances + params.num_permutation_polys;
    Groups {
        sizes,
        compressed: named * params.rows,
        counts: (named + params.num_lookups * 2) * params.rows,
        hs: (named + params.num_lookups * 2 + params.num_groups) * params.rows,
        rows: params.rows,
    }
}

// The columns before the counts: instance, permutation and compressed columns.
pub fn columns_before_m(log: &LentLog, columns: &mut [u64])
    requires { column_words (circuit_of log.now.prepared.circuit.words.now) ≤ length columns.old }
    ensures { columns.new ≡ write_at columns.old 0 (words_of (rows_of (circuit_of log.now.prepared.circuit.words.now)) (polys_before_m 𝔾 (lent_log log.now))) }
{
    instance_columns(log, columns);
    permutation_columns(log, columns);
    compressed_columns(log, columns);
}

// h and z, behind the counts, where the columns to the counts stand at the front of the buffer. Stops where a denominator is zero.
fn columns_after_m(log: &LentLog, columns: &mut [u64]) -> Result<(), ZeroDenominator>
    requires { column_words (circuit_of log.now.prepared.circuit.words.now) ≤ length columns.old }
    ensures { take (h_offset (circuit_of log.now.prepared.circuit.words.now)) columns.old ≡ words_of (rows_of (circuit_of log.now.prepared.circuit.words.now)) (polys_through_m 𝔾 (lent_log log.now)) → AfterM (lent_log log.now) columns.old result columns.new }
{
    let at = places_of(&log.prepared);
    let user = log.prepared.params.num_challenges;
    let gamma = Goldilocks::at(log.inputs.challenges, user + 1);
    at.lookup_h_polys(columns, gamma)?;
    z_columns(log, columns)
}

// All columns. Where an input of a lookup is in no table row, or a denominator is zero, the column words needed become 0.
pub fn write_columns(log: &LentLog, columns: &mut [u64]) -> Result<(), Refused>
    requires { column_words (circuit_of log.now.prepared.circuit.words.now) ≤ length columns.old }
    ensures { (result ≡ columns_outcome (lent_log log.now)) × (columns.new ≡ write_prefix (columns_left (lent_log log.now) result) columns.old) }
{
    columns_before_m(log, columns);
    let at = places_of(&log.prepared);
    let words = log.prepared.column_words();
    let covered = at.lookup_m_polys(columns);
    if !covered {
        clear(columns, 0, words);
        return Err(Refused::Uncovered);
    }
    let last = columns_after_m(log, columns);
    match last {
        Ok(()) => Ok(()),
        Err(ZeroDenominator) => {
            clear(columns, 0, words);
            Err(Refused::ZeroDenominator)
        }
    }
}
