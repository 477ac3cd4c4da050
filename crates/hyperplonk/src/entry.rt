// The calls as include/hyperplonk.h declares them, by its names: numbers and slices alone. hyperplonk_c exports them to C.
// Kept: hyperplonk_c exports each of them under the same name, since C needs exported functions, and a crate is a library or a static library.
ghost use Rattle.std.specs.Prelude.{◌≡◌, [], ◌∷◌};
ghost use Rattle.hyperplonk_spec.specs.Stages.{m_of, h_of, eq_of};
ghost use Rattle.hyperplonk_spec.specs.Build.{build_of, lent_build};
ghost use Rattle.hyperplonk_spec.specs.RowSum.{row_sum_of, lent_sum};
ghost use Rattle.hyperplonk_spec.specs.Entries.{answered, build_entry, sum_entry, sizes_entry};
ghost use Rattle.hyperplonk_spec.specs.Sizes.{sizes_of};

use crate::{build, row_sum, sizes};
use hyperplonk_stages::{eq_xy, lookup_h_poly, lookup_m_poly};

pub fn hyperplonk_lookup_m_poly(k: u64, input: &[u64], table: &[u64], m: &mut [u64]) -> u64
    ensures { record { number = result; out = m.new } ≡ m_of k input.now table.now m.old }
{
    lookup_m_poly(k, input, table, m)
}

pub fn hyperplonk_lookup_h_poly(
    k: u64,
    input: &[u64],
    table: &[u64],
    m: &[u64],
    gamma: u64,
    h: &mut [u64],
) -> u64
    ensures { record { number = result; out = h.new } ≡ h_of k input.now table.now m.now gamma h.old }
{
    lookup_h_poly(k, input, table, m, gamma, h)
}

pub fn hyperplonk_eq_xy(k: u64, y: &[u64], out: &mut [u64]) -> u64
    ensures { record { number = result; out = out.new } ≡ eq_of k y.now out.old }
{
    eq_xy(k, y, out)
}

// Writes the words of an answer over its first; a shorter one is left as it is.
fn write_answer(answer: &mut [u64], words: &[u64])
    ensures { answer.new ≡ answered words.now answer.old }
{
    if answer.len() >= words.len() {
        answer[..words.len()].copy_from_slice(words);
    }
}

pub fn hyperplonk_sizes(circuit: &[u64], answer: &mut [u64]) -> u64
    ensures { record { number = result; answer = answer.new } ≡ sizes_entry (sizes_of circuit.now) answer.old }
{
    let told = sizes(circuit);
    write_answer(
        answer,
        &[
            told.column_words as u64,
            told.nodes as u64,
            told.visits as u64,
        ],
    );
    told.number
}

pub fn hyperplonk_build(
    circuit: &[u64],
    instance: &[u64],
    witness: &[u64],
    challenges: &[u64],
    columns: &mut [u64],
    nodes: &mut [u64],
    answer: &mut [u64],
) -> u64
    ensures { record { number = result; columns = columns.new; nodes = nodes.new; answer = answer.new } ≡ build_entry (build_of (lent_build circuit.now instance.now witness.now challenges.now columns.old nodes.old)) answer.old }
{
    let b = build(circuit, instance, witness, challenges, columns, nodes);
    write_answer(
        answer,
        &[b.column_words as u64, b.nodes as u64, b.z_columns as u64],
    );
    b.number
}

pub fn hyperplonk_row_sum(
    circuit: &[u64],
    witness: &[u64],
    columns: &[u64],
    nodes: &[u64],
    challenges: &[u64],
    y: &[u64],
    answer: &mut [u64],
) -> u64
    ensures { record { number = result; answer = answer.new } ≡ sum_entry (row_sum_of (lent_sum circuit.now witness.now columns.now nodes.now challenges.now y.now)) answer.old }
{
    let s = row_sum(circuit, witness, columns, nodes, challenges, y);
    write_answer(answer, &[s.sum]);
    s.number
}
