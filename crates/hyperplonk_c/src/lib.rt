// The calls for C and Rust, by the names that include/hyperplonk.h declares. A slice crosses as a pointer and a length.
// Kept: each function has the name, parameters and contract of the one that it calls, since C needs exported functions, and a crate is a library or a static library.
#![tactic(auto)]

ghost use Rattle.std.specs.Prelude.{◌≡◌};
ghost use Rattle.hyperplonk_spec.specs.Stages.{m_of, h_of, eq_of};
ghost use Rattle.hyperplonk_spec.specs.Build.{build_of, lent_build};
ghost use Rattle.hyperplonk_spec.specs.RowSum.{row_sum_of, lent_sum};
ghost use Rattle.hyperplonk_spec.specs.Entries.{build_entry, sum_entry, sizes_entry};
ghost use Rattle.hyperplonk_spec.specs.Sizes.{sizes_of};

use hyperplonk::entry;

#[unsafe(no_mangle)]
pub extern "C" fn hyperplonk_lookup_m_poly(
    k: u64,
    input: &[u64],
    table: &[u64],
    m: &mut [u64],
) -> u64
    ensures { record { number = result; out = m.new } ≡ m_of k input.now table.now m.old }
{
    entry::hyperplonk_lookup_m_poly(k, input, table, m)
}

#[unsafe(no_mangle)]
pub extern "C" fn hyperplonk_lookup_h_poly(
    k: u64,
    input: &[u64],
    table: &[u64],
    m: &[u64],
    gamma: u64,
    h: &mut [u64],
) -> u64
    ensures { record { number = result; out = h.new } ≡ h_of k input.now table.now m.now gamma h.old }
{
    entry::hyperplonk_lookup_h_poly(k, input, table, m, gamma, h)
}

#[unsafe(no_mangle)]
pub extern "C" fn hyperplonk_eq_xy(k: u64, y: &[u64], out: &mut [u64]) -> u64
    ensures { record { number = result; out = out.new } ≡ eq_of k y.now out.old }
{
    entry::hyperplonk_eq_xy(k, y, out)
}

#[unsafe(no_mangle)]
pub extern "C" fn hyperplonk_sizes(circuit: &[u64], answer: &mut [u64]) -> u64
    ensures { record { number = result; answer = answer.new } ≡ sizes_entry (sizes_of circuit.now) answer.old }
{
    entry::hyperplonk_sizes(circuit, answer)
}

#[unsafe(no_mangle)]
pub extern "C" fn hyperplonk_build(
    circuit: &[u64],
    instance: &[u64],
    witness: &[u64],
    challenges: &[u64],
    columns: &mut [u64],
    nodes: &mut [u64],
    answer: &mut [u64],
) -> u64
    ensures { record { number = result; columns = columns.new; nodes = nodes.new; answer = answer.new } ≡ build_entry (build_of (lent_build circuit.now instance.now witness.now challenges.now columns.old nodes.old)) answer.old }
{
    entry::hyperplonk_build(
        circuit, instance, witness, challenges, columns, nodes, answer,
    )
}

#[unsafe(no_mangle)]
pub extern "C" fn hyperplonk_row_sum(
    circuit: &[u64],
    witness: &[u64],
    columns: &[u64],
    nodes: &[u64],
    challenges: &[u64],
    y: &[u64],
    answer: &mut [u64],
) -> u64
    ensures { record { number = result; answer = answer.new } ≡ sum_entry (row_sum_of (lent_sum circuit.now witness.now columns.now nodes.now challenges.now y.now)) answer.old }
{
    entry::hyperplonk_row_sum(circuit, witness, columns, nodes, challenges, y, answer)
}
