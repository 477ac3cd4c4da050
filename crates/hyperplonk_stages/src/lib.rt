// The stages called alone: "they meet 2, 12, 13, 14 and, for counts, 15"; h meets 17, last.
// Kept: the public functions answer numbers, which the C interface hands on; inside stands an enum.
#![tactic(auto)]

ghost use Rattle.std.specs.Prelude.{◌≡◌, true, false, OnOk, IfErr};
ghost use Rattle.backend.specs.Questions.{good_k};
ghost use Rattle.hyperplonk_spec.specs.Stages.{m_of, h_of, eq_of};
ghost use Rattle.hyperplonk_stages.specs.Refusal.{answer_number};

use backend_sections::words::{all_elements, is_element};
use bh::rows_of;
use field::goldilocks::Goldilocks;
use prover::ZeroDenominator;
use prover_lookup::h::h_column;
use prover_lookup::m::m_column;

// Why a stage called alone refuses: the first question whose answer is no (specs/Refusal.antt has the numbers).
// Kept: an enum beside hyperplonk_columns::Refused, which has only 15 and 17: one enum would give `write_columns` four answers it never gives.
#[derive(Clone, Copy, Debug, PartialEq, Eq)]
enum Refusal {
    K,
    Lengths,
    Values,
    Room,
    Uncovered,
    ZeroDenominator,
}

impl From<ZeroDenominator> for Refusal {
    ghost use Rattle.std.specs.Prelude.{◌≡◌};
    ghost use Rattle.hyperplonk_stages.specs.declared.Refusal.{Refusal};

    ghost from_gives = { λ _ refusal. refusal ≡ Refusal.ZeroDenominator };

    fn from(_zero: ZeroDenominator) -> Refusal {
        Refusal::ZeroDenominator
    }
}

// The number of an answer.
fn number_of(answer: Result<(), Refusal>) -> u64
    ensures { result ≡ answer_number answer }
{
    match answer {
        Ok(()) => 0,
        Err(Refusal::K) => 2,
        Err(Refusal::Lengths) => 12,
        Err(Refusal::Values) => 13,
        Err(Refusal::Room) => 14,
        Err(Refusal::Uncovered) => 15,
        Err(Refusal::ZeroDenominator) => 17,
    }
}

// A question's answer: no is the refusal.
fn asked(yes: bool, refusal: Refusal) -> Result<(), Refusal>
    ensures yes { OnOk result (yes ≡ true) }
    ensures no { IfErr result (λ e. (e ≡ refusal) × (yes ≡ false)) }
{
    if yes { Ok(()) } else { Err(refusal) }
}

// "Is k from 1 to 10?"
fn good_k(k: u64) -> bool
    ensures { result ≡ good_k k }
{
    (1 <= k) & (k <= 10)
}

// The counts of two columns, or why not.
fn counts(k: u64, input: &[u64], table: &[u64], m: &mut [u64]) -> Result<(), Refusal>
    ensures { record { number = answer_number result; out = m.new } ≡ m_of k input.now table.now m.old }
{
    asked(good_k(k), Refusal::K)?;
    let rows = rows_of(k as usize);
    let exact = (input.len() == rows) & (table.len() == rows);
    asked(exact, Refusal::Lengths)?;
    let small = all_elements(input) & all_elements(table);
    asked(small, Refusal::Values)?;
    asked(rows <= m.len(), Refusal::Room)?;
    if !m_column(rows, input, table, m) {
        return Err(Refusal::Uncovered);
    }
    Ok(())
}

// The counts of two columns. 15 leaves a column of zeros, any other refusal the buffer as it was.
pub fn lookup_m_poly(k: u64, input: &[u64], table: &[u64], m: &mut [u64]) -> u64
    ensures { record { number = result; out = m.new } ≡ m_of k input.now table.now m.old }
{
    number_of(counts(k, input, table, m))
}

// h of two columns and their counts, or why not.
fn quotients(
    k: u64,
    input: &[u64],
    table: &[u64],
    m: &[u64],
    gamma: u64,
    h: &mut [u64],
) -> Result<(), Refusal>
    ensures { record { number = answer_number result; out = h.new } ≡ h_of k input.now table.now m.now gamma h.old }
{
    asked(good_k(k), Refusal::K)?;
    let rows = rows_of(k as usize);
    let exact = (input.len() == rows) & (table.len() == rows) & (m.len() == rows);
    asked(exact, Refusal::Lengths)?;
    let columns = all_elements(input) & all_elements(table) & all_elements(m);
    let small = columns & is_element(gamma);
    asked(small, Refusal::Values)?;
    asked(rows <= h.len(), Refusal::Room)?;
    h_column(rows, input, table, m, Goldilocks::from(gamma), h)?;
    Ok(())
}

// h of two columns and their counts. 17 leaves a column of zeros, any other refusal the buffer as it was.
pub fn lookup_h_poly(
    k: u64,
    input: &[u64],
    table: &[u64],
    m: &[u64],
    gamma: u64,
    h: &mut [u64],
) -> u64
    ensures { record { number = result; out = h.new } ≡ h_of k input.now table.now m.now gamma h.old }
{
    number_of(quotients(k, input, table, m, gamma, h))
}

// The `eq_xy` table of k values, or why not.
fn eq_table(k: u64, y: &[u64], out: &mut [u64]) -> Result<(), Refusal>
    ensures { record { number = answer_number result; out = out.new } ≡ eq_of k y.now out.old }
{
    asked(good_k(k), Refusal::K)?;
    let size = k as usize;
    asked(y.len() == size, Refusal::Lengths)?;
    asked(all_elements(y), Refusal::Values)?;
    asked(rows_of(size) <= out.len(), Refusal::Room)?;
    multilinear::eq_xy(size, y, out);
    Ok(())
}

// The `eq_xy` table of k values. A refusal leaves the buffer as it was.
pub fn eq_xy(k: u64, y: &[u64], out: &mut [u64]) -> u64
    ensures { record { number = result; out = out.new } ≡ eq_of k y.now out.old }
{
    number_of(eq_table(k, y, out))
}
