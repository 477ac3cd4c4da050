// Expressions and the questions from C, for the oracle. A slice crosses as a pointer and a length.
// Kept: each function has the name, parameters and contract of the one that it calls, since C needs exported functions, and a crate is a library or a static library.
#![tactic(auto)]

ghost use Rattle.std.specs.Prelude.{◌≡◌, length};
ghost use Rattle.lists.specs.Lists.{first_no};
ghost use Rattle.expression.specs.Queries.{queries_into};
ghost use Rattle.backend.specs.Questions.{circuit_questions};
ghost use Rattle.oracle_entry.specs.Entry.{degree_at, queries_at, values_into};

use oracle_entry::Lent;

#[unsafe(no_mangle)]
pub extern "C" fn expression_degree(nodes: &[u64], n: usize) -> u64
    ensures { result ≡ degree_at nodes.now n }
{
    oracle_entry::expression_degree(nodes, n)
}

#[unsafe(no_mangle)]
pub extern "C" fn expression_queries(
    nodes: &[u64],
    n: usize,
    polys: usize,
    k: usize,
    out: &mut [u64],
) -> usize
    ensures { (result ≡ length (queries_at nodes.now n polys k)) × (out.new ≡ queries_into (queries_at nodes.now n polys k) out.old) }
{
    oracle_entry::expression_queries(nodes, n, polys, k, out)
}

#[unsafe(no_mangle)]
pub extern "C" fn expression_values(
    k: usize,
    nodes: &[u64],
    circuit: &[u64],
    witness: &[u64],
    columns: &[u64],
    challenges: &[u64],
    layout: &[u64],
    eq: &[u64],
    n: usize,
    out: &mut [u64],
)
    ensures { out.new ≡ values_into k nodes.now circuit.now witness.now columns.now challenges.now layout.now eq.now n out.old }
{
    let lent = Lent {
        nodes,
        circuit,
        witness,
        columns,
        challenges,
        layout,
        eq,
    };
    lent.expression_values(k, n, out);
}

#[unsafe(no_mangle)]
pub extern "C" fn circuit_first_no(circuit: &[u64]) -> u64
    ensures { result ≡ first_no circuit_questions circuit.now }
{
    oracle_entry::circuit_first_no(circuit)
}
