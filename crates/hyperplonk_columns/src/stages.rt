// The stages that read sections of circuit words for which questions 1 to 11 and 18 are yes: each writes its columns in the one column
// buffer.
ghost use Rattle.std.specs.Prelude.{◌≡◌, ◌+◌, ◌*◌, ◌^◌, ◌≤◌, length};
ghost use Rattle.field.specs.Field.{𝔾};
ghost use Rattle.field.specs.Element.{elem};
ghost use Rattle.lists.specs.Lists.{write_at};
ghost use Rattle.backend.specs.Circuit.{circuit_of, num_lookups};
ghost use Rattle.prover.specs.Denominators.{some_zero};
ghost use Rattle.prover.specs.Answers.{outcome_of, outcome_words};
ghost use Rattle.prover.specs.Words.{words_of};
ghost use Rattle.prover.specs.Lent.{environment_from_words, compressed_polys_in};
ghost use Rattle.hyperplonk_spec.specs.Build.{column_words};
ghost use Rattle.hyperplonk_prepare.specs.Prepared.{permutation_offset, compressed_offset, z_offset};
ghost use Rattle.hyperplonk_columns.specs.Stages.{instance_words, permutation_words, compressed_words, z_words, z_denominators};

use backend_sections::contents::WIDTH_COUNT;
use backend_sections::reader::k_of;
use field::goldilocks::Goldilocks;
use hyperplonk_prepare::circuit::AcceptedCircuit;
use hyperplonk_prepare::inputs::LentLog;
use preprocessor_permutation::permutation_polys;
use prover::ZeroDenominator;
use prover_compressed::{CompressedPolys, Lent};
use prover_instance::instance_polys;
use prover_z::{ZColumns, permutation_z_polys};

// The instance columns, at the front of the buffer.
pub(crate) fn instance_columns(log: &LentLog, columns: &mut [u64])
    requires { column_words (circuit_of log.now.prepared.circuit.words.now) ≤ length columns.old }
    ensures { columns.new ≡ write_at columns.old 0 (instance_words log.now.prepared.circuit.words.now log.now.inputs.instance.now) }
{
    let circuit = log.prepared.circuit;
    let k = k_of(circuit.words) as usize;
    let lengths = circuit.circuit().laid().instances();
    instance_polys(k, lengths, log.inputs.instance, columns);
}

// The permutation columns, behind the instance columns.
pub(crate) fn permutation_columns(log: &LentLog, columns: &mut [u64])
    requires { column_words (circuit_of log.now.prepared.circuit.words.now) ≤ length columns.old }
    ensures { columns.new ≡ write_at columns.old (permutation_offset (circuit_of log.now.prepared.circuit.words.now)) (permutation_words log.now.prepared.circuit.words.now) }
{
    let circuit = log.prepared.circuit;
    let copied = log.prepared.copied();
    let layout = circuit.layout();
    let at = layout.instances * layout.rows;
    let laid = circuit.circuit().laid();
    let lengths = laid.lengths();
    let cells = laid.cells();
    permutation_polys(layout.rows, copied, lengths, cells, columns, at);
}

// The compressed columns of the lookups, over the user's challenges.
fn compressed_from<'a>(
    circuit: &AcceptedCircuit<'a>,
    witness: &'a [u64],
    user: &'a [u64],
    columns: &mut [u64],
    polys: CompressedPolys,
)
    requires { polys.to + num_lookups (circuit_of circuit.now.words.now) * (2 ^ polys.k + 2 ^ polys.k) ≤ length columns.old }
    ensures { columns.new ≡ write_at columns.old polys.to (words_of (2 ^ polys.k) (compressed_polys_in 𝔾 (environment_from_words circuit.now.words.now witness.now columns.old user.now polys.layout polys.k) (elem polys.beta) (circuit_of circuit.now.words.now).lookups)) }
{
    let laid = circuit.circuit().laid();
    let nodes = laid.nodes();
    let widths = laid.widths();
    let pairs = laid.pairs();
    let lent = Lent {
        nodes,
        circuit: circuit.words,
        witness,
        challenges: user,
        widths,
        pairs,
    };
    lent.lookup_compressed_polys(columns, polys);
}

// The compressed columns, behind the permutation columns: input and table per lookup. The challenges are the user's, then beta and gamma.
pub(crate) fn compressed_columns(log: &LentLog, columns: &mut [u64])
    requires { column_words (circuit_of log.now.prepared.circuit.words.now) ≤ length columns.old }
    ensures { columns.new ≡ write_at columns.old (compressed_offset (circuit_of log.now.prepared.circuit.words.now)) (compressed_words log.now.prepared.circuit.words.now log.now.inputs.witness.now columns.old log.now.inputs.challenges.now) }
{
    let circuit = &log.prepared.circuit;
    let copied = log.prepared.copied();
    let challenges = log.inputs.challenges;
    let layout = circuit.layout();
    let user = log.prepared.params.num_challenges;
    let beta = Goldilocks::at(challenges, user);
    let k = k_of(circuit.words) as usize;
    let to = (layout.instances + copied.len()) * layout.rows;
    let polys = CompressedPolys {
        layout,
        k,
        beta,
        to,
    };
    compressed_from(
        circuit,
        log.inputs.witness,
        &challenges[0..user],
        columns,
        polys,
    );
}

// The z columns, behind all others; zeros where a denominator is zero. The challenges are the user's, then beta and gamma.
pub(crate) fn z_columns(log: &LentLog, columns: &mut [u64]) -> Result<(), ZeroDenominator>
    requires { column_words (circuit_of log.now.prepared.circuit.words.now) ≤ length columns.old }
    ensures answer { result ≡ outcome_of (some_zero 𝔾 (z_denominators log.now.prepared.circuit.words.now log.now.inputs.witness.now columns.old log.now.inputs.challenges.now)) }
    ensures written { columns.new ≡ write_at columns.old (z_offset (circuit_of log.now.prepared.circuit.words.now)) (outcome_words result (z_words log.now.prepared.circuit.words.now log.now.inputs.witness.now columns.old log.now.inputs.challenges.now)) }
{
    let circuit = log.prepared.circuit.words;
    let params = log.prepared.params;
    let copied = log.prepared.copied();
    let layout = log.prepared.circuit.layout();
    let user = params.num_challenges;
    let beta = Goldilocks::at(log.inputs.challenges, user);
    let gamma = Goldilocks::at(log.inputs.challenges, user + 1);
    let lookups = circuit[WIDTH_COUNT] as usize;
    let groups = params.num_groups;
    let to = (layout.instances + copied.len() + lookups * 2 + groups * 2) * layout.rows;
    let k = k_of(circuit) as usize;
    let z = ZColumns {
        layout,
        k,
        chunks: params.num_chunks,
        beta,
        gamma,
        to,
    };
    permutation_z_polys(circuit, log.inputs.witness, columns, copied, z)
}
