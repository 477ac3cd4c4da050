// What is searched: an accepted circuit, the words beside it, and the columns before m.
ghost use Rattle.std.specs.Prelude.{◌≡◌, ℕ, ◌+◌, ◌*◌, ◌^◌, ◌<◌, ◌≤◌, length, slice_index};
ghost use Rattle.field.specs.Field.{val};
ghost use Rattle.field.specs.Element.{elem};
ghost use Rattle.bh.specs.Rows.{place_of};
ghost use Rattle.expression.specs.Reader.{LayoutSmall};
ghost use Rattle.backend.specs.Circuit.{circuit_of, word_k, num_lookups, copied, max_polys};
ghost use Rattle.hyperplonk_spec.specs.Build.{column_words};
ghost use Rattle.hyperplonk_prepare.specs.Prepared.{layout_from_words};
ghost use Rattle.hyperplonk_columns.specs.Stages.{lent_beta, lent_gamma};
ghost use Rattle.cli_search.specs.Ground.{word_behind, side_word, first_of};

use backend_sections::contents::K_WORD;
use bh::rotations::place_of;
use expression::poly::Layout;
use field::goldilocks::Goldilocks;
use hyperplonk_prepare::circuit::AcceptedCircuit;
use hyperplonk_prepare::needed::PreparedCircuit;
use lists::word_at;

// `names` are the copied columns, `groups` the group numbers of the lookups, `beta` and `gamma` the last two challenges.
#[derive(Clone, Copy)]
pub(crate) struct Search<'a> {
    pub circuit: AcceptedCircuit<'a>,
    pub witness: &'a [u64],
    pub challenges: &'a [u64],
    pub columns: &'a [u64],
    pub names: &'a [u64],
    pub groups: &'a [u64],
    pub layout: Layout,
    pub k: usize,
    pub lookups: usize,
    pub beta: Goldilocks,
    pub gamma: Goldilocks,
    ghost layout_is: { layout ≡ layout_from_words circuit.words.now },
    ghost k_is: { k ≡ word_k circuit.words.now },
    ghost lookups_are: { lookups ≡ num_lookups (circuit_of circuit.words.now) },
    ghost names_are: { names.now ≡ copied (circuit_of circuit.words.now) },
    ghost groups_are: { groups.now ≡ (circuit_of circuit.words.now).groups },
    ghost beta_is: { val (elem beta) ≡ val (lent_beta circuit.words.now challenges.now) },
    ghost gamma_is: { val (elem gamma) ≡ val (lent_gamma circuit.words.now challenges.now) },
    ghost small: { LayoutSmall layout },
    ghost few: { (lookups ≤ 8) × (length names.now ≤ max_polys) },
    ghost rows: { (0 < k) × (k ≤ 10) × (layout.rows ≡ 2 ^ k) × (layout.rows ≤ 1024) },
    ghost room: { (layout.instances + length names.now + lookups * 2) * layout.rows ≤ length columns.now },
}

impl<'a> Search<'a> {
    // A search in a buffer whose columns before m are filled.
    pub fn new(
        prepared: &'a PreparedCircuit<'a>,
        witness: &'a [u64],
        challenges: &'a [u64],
        columns: &'a [u64],
    ) -> Search<'a>
        requires { column_words (circuit_of prepared.now.circuit.words.now) ≤ length columns.now }
        ensures circuit { result.circuit.words.now ≡ prepared.now.circuit.words.now }
        ensures words { (result.witness.now ≡ witness.now) × (result.challenges.now ≡ challenges.now) × (result.columns.now ≡ columns.now) }
    {
        let circuit = prepared.circuit;
        let user = prepared.params.num_challenges;
        Search {
            circuit,
            witness,
            challenges,
            columns,
            names: prepared.copied(),
            groups: circuit.circuit().laid().groups(),
            layout: circuit.layout(),
            k: word_at(circuit.words, K_WORD) as usize,
            lookups: prepared.params.num_lookups,
            beta: Goldilocks::from(word_at(challenges, user)),
            gamma: Goldilocks::from(word_at(challenges, user + 1)),
        }
    }

    // Column n behind the instance columns.
    pub fn column(&self, n: usize) -> &'a [u64]
        requires { n < length self.now.names.now + self.now.lookups * 2 }
        ensures rows { length result.now ≡ self.now.layout.rows }
        ensures words { (row : ℕ) → row < self.now.layout.rows → slice_index result.now row ≡ word_behind self.now.layout self.now.columns.now n row }
    {
        let rows = self.layout.rows;
        let at = (self.layout.instances + n) * rows;
        &self.columns[at..at + rows]
    }

    // The compressed input of a lookup.
    pub fn input(&self, lookup: usize) -> &'a [u64]
        requires { lookup < self.now.lookups }
        ensures rows { length result.now ≡ self.now.layout.rows }
        ensures words { (row : ℕ) → row < self.now.layout.rows → slice_index result.now row ≡ side_word self.now.layout (length self.now.names.now) self.now.columns.now 0 lookup row }
    {
        self.column(self.names.len() + lookup * 2)
    }

    // The compressed table of a lookup.
    pub fn table(&self, lookup: usize) -> &'a [u64]
        requires { lookup < self.now.lookups }
        ensures rows { length result.now ≡ self.now.layout.rows }
        ensures words { (row : ℕ) → row < self.now.layout.rows → slice_index result.now row ≡ side_word self.now.layout (length self.now.names.now) self.now.columns.now 1 lookup row }
    {
        self.column(self.names.len() + lookup * 2 + 1)
    }

    // The first lookup of the group that a lookup is of: as many lookups stand before it as have a lower number.
    #[tactic(auto, using(crate::proofs::Asked::counted))]
    pub fn first_of(&self, lookup: usize) -> usize
        ensures { result ≡ first_of self.now.groups.now lookup }
    {
        let number = word_at(self.groups, lookup);
        self.groups.iter().filter(|g| **g < number).count()
    }

    // The place of a row in the row order.
    pub fn place(&self, row: usize) -> usize
        requires { row < self.now.layout.rows }
        ensures { result ≡ place_of self.now.k row }
    {
        place_of(row, self.k)
    }
}
