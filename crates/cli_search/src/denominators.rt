// Which denominators question 17 finds zero: how many there are, and of the first which it is, the row, and its place in the row
// order. They are gamma + input of each lookup and gamma + table of each group on all rows, and the factor value + beta * label + gamma
// of each copied column on every row but 0, with the label of its permutation column.
ghost use Rattle.std.specs.Prelude.{◌≡◌, ◌<◌, true, length, IfSome};
ghost use Rattle.field.specs.Field.{𝔾, el};
ghost use Rattle.field.specs.Element.{elem};
ghost use Rattle.prover_z.specs.Factors.{denominator_in_words};
ghost use Rattle.cli_search.specs.Zero.{ZeroIn, poly_named, ZeroNamed};

use crate::Column;
use crate::filled::fill;
use crate::found::{Found, search};
use crate::search::Search;
use expression_nodes::poly::poly_at;
use field::goldilocks::Goldilocks;
use lists::word_at;

// `poly` is the polynomial's number of a copied column, else 0.
// Kept: specs/Zero.antt says which number stands where there is none, and it keeps its meaning.
#[derive(Clone, Copy, Drop)]
pub struct ZeroDenominator {
    pub of: Column,
    pub poly: u64,
    pub row: usize,
    pub place: usize,
}

impl<'a> Search<'a> {
    // Is gamma + a word zero?
    #[tactic(auto, using(crate::proofs::Asked::zero_says))]
    fn is_zero_sum(&self, word: u64) -> bool
        ensures { result ≡ true → 𝔾.add (elem self.now.gamma) (el word) ≡ 𝔾.zero }
    {
        (self.gamma + Goldilocks::from(word)).is_zero()
    }

    // The factor of copied column i at a row.
    #[tactic(auto, unfolding(prover_z::specs::Factors::denominator_in_words))]
    fn factor(&self, i: usize, row: usize) -> Goldilocks
        requires { (i < length self.now.names.now) × (row < self.now.layout.rows) }
        ensures { elem result ≡ denominator_in_words self.now.layout self.now.circuit.words.now self.now.witness.now self.now.columns.now self.now.names.now (elem self.now.beta) (elem self.now.gamma) row i }
    {
        let word = poly_at(
            self.circuit.words,
            self.witness,
            self.columns,
            &self.layout,
            self.names[i],
            row,
        );
        let label = Goldilocks::from(self.column(i)[row]);
        Goldilocks::from(word) + self.beta * label + self.gamma
    }

    // Is the denominator of a column at a row zero? Of a group's table by the group's first lookup; at row 0 a factor is no denominator.
    #[tactic(auto, using(crate::proofs::Asked::zero_says))]
    fn is_zero(&self, of: Column, row: usize) -> bool
        ensures { result ≡ true → ZeroIn self.now.layout self.now.circuit.words.now self.now.witness.now self.now.columns.now self.now.names.now self.now.groups.now self.now.lookups (elem self.now.beta) (elem self.now.gamma) of row }
    {
        if row >= self.layout.rows {
            return false;
        }
        match of {
            Column::Input(lookup) => {
                lookup < self.lookups && self.is_zero_sum(self.input(lookup)[row])
            }
            Column::Table(lookup) => {
                lookup < self.lookups
                    && self.first_of(lookup) == lookup
                    && self.is_zero_sum(self.table(lookup)[row])
            }
            Column::Copied(i) => i < self.names.len() && row != 0 && self.factor(i, row).is_zero(),
        }
    }

    // Those of the lookups that are zero, by rising lookup and then row, the input before the table.
    fn zero_sides(&self) -> Option<Found<(Column, usize)>>
        ensures { IfSome result (λ f. ZeroIn self.now.layout self.now.circuit.words.now self.now.witness.now self.now.columns.now self.now.names.now self.now.groups.now self.now.lookups (elem self.now.beta) (elem self.now.gamma) f.first.0 f.first.1) }
    {
        let rows = self.layout.rows;
        let places = (0..self.lookups).flat_map(|lookup| {
            (0..2 * rows).map(move |i| {
                if i % 2 == 0 {
                    (Column::Input(lookup), i / 2)
                } else {
                    (Column::Table(lookup), i / 2)
                }
            })
        });
        search(places, |place| self.is_zero(place.0, place.1))
    }

    // Those of the copied columns that are zero, by rising column and then row.
    fn zero_factors(&self) -> Option<Found<(Column, usize)>>
        ensures { IfSome result (λ f. ZeroIn self.now.layout self.now.circuit.words.now self.now.witness.now self.now.columns.now self.now.names.now self.now.groups.now self.now.lookups (elem self.now.beta) (elem self.now.gamma) f.first.0 f.first.1) }
    {
        let rows = self.layout.rows;
        let places = (0..self.names.len()).flat_map(|i| (1..rows).map(move |row| (
            Column::Copied(i),
            row,
        )));
        search(places, |place| self.is_zero(place.0, place.1))
    }

    // All, the lookups before the copied columns.
    fn zeros(&self) -> Option<Found<(Column, usize)>>
        ensures { IfSome result (λ f. ZeroIn self.now.layout self.now.circuit.words.now self.now.witness.now self.now.columns.now self.now.names.now self.now.groups.now self.now.lookups (elem self.now.beta) (elem self.now.gamma) f.first.0 f.first.1) }
    {
        let Some(sides) = self.zero_sides() else {
            return self.zero_factors();
        };
        let more = self.zero_factors().map_or(0, |factors| factors.count);
        Some(Found {
            first: sides.first,
            count: sides.count.saturating_add(more),
        })
    }

    // The polynomial's number of a copied column, else 0.
    fn poly(&self, of: Column) -> u64
        ensures { result ≡ poly_named self.now.names.now of }
    {
        match of {
            Column::Input(_) | Column::Table(_) => 0,
            Column::Copied(i) => word_at(self.names, i),
        }
    }

    // What is told of a denominator that is zero.
    fn told_zero(&self, of: Column, at: usize) -> ZeroDenominator
        requires { ZeroIn self.now.layout self.now.circuit.words.now self.now.witness.now self.now.columns.now self.now.names.now self.now.groups.now self.now.lookups (elem self.now.beta) (elem self.now.gamma) of at }
        ensures { ZeroNamed self.now.circuit.words.now self.now.witness.now self.now.challenges.now self.now.columns.now result }
    {
        let place = self.place(at);
        ZeroDenominator {
            of,
            poly: self.poly(of),
            row: at,
            place,
        }
    }
}

// Of words for which build answered 17. The columns before m are written to the column buffer. A denominator that is named is zero.
pub fn find<'a>(
    circuit: &'a [u64],
    instance: &[u64],
    witness: &'a [u64],
    challenges: &'a [u64],
    columns: &mut [u64],
) -> Option<Found<ZeroDenominator>>
    ensures { IfSome result (λ f. ZeroNamed circuit.now witness.now challenges.now columns.new f.first) }
{
    let prepared = fill(circuit, instance, witness, challenges, columns)?;
    let search = Search::new(&prepared, witness, challenges, columns);
    let found = search.zeros()?;
    Some(Found {
        first: search.told_zero(found.first.0, found.first.1),
        count: found.count,
    })
}
