// Which readings question 15 finds in no row of their group's table: how many there are, and of the first the lookup, the row, its place in
// the row order, and the values of the lookup's input expressions.
ghost use Rattle.std.specs.Prelude.{◌≡◌, ◌≢◌, ℕ, ◌<◌, ◌≤◌, true, false, length, IfSome};
ghost use Rattle.expression.specs.Point.{PointInOrder};
ghost use Rattle.cli_search.specs.Ground.{side_word};
ghost use Rattle.cli_search.specs.Missing.{MissingIn, Missing};

use crate::filled::fill;
use crate::found::{Found, search};
use crate::search::Search;
use arrayvec::ArrayVec;
use expression::value::Point;
use expression_evaluate::evaluation::Evaluation;
use lists::sum_before;

// A reading: `place` is the row's in the row order, and the first `width` values are those of the lookup's input expressions.
// Kept: an `ArrayVec` of the values is no `Copy`, which this type is.
#[derive(Clone, Copy)]
pub struct Unlisted {
    pub lookup: usize,
    pub row: usize,
    pub place: usize,
    pub width: usize,
    pub values: [u64; 8],
    pub ghost few: { width ≤ 8 },
}

impl<'a> Search<'a> {
    // Is the value one of a lookup's compressed table?
    fn is_listed(&self, lookup: usize, value: u64) -> bool
        requires { lookup < self.now.lookups }
        ensures { result ≡ false → (i : ℕ) → i < self.now.layout.rows → side_word self.now.layout (length self.now.names.now) self.now.columns.now 1 lookup i ≢ value }
    {
        self.table(lookup).contains(&value)
    }

    // Does the compressed input of a lookup at a row equal no word of its group's compressed table? No where there is no such lookup or row.
    fn is_missing(&self, lookup: usize, row: usize) -> bool
        ensures { result ≡ true → MissingIn self.now.layout self.now.lookups (length self.now.names.now) self.now.groups.now self.now.columns.now lookup row }
    {
        let first = self.first_of(lookup);
        if lookup >= self.lookups || row >= self.layout.rows || first >= self.lookups {
            return false;
        }
        let x = self.input(lookup)[row];
        !self.is_listed(first, x)
    }

    // The readings that are missing, the lookups by rising number and each one's rows by rising row.
    fn missing(&self) -> Option<Found<(usize, usize)>>
        ensures { IfSome result (λ f. MissingIn self.now.layout self.now.lookups (length self.now.names.now) self.now.groups.now self.now.columns.now f.first.0 f.first.1) }
    {
        let rows = self.layout.rows;
        let places = (0..self.lookups).flat_map(|lookup| (0..rows).map(move |row| (lookup, row)));
        search(places, |place| self.is_missing(place.0, place.1))
    }

    // The values of the input expressions of a lookup at a point.
    fn values(&self, lookup: usize, point: Point) -> ArrayVec<u64, 8>
        requires { (lookup < self.now.lookups) × PointInOrder point }
    {
        let laid = self.circuit.circuit().laid();
        let nodes = laid.nodes();
        let widths = laid.widths();
        let pairs = laid.pairs();
        let over = Evaluation {
            circuit: self.circuit.words,
            witness: self.witness,
            columns: self.columns,
            challenges: self.challenges,
            layout: self.layout,
            point,
        };
        let first = sum_before(widths, lookup);
        let mut values = ArrayVec::new();
        for i in first..first + widths[lookup] as usize {
            let value = over.value(nodes, pairs[i * 2] as usize);
            values.push(u64::from(value));
        }
        values
    }

    // What is told of a reading.
    fn told(&self, lookup: usize, row: usize) -> Unlisted
        requires { (lookup < self.now.lookups) × (row < self.now.layout.rows) }
        ensures { (result.lookup ≡ lookup) × (result.row ≡ row) }
    {
        let place = self.place(row);
        let point = Point {
            k: self.k,
            row,
            place,
            eq: 0,
        };
        let told = self.values(lookup, point);
        let width = told.len();
        let mut values = [0; 8];
        values[..width].copy_from_slice(told.as_slice());
        Unlisted {
            lookup,
            row,
            place,
            width,
            values,
        }
    }
}

// Of words for which build answered 15. The columns before m are written to the column buffer. A reading that is named stands in no
// row of its group's table.
pub fn find<'a>(
    circuit: &'a [u64],
    instance: &[u64],
    witness: &'a [u64],
    challenges: &'a [u64],
    columns: &mut [u64],
) -> Option<Found<Unlisted>>
    ensures { IfSome result (λ f. Missing circuit.now columns.new f.first.lookup f.first.row) }
{
    let prepared = fill(circuit, instance, witness, challenges, columns)?;
    let search = Search::new(&prepared, witness, challenges, columns);
    let found = search.missing()?;
    Some(Found {
        first: search.told(found.first.0, found.first.1),
        count: found.count,
    })
}
