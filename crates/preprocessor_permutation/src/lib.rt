// `permutation_polys`: the columns of labels of the copied columns, in the one column buffer.
#![tactic(auto)]

pub mod records;

ghost use Rattle.std.specs.Prelude.{◌≡◌, ◌+◌, ◌*◌, ◌/◌, ◌^◌, ◌≤◌, ◌<◌, length};
ghost use Rattle.lists.specs.Lists.{All, range, write_at, split, total};
ghost use Rattle.backend.specs.Circuit.{cells_of, max_polys};
ghost use Rattle.preprocessor.specs.Permutation.{Once, Starts, Walkable, permutation_columns};

use crate::records::walk;
use backend::MAX_POLYS;

// The first labels of `count` cells: column idx of the sorted list starts as idx × 2^k + row, so that the words are 0, 1, 2, …
fn first_labels(columns: &mut [u64], at: usize, count: usize)
    requires { at + count ≤ length columns.old }
    ensures { columns.new ≡ write_at columns.old at (range count) }
{
    for j in 0..count {
        columns[at + j] = j as u64;
    }
}

// Where each copied column begins, by its polynomial: 8 instance, 32 preprocess and 32 witness columns at most.
fn column_starts(copied: &[u64], rows: usize, at: usize) -> [u64; MAX_POLYS]
    requires { Once copied.now × All (λ q. q < max_polys) copied.now × (at + length copied.now * rows < 2 ^ 64) }
    ensures { Starts result copied.now rows at }
{
    let mut starts = [0; MAX_POLYS];
    for (i, q) in copied.iter().enumerate() {
        starts[*q as usize] = (at + i * rows) as u64;
    }
    starts
}

// The permutation columns of the copied columns, from word `at` on: cycles act one after another.
pub fn permutation_polys(
    rows: usize,
    copied: &[u64],
    lengths: &[u64],
    cells: &[u64],
    columns: &mut [u64],
    at: usize,
)
    requires walkable { Walkable copied.now rows (split lengths.now (cells_of cells.now)) }
    requires lengths_value { total lengths.now ≡ length cells.now / 2 }
    requires rows_in_bounds { at + length copied.now * rows ≤ length columns.old }
    ensures { columns.new
        ≡ write_at columns.old at (permutation_columns copied.now rows (split lengths.now (cells_of cells.now))) }
{
    first_labels(columns, at, copied.len() * rows);
    let starts = column_starts(copied, rows, at);
    let mut start: usize = 0;
    for count in lengths {
        let end = start + *count as usize * 2;
        walk(columns, &starts, &cells[start..end]);
        start = end;
    }
}
