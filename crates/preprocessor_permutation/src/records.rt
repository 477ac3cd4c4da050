// A walk along a cycle, whose cells are words or records: "The cycle walk is also given over a lent slice of cell records".
ghost use Rattle.std.specs.Prelude.{◌≡◌, List, ◌<◌, length, get_or, set};
ghost use Rattle.lists.specs.Lists.{All};
ghost use Rattle.backend.specs.Circuit.{max_polys, cells_of};
ghost use Rattle.backend.specs.Circuit as circuit;
ghost use Rattle.preprocessor.specs.Permutation.{CycleIn, Walked, cell_word};
ghost use Rattle.preprocessor_permutation.specs.Cells.{cell_of, cycle_of};

use backend::MAX_POLYS;
use std::mem;

// "cells (polynomial, row)"
#[derive(Clone, Copy)]
pub struct Cell {
    pub polynomial: u64,
    pub row: u64,
}

// The cells of a cycle, however they are kept.
pub(crate) trait Cycle {
    ghost cells: { Self → List circuit.Cell };

    fn count(&self) -> usize
        ensures { result ≡ length (cells self.now) };

    // Cell i.
    fn cell(&self, i: usize) -> Cell
        requires { i < length (cells self.now) }
        ensures { (y : circuit.Cell) → get_or (cells self.now) i y ≡ cell_of result };
}

impl Cycle for &[Cell] {
    ghost cells = { λ xs. cycle_of xs.now };

    fn count(&self) -> usize {
        self.len()
    }

    fn cell(&self, i: usize) -> Cell {
        self[i]
    }
}

// Two words for a cell.
impl Cycle for &[u64] {
    ghost cells = { λ ws. cells_of ws.now };

    fn count(&self) -> usize {
        self.len() / 2
    }

    fn cell(&self, i: usize) -> Cell {
        Cell {
            polynomial: self[i * 2],
            row: self[i * 2 + 1],
        }
    }
}

// The label that a cell holds.
fn cell_label(columns: &[u64], starts: &[u64; MAX_POLYS], cell: Cell) -> u64
    requires { (cell.polynomial < max_polys) × (cell_word starts.now (cell_of cell) < length columns.now) }
    ensures { result ≡ get_or columns.now (cell_word starts.now (cell_of cell)) 0 }
{
    let q = cell.polynomial as usize;
    let word = starts[q] as usize + cell.row as usize;
    columns[word]
}

// A cell takes `label`; the label that it held.
fn exchange(columns: &mut [u64], starts: &[u64; MAX_POLYS], cell: Cell, label: u64) -> u64
    requires { (cell.polynomial < max_polys) × (cell_word starts.now (cell_of cell) < length columns.old) }
    ensures value { result ≡ get_or columns.old (cell_word starts.now (cell_of cell)) 0 }
    ensures columns_after { columns.new ≡ set columns.old (cell_word starts.now (cell_of cell)) label }
{
    let q = cell.polynomial as usize;
    let word = starts[q] as usize + cell.row as usize;
    mem::replace(&mut columns[word], label)
}

// Along a cycle each cell takes the label that the cell before held when the cycle began, the first that of the last.
// The cells stand in columns that begin where `starts` says, none of them twice; every word of the columns is told.
pub(crate) fn walk<C: Cycle + Copy>(columns: &mut [u64], starts: &[u64; MAX_POLYS], cycle: C)
    requires nonzero { 0 < length (C.cells cycle) }
    requires all { All (λ (x : circuit.Cell). (x.polynomial < max_polys) × (cell_word starts.now x < length columns.old)) (C.cells cycle) }
    requires cycle_in { CycleIn starts.now (C.cells cycle) (length columns.old) }
    ensures { Walked starts.now (C.cells cycle) columns.old columns.new }
{
    let count = cycle.count();
    let last = cycle.cell(count - 1);
    let mut label = cell_label(columns, starts, last);
    for i in 0..count {
        let next = cycle.cell(i);
        label = exchange(columns, starts, next, label);
    }
}

// Along a cycle each cell takes the label that the cell before held when the cycle began, the first that of the last.
// The cells stand in columns that begin where `starts` says, none of them twice; every word of the columns is told.
pub fn walk_cells(columns: &mut [u64], starts: &[u64; MAX_POLYS], cells: &[Cell])
    requires { (0 < length cells.now)
        × All (λ (x : circuit.Cell). (x.polynomial < max_polys) × (cell_word starts.now x < length columns.old)) (cycle_of cells.now)
        × CycleIn starts.now (cycle_of cells.now) (length columns.old) }
    ensures { Walked starts.now (cycle_of cells.now) columns.old columns.new }
{
    walk(columns, starts, cells)
}
