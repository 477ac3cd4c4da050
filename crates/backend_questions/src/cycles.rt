// Question 11: are the cycles as they must be? Cells are pairs of words (polynomial, row); a cycle is a run of them.
ghost use Rattle.std.specs.Prelude.{◌≡◌, true, ◌+◌, ◌-◌, ◌/◌, ◌<◌, ◌≤◌, length};
ghost use Rattle.lists.specs.Lists.{split, total};
ghost use Rattle.backend.specs.Circuit.{cell_at, cells_of, circuit_of};
ghost use Rattle.backend.specs.Questions.{good_cycle, cycles_good, q11};
ghost use Rattle.backend.specs.Cycles as def;
ghost use Rattle.backend_questions.specs.Chains.{Linked};

use backend_sections::reader::Circuit;

// The first `count` cells, each linked to the last before it whose row has the same remainder, its chain: `heads` has one more than the
// number of the last cell of each chain, 0 for none, and `earlier` what `heads` had before the cell was put in.
// Kept: fixed memory; the cells are found by chain and not by number of entries.
#[derive(Drop)]
struct LinkedCells<'a> {
    cells: &'a [u64],
    count: usize,
    heads: [u16; 1024],
    earlier: [u16; 4096],
    ghost linked: { Linked cells.now heads earlier count },
}

impl<'a> LinkedCells<'a> {
    // None yet.
    fn new(cells: &'a [u64]) -> LinkedCells<'a>
        ensures cells { result.cells.now ≡ cells.entry.now }
        ensures count { result.count ≡ 0 }
    {
        LinkedCells {
            cells,
            count: 0,
            heads: [0; 1024],
            earlier: [0; 4096],
        }
    }

    // Is cell `count` none of those before it from `start` on? Only cells of its chain can be the same: they are met from the last down to
    // `start`.
    // Kept: the `while` follows the links of a chain, and counts no index.
    fn fresh(&self, start: usize) -> bool
        requires { (self.now.count < length self.now.cells.now / 2) × (self.now.count < 4096) }
        ensures { result ≡ def.fresh (cell_at self.now.cells.now self.now.count) (def.cells_from self.now.cells.now start (self.now.count - start)) }
    {
        let polynomial = self.cells[self.count * 2];
        let row = self.cells[self.count * 2 + 1];
        let chain = (row % 1024) as usize;
        let mut j = self.heads[chain] as usize;
        while start < j {
            let other = j - 1;
            if (polynomial == self.cells[other * 2]) & (row == self.cells[other * 2 + 1]) {
                return false;
            }
            j = self.earlier[other] as usize;
        }
        true
    }

    // Puts cell `count` into its chain.
    fn link(&mut self)
        requires { (self.old.count < length self.old.cells.now / 2) × (self.old.count < 4096) }
        ensures cells { self.new.cells.now ≡ self.old.cells.now }
        ensures count { self.new.count ≡ self.old.count + 1 }
    {
        let at = self.count;
        let chain = (self.cells[at * 2 + 1] % 1024) as usize;
        self.earlier[at] = self.heads[chain];
        self.heads[chain] = at as u16 + 1;
        self.count = at + 1;
    }
}

// Is cell `count` good: its polynomial in range, its row from 1 to `rows` − 1, and none of those before it from `start` on?
fn good_cell(linked: &LinkedCells, start: usize, polys: u64, rows: u64) -> bool
    requires { (linked.now.count < length linked.now.cells.now / 2) × (linked.now.count < 4096) }
    ensures { result ≡ def.good_at polys rows (cell_at linked.now.cells.now linked.now.count) (def.cells_from linked.now.cells.now start (linked.now.count - start)) }
{
    let at = linked.count;
    let row = linked.cells[at * 2 + 1];
    (linked.cells[at * 2] < polys) & (1 <= row) & (row < rows) && linked.fresh(start)
}

// Is the cycle of the next `n` cells good? If so, its cells are linked.
fn good_cycle(linked: &mut LinkedCells, n: usize, polys: u64, rows: u64) -> bool
    requires { (linked.old.count + n ≤ length linked.old.cells.now / 2) × (linked.old.count + n ≤ 4096) }
    ensures value { result ≡ good_cycle polys rows (def.cells_from linked.old.cells.now linked.old.count n) }
    ensures cells { linked.new.cells.now ≡ linked.old.cells.now }
    ensures count { result ≡ true → linked.new.count ≡ linked.old.count + n }
{
    if n == 0 {
        return false;
    }
    let start = linked.count;
    for _ in 0..n {
        if !good_cell(linked, start, polys, rows) {
            return false;
        }
        linked.link();
    }
    true
}

// Is each cycle non-empty, its polynomials in range, its rows from 1 to `rows` − 1, no cell twice within one cycle?
fn cycles_good(lengths: &[u64], cells: &[u64], polys: u64, rows: u64) -> bool
    requires { (total lengths.now ≡ length cells.now / 2) × (length cells.now / 2 ≤ 4096) }
    ensures { result ≡ cycles_good polys rows (split lengths.now (cells_of cells.now)) }
{
    let mut linked = LinkedCells::new(cells);
    for n in lengths {
        if !good_cycle(&mut linked, *n as usize, polys, rows) {
            return false;
        }
    }
    true
}

// Question 11.
pub fn question_11(circuit: Circuit) -> bool
    ensures { result ≡ q11 (circuit_of circuit.entry.words.now) }
{
    let laid = circuit.laid();
    let polys = circuit.num_poly();
    let rows = laid.rows();
    let lengths = laid.lengths();
    let cells = laid.cells();
    cycles_good(lengths, cells, polys, rows)
}
