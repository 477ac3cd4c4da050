// Faults of cells, for question 11.
use crate::bounds::Bounds;

impl Bounds<'_> {
    // The first cell of the cycle that cell j stands in.
    fn cycle_of(self, j: u64) -> u64 {
        let mut first: u64 = 0;
        for i in 0..self.lengths.count {
            let next = first.wrapping_add(self.word(self.lengths.at(i)));
            if j < next {
                return first;
            }
            first = next;
        }
        first
    }

    // Do the cells that stand at two places have the same polynomial and row?
    fn is_same_cell(self, at: usize, other: usize) -> bool {
        let row = self.word(at.wrapping_add(1));
        self.word(at) == self.word(other) && row == self.word(other.wrapping_add(1))
    }

    // Where cell j stood before in its cycle.
    pub fn stood(self, j: u64) -> Option<usize> {
        let cell = self.cells.at(j);
        (self.cycle_of(j)..j)
            .find(|i| self.is_same_cell(self.cells.at(*i), cell))
            .map(|i| self.cells.at(i))
    }

    // Question 11, of cell j, which stands at a place.
    pub(crate) fn cell_fault(self, at: usize, j: u64) -> Option<usize> {
        let row = at.wrapping_add(1);
        if self.polys <= self.word(at) {
            return Some(at);
        }
        if self.word(row) == 0 || self.rows <= self.word(row) {
            return Some(row);
        }
        self.stood(j).map(|_| at)
    }
}
