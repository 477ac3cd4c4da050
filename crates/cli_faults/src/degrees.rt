// Degrees, for question 10.
use crate::bounds::Bounds;
use backend_sections::contents::STATED_WORD;

// The degree of a group, where that of a root is known only to be above 1024: more than 1 and nine times 1024.
pub const ABOVE: u64 = 9218;

// Which side of a lookup's pairs.
#[derive(Clone, Copy)]
enum Side {
    Input,
    Table,
}

// The sum, ABOVE where one of the two is more than 1024 or ABOVE.
fn degrees_sum(sum: u64, degree: u64) -> u64 {
    if sum == ABOVE || 1024 < degree {
        return ABOVE;
    }
    sum.wrapping_add(degree)
}

impl Bounds<'_> {
    // The degree of a root, up to 1025; none where there is no such node.
    pub fn degree_of(self, root: u64) -> Option<u64> {
        let nodes = self.node_words();
        if root >= (nodes.len() / 4) as u64 {
            return None;
        }
        Some(expression_degree::degree_of(nodes, root as usize))
    }

    // A constraint's root whose degree is too large.
    pub(crate) fn degree_fault(self, at: usize) -> Option<usize> {
        let degree = self.degree_of(self.word(at))?;
        let stated = self.word(STATED_WORD);
        (1024 < degree || stated != 0 && stated <= degree).then_some(at)
    }

    // The largest degree of a lookup's inputs or tables, up to 1025.
    fn lookup_degree(self, i: u64, side: Side) -> u64 {
        let pairs = self.pairs_of(i);
        let roots = match side {
            Side::Input => pairs,
            Side::Table => pairs.from_second(),
        };
        (0..roots.count)
            .filter_map(|j| self.degree_of(self.word(roots.at(j))))
            .max()
            .unwrap_or(0)
    }

    // The degree of the constraint of the group that begins with lookup `first`: 1, those of the inputs and that of the table.
    pub fn group_degree(self, first: u64) -> u64 {
        let table = degrees_sum(1, self.lookup_degree(first, Side::Table));
        (0..self.lookups_in(first))
            .map(|n| self.lookup_degree(first.wrapping_add(n), Side::Input))
            .fold(table, degrees_sum)
    }

    // The place of the first pair of a group whose degree is too large; i is the number of its first lookup. None for another
    // lookup.
    pub(crate) fn group_fault(self, i: u64) -> Option<usize> {
        let large = self.first_of(i) == i && 1024 < self.group_degree(i);
        large.then(|| self.pairs_of(i).start)
    }
}
