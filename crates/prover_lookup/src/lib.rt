// The count and h columns of all groups of lookups, in the one column buffer: lookup i's input starts at word compressed + i * 2 * rows,
// its table at compressed + (i * 2 + 1) * rows; group j has the next sizes[j] lookups, its counts start at m + j * rows, its h at
// h + j * rows.
#![tactic(auto)]

pub mod group;
pub mod h;
pub mod m;

ghost use Rattle.std.specs.Prelude.{◌+◌, ◌*◌, ◌≤◌, ◌<◌, length, get_or};
ghost use Rattle.field.specs.Element.{elem};
ghost use Rattle.lists.specs.Lists.{All, total};
ghost use Rattle.prover.specs.Words.{Small};
ghost use Rattle.prover_lookup.specs.Lookups.{CountsWritten, HsWritten};
ghost use Rattle.prover_lookup.specs.Unique.{filled-prop};

use crate::group::GroupColumns;
use field::goldilocks::Goldilocks;
use prover::ZeroDenominator;

// All groups, none of them empty: how many lookups each has, and the words of the column buffer at which the compressed columns, the
// counts and h start. h stands behind the others.
#[derive(Clone, Copy)]
pub struct Groups<'a> {
    pub sizes: &'a [u64],
    pub compressed: usize,
    pub counts: usize,
    pub hs: usize,
    pub rows: usize,
    pub ghost filled: { All (λ s. 0 < s) sizes.now } by { filled-prop sizes.now },
    pub ghost inputs_before: { compressed + total sizes.now * 2 * rows ≤ hs },
    pub ghost counts_before: { counts + length sizes.now * rows ≤ hs },
}

impl Groups<'_> {
    // The counts of all groups. Stops, and answers false, at the first group with an input that no table row equals.
    pub fn lookup_m_polys(&self, columns: &mut [u64]) -> bool
        requires { (self.now.compressed + total self.now.sizes.now * 2 * self.now.rows ≤ self.now.counts) × (self.now.counts + length self.now.sizes.now * self.now.rows ≤ length columns.old) × Small (total self.now.sizes.now * 2 * self.now.rows) (λ b. get_or columns.old (self.now.compressed + b) 0) }
        ensures { CountsWritten columns.old self.now.sizes.now self.now.compressed self.now.counts self.now.rows result columns.new }
    {
        let rows = self.rows;
        let mut input = self.compressed;
        let mut to = self.counts;
        for size in self.sizes {
            let members = *size as usize;
            let group = GroupColumns {
                input,
                members,
                rows,
            };
            if !group.lookup_m_poly(columns, to) {
                return false;
            }
            input += members * rows * 2;
            to += rows;
        }
        true
    }

    // h of all groups. Stops at the first group that has a denominator that is zero.
    pub fn lookup_h_polys(
        &self,
        columns: &mut [u64],
        gamma: Goldilocks,
    ) -> Result<(), ZeroDenominator>
        requires { self.now.hs + length self.now.sizes.now * self.now.rows ≤ length columns.old }
        ensures { HsWritten columns.old self.now.sizes.now self.now.compressed self.now.counts self.now.hs self.now.rows (elem gamma) result columns.new }
    {
        let rows = self.rows;
        let mut input = self.compressed;
        let mut counts = self.counts;
        let mut to = self.hs;
        for size in self.sizes {
            let members = *size as usize;
            let group = GroupColumns {
                input,
                members,
                rows,
            };
            group.lookup_h_poly(columns, counts, to, gamma)?;
            input += members * rows * 2;
            counts += rows;
            to += rows;
        }
        Ok(())
    }
}
