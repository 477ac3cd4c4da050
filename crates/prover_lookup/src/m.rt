// prover.rs `lookup_m_poly`: the counts of one lookup, in a column of its own, and those of a group of lookups, in the column buffer.
ghost use Rattle.std.specs.Prelude.{◌≡◌, cond, ◌+◌, ◌*◌, ◌≤◌, length, get_or};
ghost use Rattle.field.specs.Field.{𝔾};
ghost use Rattle.lists.specs.Lists.{write_at};
ghost use Rattle.prover.specs.Lookup.{covered, group_covered};
ghost use Rattle.prover.specs.Answers.{searches, first_number, m_words};
ghost use Rattle.prover.specs.Words.{elements, elements_from, Small, count_words};
ghost use Rattle.prover_lookup.specs.Lookups.{inputs_from, Room, added_words, group_words, group_searches};

use crate::group::GroupColumns;
use prover_instance::blank_column::clear;

// Adds the counts of one input to the column m, each at the last equal table row. False, and a column of zeros, where an input has none.
fn count_inputs(rows: usize, input: &[u64], table: &[u64], m: &mut [u64]) -> bool
    requires { (rows ≤ length input.now) × (rows ≤ length table.now) × (rows ≤ length m.old) × Small rows (λ b. get_or input.now b 0) × Small rows (λ b. get_or table.now b 0) × Room rows (λ b. get_or m.old b 0) }
    ensures { (result ≡ covered 𝔾 rows (elements input.now) (elements table.now)) × (m.new ≡ write_at m.old 0 (added_words m.old rows (elements input.now) (elements table.now))) }
{
    for i in 0..rows {
        let v = input[i];
        let found = 'search: {
            for j in (0..rows).rev() {
                if table[j] == v {
                    break 'search Some(j);
                }
            }
            None
        };
        let Some(row) = found else {
            clear(m, 0, rows);
            return false;
        };
        m[row] += 1;
    }
    true
}

// Counts each input at the last equal table row, in a column of its own. False, and a column of zeros, where an input has none.
// Both are also said by the answers of the search: its number, 15 where one is `None`, and its column m.
pub fn m_column(rows: usize, input: &[u64], table: &[u64], m: &mut [u64]) -> bool
    requires { (rows ≤ length input.now) × (rows ≤ length table.now) × (rows ≤ length m.old) × Small rows (λ b. get_or input.now b 0) × Small rows (λ b. get_or table.now b 0) }
    ensures counts { (result ≡ covered 𝔾 rows (elements input.now) (elements table.now)) × (m.new ≡ write_at m.old 0 (count_words rows (elements input.now) (elements table.now))) }
    ensures found { (cond result 0 15 ≡ first_number (searches 𝔾 rows (elements input.now) (elements table.now))) × (m.new ≡ write_at m.old 0 (m_words rows (searches 𝔾 rows (elements input.now) (elements table.now)))) }
{
    clear(m, 0, rows);
    count_inputs(rows, input, table, m)
}

impl GroupColumns {
    // The counts of the group, from word m of the column buffer on, behind the columns of the group. False, and a column of zeros, where an
    // input has no equal table row. Both are also said by the answers of the searches for all inputs, one lookup after another.
    pub fn lookup_m_poly(&self, columns: &mut [u64], m: usize) -> bool
        requires { (self.now.input + self.now.members * 2 * self.now.rows ≤ m) × (m + self.now.rows ≤ length columns.old) × Small (self.now.members * 2 * self.now.rows) (λ b. get_or columns.old (self.now.input + b) 0) }
        ensures counts { (result ≡ group_covered 𝔾 self.now.rows (inputs_from columns.old self.now.input self.now.rows self.now.members) (elements_from columns.old (self.now.input + self.now.rows))) × (columns.new ≡ write_at columns.old m (group_words self.now.rows (inputs_from columns.old self.now.input self.now.rows self.now.members) (elements_from columns.old (self.now.input + self.now.rows)))) }
        ensures found { (cond result 0 15 ≡ first_number (group_searches self.now.rows (inputs_from columns.old self.now.input self.now.rows self.now.members) (elements_from columns.old (self.now.input + self.now.rows)))) × (columns.new ≡ write_at columns.old m (m_words self.now.rows (group_searches self.now.rows (inputs_from columns.old self.now.input self.now.rows self.now.members) (elements_from columns.old (self.now.input + self.now.rows))))) }
    {
        let rows = self.rows;
        let (given, counts) = columns.split_at_mut(m);
        clear(counts, 0, rows);
        for i in 0..self.members {
            if !count_inputs(
                rows,
                &given[self.input + i * (2 * rows)..],
                &given[self.input + rows..],
                counts,
            ) {
                return false;
            }
        }
        true
    }
}
