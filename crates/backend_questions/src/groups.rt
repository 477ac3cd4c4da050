// Question 18, put to the group numbers and to the tables of each group.
ghost use Rattle.std.specs.Prelude.{◌≡◌, true, ◌+◌, ◌<◌, ◌≤◌, length};
ghost use Rattle.lists.specs.Lists.{all_of, split, total, All};
ghost use Rattle.expression.specs.Same.{same_list};
ghost use Rattle.backend.specs.Circuit.{circuit_of, pairs_of};
ghost use Rattle.backend.specs.Constraints.{tables_of};
ghost use Rattle.backend.specs.Degrees.{lookup_numbered, group_from};
ghost use Rattle.backend.specs.Questions.{group_numbers_good, tables_alike, q7, q18};

use backend_nodes::lookups::Lookups;
use backend_sections::groups::group_sizes;
use backend_sections::reader::Circuit;
use expression_same::same_tree;
use lists::sum_before;

// "first 0, each next the same or one more"
fn numbers_good(numbers: &[u64]) -> bool
    ensures { result ≡ group_numbers_good numbers.now }
{
    if numbers.is_empty() {
        return true;
    }
    if numbers[0] != 0 {
        return false;
    }
    for i in 1..numbers.len() {
        let before = numbers[i - 1];
        let number = numbers[i];
        if number < before {
            return false;
        }
        if 1 < number - before {
            return false;
        }
    }
    true
}

// Are the tables of lookup i, in width and as trees, those of lookup f?
fn same_tables(lookups: Lookups, i: usize, f: usize) -> bool
    requires { (i < length lookups.widths.now) × (f < length lookups.widths.now) }
    ensures { result ≡ same_list (tables_of (lookup_numbered lookups.entry.nodes.now lookups.entry.widths.now lookups.entry.pairs.now i)) (tables_of (lookup_numbered lookups.entry.nodes.now lookups.entry.widths.now lookups.entry.pairs.now f)) }
{
    let width = lookups.widths[i] as usize;
    let other = lookups.widths[f] as usize;
    if width != other {
        return false;
    }
    let first = sum_before(lookups.widths, i);
    let second = sum_before(lookups.widths, f);
    for t in 0..width {
        let a = lookups.pairs[(first + t) * 2 + 1] as usize;
        let b = lookups.pairs[(second + t) * 2 + 1] as usize;
        if !same_tree(lookups.nodes, a, b) {
            return false;
        }
    }
    true
}

// Are the tables of the `n` lookups from lookup `first` on alike?
fn group_alike(lookups: Lookups, first: usize, n: usize) -> bool
    requires { (first + n ≤ length lookups.widths.now) × (0 < n) }
    ensures { result ≡ tables_alike (group_from lookups.entry.nodes.now lookups.entry.widths.now lookups.entry.pairs.now first n) }
{
    for i in 0..n {
        if !same_tables(lookups, first + i, first) {
            return false;
        }
    }
    true
}

// Are the tables of each group alike? The groups have so many lookups.
fn groups_alike(lookups: Lookups, sizes: &[u64]) -> bool
    requires { (total sizes.now ≡ length lookups.widths.now) × All (λ n. 0 < n) sizes.now }
    ensures { result ≡ all_of tables_alike (split sizes.now (split lookups.entry.widths.now (pairs_of lookups.entry.nodes.now lookups.entry.pairs.now))) }
{
    let mut first: usize = 0;
    for size in sizes {
        let n = *size as usize;
        if !group_alike(lookups, first, n) {
            return false;
        }
        first += n;
    }
    true
}

// Question 18, once 7 has been answered yes.
pub fn question_18(circuit: Circuit) -> bool
    requires { q7 (circuit_of circuit.words.now) ≡ true }
    ensures { result ≡ q18 (circuit_of circuit.entry.words.now) }
{
    let numbers = circuit.laid().groups();
    let good = numbers_good(numbers);
    if !good {
        return false;
    }
    let sizes = group_sizes(numbers);
    let lookups = Lookups::new(circuit);
    groups_alike(lookups, sizes.as_slice())
}
