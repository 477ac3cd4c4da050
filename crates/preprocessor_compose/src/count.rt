// How many nodes the composed expression takes, or how many of them an evaluation visits, counted from the sizes of the user's
// expressions, with nothing composed; 2^60 where there are more.
ghost use Rattle.std.specs.Prelude.{◌≡◌, List, ℕ, ◌+◌, ◌*◌, ◌≤◌, ◌<◌, min, length, get_or};
ghost use Rattle.lists.specs.Lists.{tabulate, All};
ghost use Rattle.expression.specs.Nodes.{expr_of};
ghost use Rattle.expression.specs.Flat.{largest_size};
ghost use Rattle.expression.specs.Walks.{weight};
ghost use Rattle.backend.specs.Circuit.{Circuit};
ghost use Rattle.preprocessor.specs.Compose.{compose, lookup_tree_of};
ghost use Rattle.preprocessor.specs.ComposeWords.{IsNode, groups_from_words, permutation_nodes};
ghost use Rattle.preprocessor.specs.Count.{nodes_in, list_nodes, group_nodes};
ghost use Rattle.preprocessor_constraints.specs.Lookups.{side_of};
ghost use Rattle.preprocessor_constraints.specs.Groups.{inputs_of, table_of};
ghost use Rattle.preprocessor_compose.specs.Counted.{item_of};
ghost use Rattle.preprocessor_compose.specs.Input.{AreWordsOf};

use crate::constraints::num_constraints;
use crate::words::CircuitWords;
use expression_degree::{add_sizes, size_of};
use preprocessor_constraints::group::Group;
use preprocessor_constraints::lookup::{LookupSide, Lookups};
use preprocessor_constraints::{Numbers, Span};

// What is counted of an expression: all of its nodes, or those that an evaluation of it visits, which are all but the Items.
#[derive(Clone, Copy)]
pub enum Counted {
    Nodes,
    Visits,
}

impl Counted {
    // As how many an Item is counted.
    fn item(self) -> u64
        ensures number { result ≡ item_of self }
        ensures few { result ≤ 1 }
    {
        match self {
            Counted::Nodes => 1,
            Counted::Visits => 0,
        }
    }
}

// What `distribute_powers` adds to n expressions.
fn list_nodes(n: usize, counted: Counted) -> u64
    ensures { result ≡ min largest_size (list_nodes (item_of counted) n) }
{
    if n == 0 {
        return 1;
    }
    if n == 1 {
        return 0;
    }
    let items = n as u64 * counted.item();
    add_sizes(items, 2)
}

// The nodes of the expressions with these roots, which stand `step` words apart.
fn roots_nodes(user: &[u64], words: &[u64], roots: Span, step: usize, counted: Counted) -> u64
    requires named { All (IsNode user.now) words.now }
    requires bound { roots.first + roots.count * step < length words.now + step }
    ensures { result ≡ min largest_size (nodes_in (item_of counted) (tabulate (λ i. expr_of user.now (get_or words.now (roots.first + i * step) 0)) roots.count)) }
{
    let mut sum: u64 = 0;
    for i in 0..roots.count {
        let n = words[roots.first + i * step] as usize;
        sum = add_sizes(sum, size_of(user, n, counted.item()));
    }
    sum
}

// The nodes of lookup i's side, with gamma.
fn side_nodes(lookups: &Lookups, side: LookupSide, i: usize, counted: Counted) -> u64
    requires below { i < length lookups.now.widths.now }
    ensures { result ≡ min largest_size (weight (item_of counted) (side_of side lookups.now i)) }
{
    let roots = lookups.roots(side, i);
    let x = roots_nodes(lookups.user, lookups.pairs, roots, 2, counted);
    let y = list_nodes(roots.count, counted);
    let z = add_sizes(x, y);
    add_sizes(z, 2)
}

// The nodes of the inputs of a group.
fn inputs_nodes(group: &Group, counted: Counted) -> u64
    ensures { result ≡ min largest_size (nodes_in (item_of counted) (inputs_of group.now)) }
{
    let members = group.members;
    let mut sum: u64 = 0;
    for i in 0..members.count {
        let x = side_nodes(
            &group.lookups,
            LookupSide::Input,
            members.first + i,
            counted,
        );
        sum = add_sizes(sum, x);
    }
    sum
}

// The nodes of a group's constraint.
fn group_nodes(group: &Group, counted: Counted) -> u64
    requires few { group.now.members.count ≤ 8 }
    ensures { result ≡ min largest_size (group_nodes group.now.members.count (nodes_in (item_of counted) (inputs_of group.now)) (weight (item_of counted) (table_of group.now))) }
{
    let members = group.members;
    let inputs = inputs_nodes(group, counted);
    let table = side_nodes(&group.lookups, LookupSide::Table, members.first, counted);
    let x = add_sizes(inputs, members.count as u64);
    let y = (members.count as u64 + 1) * x;
    let z = add_sizes(y, table);
    let u = add_sizes(z, table);
    add_sizes(u, 6)
}

// The nodes of the groups' constraints.
fn groups_nodes(words: &CircuitWords, counted: Counted) -> u64
    ensures { result ≡ min largest_size (nodes_in (item_of counted) (tabulate (lookup_tree_of words.now.params (groups_from_words words.now.user.now words.now.sizes.now words.now.widths.now words.now.pairs.now)) words.now.params.num_groups)) }
{
    let lookups = Lookups {
        user: words.user,
        widths: words.widths,
        pairs: words.pairs,
        beta: words.params.num_challenges,
    };
    let mut sum: u64 = 0;
    let mut first = 0;
    for j in 0..words.params.num_groups {
        let count = words.sizes[j] as usize;
        let members = Span { first, count };
        let group = Group { lookups, members };
        let x = group_nodes(&group, counted);
        sum = add_sizes(sum, x);
        first += count;
    }
    sum
}

// The nodes of the permutation's constraints.
fn permutation_nodes(numbers: Numbers) -> u64
    ensures { result ≡ permutation_nodes numbers.params }
{
    let params = numbers.params;
    if params.num_permutation_polys == 0 {
        return 0;
    }
    (6 + params.num_permutation_polys * 18 + params.num_chunks * 4) as u64
}

// The nodes of the composed expression.
pub fn composed_nodes(words: &CircuitWords, counted: Counted) -> u64
    ensures { (c : Circuit) (names : List ℕ) → AreWordsOf c names words.now → result ≡ min largest_size (weight (item_of counted) (compose c)) }
{
    let params = words.params;
    let numbers = Numbers { params };
    let count = words.roots.len();
    let roots = Span { first: 0, count };
    let own = roots_nodes(words.user, words.roots, roots, 1, counted);
    let groups = groups_nodes(words, counted);
    let permutation = permutation_nodes(numbers);
    let n = num_constraints(count, numbers);
    let x = add_sizes(own, groups);
    let y = add_sizes(x, permutation);
    let z = add_sizes(y, list_nodes(n, counted));
    let u = add_sizes(z, (params.num_groups + 2) as u64);
    add_sizes(u, list_nodes(params.num_groups + 1, counted))
}
