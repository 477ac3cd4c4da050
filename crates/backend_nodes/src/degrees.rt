// Question 10 and D: the degrees of the user and lookup constraints, each 1025 where it is more.
ghost use Rattle.std.specs.Prelude.{◌≡◌, true, List, map, ◌+◌, ◌/◌, ◌<◌, ◌≤◌, min, length, get_or, take};
ghost use Rattle.lists.specs.Lists.{all_of, split, total, All};
ghost use Rattle.expression.specs.Expr.{Expr};
ghost use Rattle.expression.specs.Nodes.{expr_of};
ghost use Rattle.backend.specs.Circuit.{Pair, circuit_of, groups_of, pairs_of, stated_of};
ghost use Rattle.backend.specs.Layout.{is_root};
ghost use Rattle.backend.specs.Degrees as def;
ghost use Rattle.backend.specs.Questions.{q7, q18};

use crate::lookups::Lookups;
use backend_sections::groups::group_sizes;
use backend_sections::reader::{Circuit, stated_of};
use expression_degree::degree_of;
use lists::sum_before;

// The largest degree of user constraints, given by their roots.
fn user_degree(nodes: &[u64], constraints: &[u64]) -> u64
    requires { all_of (is_root nodes.now) constraints.now ≡ true }
    ensures { result ≡ min 1025 (def.degree_of (map (expr_of nodes.now) constraints.now)) }
{
    let mut degree: u64 = 0;
    for root in constraints {
        degree = degree.max(degree_of(nodes, *root as usize));
    }
    degree
}

impl Lookups<'_> {
    // The largest degree of one side of a lookup, the `n` pairs from `start` on: 0 the inputs, 1 the tables.
    fn side_degree(self, start: usize, n: usize, side: usize) -> u64
        requires { (start + n ≤ length self.pairs.now / 2) × (side < 2) }
        ensures { result ≡ min 1025 (def.side_degree self.entry.nodes.now self.entry.pairs.now start side n) }
    {
        let mut degree: u64 = 0;
        for i in 0..n {
            let root = self.pairs[(start + i) * 2 + side] as usize;
            degree = degree.max(degree_of(self.nodes, root));
        }
        degree
    }

    // The degree of the constraint of a group, the `n` lookups from lookup `first` on, whose first pair is `start`: 1, those of its inputs,
    // and that of its table.
    fn group_degree(self, first: usize, n: usize, start: usize) -> u64
        requires { (first + n ≤ length self.widths.now) × ((0 < n) × ((n ≤ 8) × (start ≡ total (take first self.widths.now)))) }
        ensures { result ≡ min 1025 (def.group_degree (def.group_from self.entry.nodes.now self.entry.widths.now self.entry.pairs.now first n)) }
    {
        let table = self.side_degree(start, self.widths[first] as usize, 1);
        let mut sum: u64 = 0;
        let mut next = start;
        for i in 0..n {
            let w = self.widths[first + i] as usize;
            sum += self.side_degree(next, w, 0);
            next += w;
        }
        (1 + sum + table).min(1025)
    }

    // The largest degree of the constraints of the groups, which have so many lookups each.
    fn groups_degree(self, sizes: &[u64]) -> u64
        requires { (total sizes.now ≡ length self.widths.now) × ((length self.widths.now ≤ 8) × All (λ n. 0 < n) sizes.now) }
        ensures { result ≡ min 1025 (def.groups_degree (split sizes.now (split self.entry.widths.now (pairs_of self.entry.nodes.now self.entry.pairs.now)))) }
    {
        let mut degree: u64 = 0;
        let mut first: usize = 0;
        for j in 0..sizes.len() {
            let n = sizes[j] as usize;
            let start = sum_before(self.widths, first);
            degree = degree.max(self.group_degree(first, n, start));
            first += n;
        }
        degree
    }
}

// What question 10 and D are read from: word 1 of the circuit words, and the largest degree of the user and of the lookup constraints.
#[derive(Clone, Copy)]
pub struct Degrees {
    pub stated: u64,
    pub user: u64,
    pub lookups: u64,
}

// The degrees of the constraints of a circuit, once 7 and 18 have been answered yes.
pub fn degrees_of(circuit: Circuit) -> Degrees
    requires { (q7 (circuit_of circuit.words.now) ≡ true) × (q18 (circuit_of circuit.words.now) ≡ true) }
    ensures { (result.stated ≡ get_or circuit.entry.words.now 1 0) × ((result.user ≡ min 1025 (def.degree_of (circuit_of circuit.entry.words.now).constraints)) × (result.lookups ≡ min 1025 (def.groups_degree (groups_of (circuit_of circuit.entry.words.now))))) }
{
    let laid = circuit.laid();
    let users = laid.constraints();
    let numbers = laid.groups();
    let sizes = group_sizes(numbers);
    let lookups = Lookups::new(circuit);
    let stated = stated_of(circuit.words);
    let user = user_degree(lookups.nodes, users);
    let largest = lookups.groups_degree(sizes.as_slice());
    Degrees {
        stated,
        user,
        lookups: largest,
    }
}

// Question 10: is the degree of each user and lookup constraint at most 1024, and, if a maximum degree stands, does no user
// constraint exceed it?
pub fn degrees_fit(d: Degrees) -> bool
    ensures { (constraints : List Expr) (groups : List (List (List Pair))) → d.user ≡ min 1025 (def.degree_of constraints) → d.lookups ≡ min 1025 (def.groups_degree groups) → result ≡ def.degrees_fit (stated_of d.stated) constraints groups }
{
    if 1024 < d.user {
        return false;
    }
    if 1024 < d.lookups {
        return false;
    }
    (d.stated == 0) | (d.user < d.stated)
}

// Rust `max_degree`, D: the largest of 2, the stated maximum and all user and lookup constraint degrees.
pub fn max_degree(d: Degrees) -> u64
    ensures { (constraints : List Expr) (groups : List (List (List Pair))) → d.user ≡ min 1025 (def.degree_of constraints) → d.lookups ≡ min 1025 (def.groups_degree groups) → def.degrees_fit (stated_of d.stated) constraints groups ≡ true → result ≡ def.largest_degree (stated_of d.stated) constraints groups }
{
    let least = d.stated.saturating_sub(1).max(2);
    least.max(d.user.max(d.lookups))
}
