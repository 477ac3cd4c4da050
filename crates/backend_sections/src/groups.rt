// The groups of the lookups: how many lookups each has.
ghost use Rattle.std.specs.Prelude.{◌≡◌, true, ◌≤◌, length};
ghost use Rattle.backend.specs.Circuit.{num_groups_in, group_sizes};
ghost use Rattle.backend.specs.Questions.{group_numbers_good};
ghost use Rattle.arrayvec.specs.ArrayVec.{array_vec_len};

use arrayvec::ArrayVec;

// How many lookups have the number 0, how many 1, …, of numbers that follow the rule. Eight lookups at most.
pub fn group_sizes(groups: &[u64]) -> ArrayVec<u64, 8>
    requires { (group_numbers_good groups.now ≡ true) × (length groups.now ≤ 8) }
    ensures sizes { result.items ≡ group_sizes groups.now }
    ensures count { array_vec_len result ≡ num_groups_in groups.now }
    ensures few { array_vec_len result ≤ 8 }
{
    let mut counts = [0; 8];
    let mut count: usize = 0;
    for number in groups {
        let g = *number as usize;
        counts[g] += 1;
        count = count.max(g + 1);
    }
    let mut sizes = ArrayVec::new();
    for size in &counts[..count] {
        sizes.push(*size);
    }
    sizes
}
