// A column before it is written: its words set to 0.
ghost use Rattle.std.specs.Prelude.{◌≡◌, ◌+◌, ◌≤◌, length, replicate};
ghost use Rattle.lists.specs.Lists.{write_at};

// `rows` words from `at` on become 0.
pub fn clear(columns: &mut [u64], at: usize, rows: usize)
    requires { at + rows ≤ length columns.old }
    ensures { columns.new ≡ write_at columns.old at (replicate rows 0) }
{
    columns[at..at + rows].fill(0);
}
