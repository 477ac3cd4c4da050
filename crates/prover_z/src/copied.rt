// What the z columns are made from and with.
ghost use Rattle.std.specs.Prelude.{◌+◌, ◌*◌, ◌^◌, ◌≤◌, ◌<◌, length};
ghost use Rattle.prover.specs.Lent.{Given};

use crate::ZColumns;

// The copied columns: `numbers` are those of their polynomials, whose values stand in the words that are lent and in the column buffer. There
// the labels of each copied column stand behind the instance columns, and the z columns behind the labels.
#[derive(Clone, Copy)]
pub struct Copied<'a> {
    pub circuit: &'a [u64],
    pub witness: &'a [u64],
    pub numbers: &'a [u64],
    pub z: ZColumns,
    ghost small: { (0 < z.k) × (z.k < 21) },
    ghost given: { Given z.k z.layout },
    ghost few: { length numbers.now ≤ 1048576 },
    ghost cut: { (0 < z.chunks) × (z.chunks ≤ length numbers.now) },
    ghost behind: { (z.layout.instances + length numbers.now) * 2 ^ z.k ≤ z.to },
}
