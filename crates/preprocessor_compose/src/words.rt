// The lent words of a circuit from which its expression is composed.
ghost use Rattle.std.specs.Prelude.{◌≤◌, length};
ghost use Rattle.preprocessor.specs.ComposeWords.{Words};
ghost use Rattle.preprocessor_compose.specs.Unique.{Words-prop};

use preprocessor::CircuitParams;

// The user's node words, the roots of the constraints, the groups' sizes, the lookups' widths and pairs of roots, and the circuit's
// numbers: every root is a node, and every lookup has a group.
#[derive(Clone, Copy)]
pub struct CircuitWords<'a> {
    pub user: &'a [u64],
    pub roots: &'a [u64],
    pub sizes: &'a [u64],
    pub widths: &'a [u64],
    pub pairs: &'a [u64],
    pub params: CircuitParams,
    pub ghost fits: { Words params user.now roots.now sizes.now widths.now pairs.now } by { Words-prop params user.now roots.now sizes.now widths.now pairs.now },
}

// Those words, with the numbers of the copied columns.
#[derive(Clone, Copy)]
pub struct Input<'a> {
    pub words: &'a CircuitWords<'a>,
    pub copied: &'a [u64],
    pub ghost all_copied: { words.now.params.num_permutation_polys ≤ length copied.now },
}
