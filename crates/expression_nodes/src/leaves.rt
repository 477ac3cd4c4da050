// The leaves of an expression that are read at a point.
ghost use Rattle.std.specs.Prelude.{◌≡◌, cond, ◌<◌, eqb};
ghost use Rattle.bh.specs.Rows.{rotated, lagrange_row};
ghost use Rattle.field.specs.Field.{𝔾};
ghost use Rattle.field.specs.Element.{elem};
ghost use Rattle.expression.specs.Nodes.{decode_signed};
ghost use Rattle.expression.specs.Point.{PointInOrder};

use crate::rotation_of;
use bh::rotations::rotate;
use expression::node::SIGNED_OFFSET;
use expression::value::Point;
use field::goldilocks::Goldilocks;

// Lagrange at a point, by the row's place: 2^k divides 2^31, so the number kept in a word has the word's remainder.
pub fn lagrange(point: &Point, word: u64) -> Goldilocks
    requires { PointInOrder point.now }
    ensures { elem result ≡ cond (eqb point.now.row (lagrange_row point.now.k (decode_signed word))) 𝔾.one 𝔾.zero }
{
    if (word & ((1 << point.k) - 1)) as usize == point.place {
        return Goldilocks::ONE;
    }
    Goldilocks::ZERO
}

// The row that the rotation kept in a word leads to.
pub fn rotated_row(point: &Point, rotation: u64) -> usize
    requires { PointInOrder point.now }
    ensures { (result ≡ rotated point.now.k point.now.row (decode_signed rotation)) × (result < 1048576) }
{
    if rotation == SIGNED_OFFSET {
        return point.row;
    }
    rotate(point.row, rotation_of(rotation, point.k), point.k)
}
