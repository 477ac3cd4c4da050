// What an expression is evaluated over.
ghost use Rattle.expression.specs.Reader.{LayoutSmall};
ghost use Rattle.expression.specs.Point.{PointInOrder};

use expression::poly::Layout;
use expression::value::Point;

// The words that the polynomials and the challenges stand in, where the polynomials stand, and the point.
#[derive(Clone, Copy)]
pub struct Evaluation<'a> {
    pub circuit: &'a [u64],
    pub witness: &'a [u64],
    pub columns: &'a [u64],
    pub challenges: &'a [u64],
    pub layout: Layout,
    pub point: Point,
    pub ghost small: { LayoutSmall layout },
    pub ghost in_order: { PointInOrder point },
}
