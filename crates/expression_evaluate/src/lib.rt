// The value of an expression at a row (Rust `evaluate`), from its node words.
#![tactic(auto)]

pub mod evaluation;

ghost use Rattle.std.specs.Prelude.{◌≡◌, ◌+◌, ◌*◌, ◌≤◌, length};
ghost use Rattle.field.specs.Field.{𝔾};
ghost use Rattle.field.specs.Element.{elem};
ghost use Rattle.expression.specs.Nodes.{expr_of};
ghost use Rattle.expression.specs.Value.{value_at, value_ops};
ghost use Rattle.expression_evaluate.specs.Environment.{environment};

use crate::evaluation::Evaluation;
use expression_nodes::leaves::{lagrange, rotated_row};
use expression_nodes::poly::poly_at;
use expression_walk::{Operations, node};
use field::goldilocks::Goldilocks;
use lists::word_at;

// The field's operations, and the leaves at the point.
#[tactic(auto, unfolding(expression::specs::Value::value_ops, expression::specs::Point::environment_of))]
impl<'a> Operations for Evaluation<'a> {
    type Value = Goldilocks;

    ghost Carrier = { 𝔾.F };

    ghost meaning = { elem };

    ghost ops = { λ s. value_ops 𝔾 (environment s) s.point.row };

    fn constant(&self, value: u64) -> Goldilocks {
        Goldilocks::from(value)
    }

    fn identity(&self) -> Goldilocks {
        Goldilocks::from(self.point.row as u64)
    }

    fn lagrange(&self, number: u64) -> Goldilocks {
        lagrange(&self.point, number)
    }

    fn eq_xy(&self, _number: u64) -> Goldilocks {
        Goldilocks::from(self.point.eq)
    }

    // A query of a polynomial, 0 where there is none.
    fn poly(&self, polynomial: u64, rotation: u64) -> Goldilocks {
        let row = rotated_row(&self.point, rotation);
        let word = poly_at(
            self.circuit,
            self.witness,
            self.columns,
            &self.layout,
            polynomial,
            row,
        );
        Goldilocks::from(word)
    }

    // A challenge, 0 where there is none.
    fn challenge(&self, number: u64) -> Goldilocks {
        Goldilocks::from(word_at(self.challenges, number as usize))
    }

    fn negated(&self, x: Goldilocks) -> Goldilocks {
        -x
    }

    fn sum(&self, x: Goldilocks, y: Goldilocks) -> Goldilocks {
        x + y
    }

    fn product(&self, x: Goldilocks, y: Goldilocks) -> Goldilocks {
        x * y
    }

    fn scaled(&self, x: Goldilocks, scalar: u64) -> Goldilocks {
        x * Goldilocks::from(scalar)
    }
}

impl<'a> Evaluation<'a> {
    // The value of the expression at node n.
    #[tactic(auto, unfolding(expression::specs::Value::value_at))]
    pub fn value(&self, nodes: &[u64], n: usize) -> Goldilocks
        requires { n * 4 + 4 ≤ length nodes.now }
        ensures { elem result ≡ value_at 𝔾 (environment self.now) (expr_of nodes.now n) self.now.point.row }
    {
        node(self, nodes, n)
    }
}
