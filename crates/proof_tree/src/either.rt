//! One of two rules of leaves, for a reader that learns late which it needs.
use crate::leaves::Leaves;
use offer_model::{Node, Wide};
use proof_lines::Shape;

/// One of two rules of leaves.
#[derive(Drop)]
pub enum EitherLeaves<A, B> {
    First(A),
    Second(B),
}

impl<A: Leaves, B: Leaves> Leaves for EitherLeaves<A, B> {
    ghost use Rattle.proof_tree.specs.Either.{either_products, EitherCloses, either_no_branch};

    ghost products = { λ s. either_products A.products B.products s };

    ghost Closes = { λ s node l. EitherCloses A.Closes B.Closes s node l };

    fn close(&mut self, node: &Node, line: &[u8], shape: Option<Shape>, numbers: &Wide) -> bool {
        match self {
            EitherLeaves::First(leaves) => leaves.close(node, line, shape, numbers),
            EitherLeaves::Second(leaves) => leaves.close(node, line, shape, numbers),
        }
    }

    ghost no_branch = { λ s node l. either_no_branch A.Closes B.Closes A.no_branch B.no_branch s node l };
}
