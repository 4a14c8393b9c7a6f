//! Leaves of segments, under mixed logit: whether their numbers close the node.
ghost use Rattle.std.specs.Prelude.{◌≡◌, ◌↔◌, length, IsTrue};
ghost use Rattle.offer_model.specs.Problems.{product_count};
ghost use Rattle.offer_model.specs.Revenue.{value_of};
ghost use Rattle.proof_lines.specs.Closing.{SegmentsClose, Closes};
ghost use Rattle.proof_lines.specs.Lines.{IsLine};
ghost use Rattle.proof_lines.specs.declared.line.Shape.TheVariants as Shapes;

use leaf_bounds::{fit_segments, sum_of_segments};
use limit_rules::{clashes, comes_after};
use offer_model::{Assortment, ModelName, Node, Problem, Wide};
use proof_lines::Shape;

/// Whether numbers of segments close the node, where `x` brings this value.
fn segments_close(p: &Problem, x: &Assortment, value: u128, node: &Node, numbers: &Wide) -> bool
    requires set { length x.now ≡ product_count p.now }
    requires value { value ≡ value_of p.now x.now }
    requires node { length node.now ≡ product_count p.now }
    ensures { IsTrue result ↔ SegmentsClose p.now x.now node.now Shapes.Segments numbers.now.items }
{
    if !fit_segments(p, node, numbers) {
        return false;
    }
    let bound = sum_of_segments(numbers);
    if bound != value {
        return bound < value;
    }
    comes_after(node, x)
}

/// Whether a leaf of this shape and these numbers closes the node, where `x` brings this value.
pub(crate) fn close(
    p: &Problem,
    x: &Assortment,
    value: u128,
    node: &Node,
    shape: Shape,
    numbers: &Wide,
) -> bool
    requires model { p.now.model ≡ ModelName.Mixed }
    requires set { length x.now ≡ product_count p.now }
    requires value { value ≡ value_of p.now x.now }
    requires node { length node.now ≡ product_count p.now }
    requires line { IsLine shape numbers.now.items }
    ensures closes { IsTrue result ↔ Closes p.now x.now node.now shape numbers.now.items }
{
    match shape {
        Shape::Clash => clashes(p, node),
        Shape::Segments => segments_close(p, x, value, node, numbers),
        _ => false,
    }
}
