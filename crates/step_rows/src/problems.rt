//! Problems from two CSV texts.
ghost use Rattle.std.specs.Prelude.{◌≡◌, IfOk, length};
ghost use Rattle.offer_model.specs.Validity.{IsRatioModel};

use catalogue::{Catalogue, MOST_TABLE, SegmentTable, problem_of, read_limits, read_products};
use offer_model::{Mark, ModelName, NoMemory, Node, Problem};
use std::alloc::Global;
use std::process::Abort;

/// The catalogue of this products file under logit.
pub fn catalogue_in(rt: &impl Abort, alloc: Global, products: &[u8]) -> Catalogue {
    assert!(rt; products.len() <= MOST_TABLE);
    match read_products(alloc, products, ModelName::Logit) {
        Ok(catalogue) => catalogue,
        Err(_) => panic!(rt; "no catalogue"),
    }
}

/// The problem under logit of these files.
pub fn problem_in(
    rt: &impl Abort,
    alloc: Global,
    none: u64,
    products: &[u8],
    limits: &[u8],
) -> Result<Problem, NoMemory>
    ensures { IfOk result (λ p. IsRatioModel p.model) }
{
    assert!(rt; none >= 1 && none <= 1000);
    assert!(rt; limits.len() <= MOST_TABLE);
    let catalogue = catalogue_in(rt, alloc, products);
    let Ok(limits) = read_limits(alloc, limits, &catalogue) else {
        panic!(rt; "no limits");
    };
    let segments = SegmentTable::empty(alloc);
    problem_of(
        alloc,
        &catalogue,
        ModelName::Logit,
        none,
        1,
        &segments,
        &limits,
    )
}

/// The node of these marks: I is In, O is Out, any other sign Open.
pub fn node_of(alloc: Global, marks: &[u8]) -> Result<Node, NoMemory>
    ensures { IfOk result (λ node. length node ≡ length marks.now) }
{
    let mut node = Node::open(alloc, marks.len())?;
    for i in 0..marks.len() {
        match marks[i] {
            b'I' => node.set(i, Mark::In),
            b'O' => node.set(i, Mark::Out),
            _ => {}
        }
    }
    Ok(node)
}
