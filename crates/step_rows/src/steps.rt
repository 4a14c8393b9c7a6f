//! What the step of each kind of limits answers at a node, and what closes the node.
ghost use Rattle.std.specs.Prelude.{◌≡◌, ◌<◌, length};
ghost use Rattle.offer_model.specs.Problems.{product_count};
ghost use Rattle.offer_model.specs.Validity.{IsRatioModel};
ghost use Rattle.linear_step.specs.Weights.{AreWeights};

use crate::problems::{node_of, problem_in};
use cut_step::ClosureStep;
use limit_rules::{Kind, kind_of};
use linear_step::{Closer, Closing, Step, Steps, Weights, weights_at};
use offer_model::{Assortment, NoMemory, Node, Problem};
use rank_step::{CapsStep, FreeStep};
use several_step::SearchStep;
use std::alloc::Global;
use std::marker::Brand;
use std::process::Abort;
use std::sync::ledger::{Blank, Ledger};
use std::test::Fail;
use table_steps::{LadderStep, ShelfStep};

/// What an assortment weighs.
fn weight_of(p: &Problem, weights: &Weights, x: &Assortment) -> i128
    requires { AreWeights p.now weights.now }
{
    let mut total = weights.constant();
    for i in 0..p.products().len() {
        if i < x.len() && x.offers(i) {
            total = total.wrapping_add(weights.get(i));
        }
    }
    total
}

/// The answer of the step of the limits' kind.
fn best_by_kind<L: Ledger>(
    alloc: Global,
    p: &Problem,
    weights: &Weights,
    node: &Node,
    blank: Blank,
) -> Result<Option<Assortment>, NoMemory>
    requires model { IsRatioModel p.now.model }
    requires weights { AreWeights p.now weights.now }
    requires node { length node.now ≡ product_count p.now }
    requires name { blank.name ≡ L.name }
    requires parts { blank.parts ≡ L.parts }
    requires some { 0 < blank.parts }
{
    let mut steps = Steps::<L>::start(blank);
    match kind_of(p.limits()) {
        Kind::Free => FreeStep::prepare(alloc, p)?.best(p, weights, node, &mut steps),
        Kind::Caps => CapsStep::prepare(alloc, p)?.best(p, weights, node, &mut steps),
        Kind::Closure => ClosureStep::prepare(alloc, p)?.best(p, weights, node, &mut steps),
        Kind::Shelf => ShelfStep::prepare(alloc, p)?.best(p, weights, node, &mut steps),
        Kind::Ladder => LadderStep::prepare(alloc, p)?.best(p, weights, node, &mut steps),
        Kind::General => SearchStep::prepare(alloc, p)?.best(p, weights, node, &mut steps),
    }
}

/// What closes the node, by the closer of the limits' kind. Several kinds together have none.
fn closing_by_kind(
    alloc: Global,
    p: &Problem,
    weights: &Weights,
    node: &Node,
) -> Result<Option<Closing>, NoMemory>
    requires model { IsRatioModel p.now.model }
    requires weights { AreWeights p.now weights.now }
    requires node { length node.now ≡ product_count p.now }
{
    let closing = match kind_of(p.limits()) {
        Kind::Free => FreeStep::prepare(alloc, p)?.close(p, weights, node)?,
        Kind::Caps => CapsStep::prepare(alloc, p)?.close(p, weights, node)?,
        Kind::Closure => ClosureStep::prepare(alloc, p)?.close(p, weights, node)?,
        Kind::Shelf => ShelfStep::prepare(alloc, p)?.close(p, weights, node)?,
        Kind::Ladder => LadderStep::prepare(alloc, p)?.close(p, weights, node)?,
        Kind::General => return Ok(None),
    };
    Ok(Some(closing))
}

/// The shape of a closing, as the first sign of its line in a certificate.
fn shape_of(closing: &Option<Closing>) -> &'static str {
    match closing {
        Some(Closing::Clash) => "x",
        Some(Closing::Multipliers(_)) => "m",
        Some(Closing::Shelf) => "t",
        Some(Closing::Potentials(_)) => "p",
        None => "",
    }
}

/// A problem as two texts, the revenue of a trial over its denominator, a node, and what the step and the closer say.
#[derive(Clone, Copy)]
struct Case {
    shows: &'static str,
    products: &'static [u8],
    limits: &'static [u8],
    none: u64,
    at: (u128, u128),
    node: &'static [u8],
    greatest: Option<i128>,
    shape: &'static str,
}

/// The greatest weight of a completion, if there is one, and the shape of what closes the node.
fn outcome_of(
    rt: &impl Abort,
    alloc: Global,
    case: &Case,
) -> Result<(Option<i128>, &'static str), NoMemory> {
    let (num, den) = case.at;
    assert!(rt; num < 1000 && den >= 1 && den < 1000);
    let p = problem_in(rt, alloc, case.none, case.products, case.limits)?;
    let node = node_of(alloc, case.node)?;
    assert!(rt; node.len() == p.products().len());
    let mut weights = Weights::reserve(alloc, node.len())?;
    weights_at(&p, num, den, &mut weights);
    let best = best_by_kind::<Brand>(alloc, &p, &weights, &node, Blank::new(1))?;
    let greatest = match best {
        Some(x) => Some(weight_of(&p, &weights, &x)),
        None => None,
    };
    let closing = closing_by_kind(alloc, &p, &weights, &node)?;
    Ok((greatest, shape_of(&closing)))
}

/// A margins 10 and 4, attractions 2 and 3: at 32/10 they weigh 136 and 24, and nothing weighs -160.
const TWO: &[u8] = b"name,margin,attraction\nA,10,2\nB,4,3\n";

/// At 20/4 each weighs 40, and nothing weighs -40.
const TWINS: &[u8] = b"name,margin,attraction\nA,10,2\nB,10,2\n";

/// At 20/4 they weigh 40, 40, 8 and -32, and nothing weighs -40.
const FOUR: &[u8] = b"name,margin,attraction,category\nA,10,2,x\nB,10,2,x\nC,6,2,y\nD,1,2,\n";

/// At 10/5 they weigh 40, -10 and -10, and nothing weighs -20.
const CHAIN: &[u8] = b"name,margin,attraction\nA,10,1\nB,0,1\nC,0,1\n";

/// At 32/8 they weigh 96, 64 and 64, and nothing weighs -128.
const SPACES: &[u8] = b"name,margin,attraction,space\nA,10,2,3\nB,8,2,2\nC,8,2,2\n";

/// At 8/2 they weigh 2, 8 and 4, and nothing weighs -8.
const RUNGS: &[u8] =
    b"name,margin,attraction,ladder,grade,price\nA,5,1,k,1,5\nB,8,1,k,1,8\nC,6,1,k,2,6\n";

/// At 32/8 they weigh 96, 64 and 64, and nothing weighs -128; the first takes all of a shelf of 4.
const GREAT_SPACES: &[u8] = b"name,margin,attraction,space\nA,10,2,4\nB,8,2,3\nC,8,2,3\n";

/// At 8/2 they weigh 2, 8, 4, 2, 2 and -2, and nothing weighs -8. On the second ladder the price doesn't rise.
const THREE_LADDERS: &[u8] = b"name,margin,attraction,ladder,grade,price\n\
    A,5,1,a,1,5\nB,8,1,a,1,8\nC,6,1,a,2,6\nD,5,1,b,1,3\nE,5,1,b,2,3\nF,3,1,c,0,1\n";

const NO_LIMITS: &[u8] = b"kind,first,second,number\n";

const ONE: &[u8] = b"kind,first,second,number\ntotal,,,1\n";

const TWO_AND_ONE_EACH: &[u8] =
    b"kind,first,second,number\ncategory,x,,1\ntotal,,,2\ncategory,y,,1\n";

const PAIRS: &[u8] = b"kind,first,second,number\nrequires,A,B,\nrequires,B,C,\n";

const PAIRS_FROM_THE_END: &[u8] = b"kind,first,second,number\nrequires,B,C,\nrequires,A,B,\n";

const NO_SHELF: &[u8] = b"kind,first,second,number\nshelf,,,0\n";

const FIRST_LADDER: &[u8] = b"kind,first,second,number\nladder,a,,\n";

const ALL_LADDERS: &[u8] = b"kind,first,second,number\nladder,a,,\nladder,b,,\nladder,c,,\n";

const SHELF: &[u8] = b"kind,first,second,number\nshelf,,,4\n";

const LADDER: &[u8] = b"kind,first,second,number\nladder,k,,\n";

const ONE_WITH_ITS_PAIR: &[u8] = b"kind,first,second,number\ntotal,,,1\nrequires,A,B,\n";

const fn case_of(
    shows: &'static str,
    (products, limits, none, at): (&'static [u8], &'static [u8], u64, (u128, u128)),
    node: &'static [u8],
    greatest: Option<i128>,
    shape: &'static str,
) -> Case {
    Case {
        shows,
        products,
        limits,
        none,
        at,
        node,
        greatest,
        shape,
    }
}

#[test]
fn a_step_answers_the_greatest_completion_and_its_closer_what_closes(
    rt: HostRuntime,
) -> Result<(), Fail> {
    let free = (TWO, NO_LIMITS, 5, (32, 10));
    let one = (TWINS, ONE, 2, (20, 4));
    let each = (FOUR, TWO_AND_ONE_EACH, 2, (20, 4));
    let pairs = (CHAIN, PAIRS, 2, (10, 5));
    let turned = (CHAIN, PAIRS_FROM_THE_END, 2, (10, 5));
    let shelf = (SPACES, SHELF, 4, (32, 8));
    let no_shelf = (SPACES, NO_SHELF, 4, (32, 8));
    let great = (GREAT_SPACES, SHELF, 4, (32, 8));
    let first_ladder = (THREE_LADDERS, FIRST_LADDER, 1, (8, 2));
    let all_ladders = (THREE_LADDERS, ALL_LADDERS, 1, (8, 2));
    let ladder = (RUNGS, LADDER, 1, (8, 2));
    let several = (TWO, ONE_WITH_ITS_PAIR, 5, (12, 8));
    let cases = [
        case_of("all that weighs above 0", free, b"--", Some(0), "m"),
        case_of("marks are kept", free, b"OI", Some(-136), "m"),
        case_of("one of two that are alike", one, b"--", Some(0), "m"),
        case_of("the other finds no room", one, b"I-", Some(0), "m"),
        case_of("two of at most one", one, b"II", None, "x"),
        case_of("one of each category", each, b"----", Some(8), "m"),
        case_of(
            "what is In takes room in all",
            each,
            b"---I",
            Some(-32),
            "m",
        ),
        case_of("two of a category", each, b"IIOO", None, "x"),
        case_of("nothing is left to offer", each, b"OOII", Some(-64), "m"),
        case_of("no weight is above 0", each, b"OOO-", Some(-40), "m"),
        case_of("all that a chain requires", pairs, b"---", Some(0), "m"),
        case_of("nothing without the last", pairs, b"--O", Some(-20), "m"),
        case_of("one without what it requires", pairs, b"IO-", None, "x"),
        case_of("one far from what it requires", pairs, b"I-O", None, "m"),
        case_of("what is required alone", pairs, b"O-I", Some(-30), "m"),
        case_of("rows from the chain's end", turned, b"---", Some(0), "m"),
        case_of("no shelf, no product", no_shelf, b"---", Some(-128), "t"),
        case_of("a product that just fits", great, b"---", Some(-32), "t"),
        case_of("one beside what is In", shelf, b"-I-", Some(0), "t"),
        case_of("one beside what is Out", shelf, b"-O-", Some(-32), "t"),
        case_of("two that fit the shelf", shelf, b"---", Some(0), "t"),
        case_of("no space beside the first", shelf, b"I--", Some(-32), "t"),
        case_of("more than the shelf holds", shelf, b"II-", None, "x"),
        case_of("one of a ladder's rungs", ladder, b"---", Some(0), "p"),
        case_of(
            "two rungs with rising prices",
            ladder,
            b"I--",
            Some(-2),
            "p",
        ),
        case_of(
            "products on no limited ladder",
            first_ladder,
            b"------",
            Some(4),
            "p",
        ),
        case_of(
            "two rungs of one price",
            all_ladders,
            b"------",
            Some(4),
            "p",
        ),
        case_of("a higher rung at a lower price", ladder, b"-II", None, "x"),
        case_of("what a pair and a cap leave", several, b"--", Some(0), ""),
        case_of("a pair above its cap", several, b"I-", None, ""),
    ];
    for case in cases {
        let outcome = outcome_of(&rt, rt.alloc(), &case)?;
        assert_eq!(rt; outcome, (case.greatest, case.shape), "{}", case.shows);
    }
    Ok(())
}
