//! Worked certificates in pieces of a few bytes: what is said of the whole text is said however it is cut.
ghost use Rattle.std.specs.Prelude.{◌<◌};

use crate::problems::problem_in;
use offer_model::{NoMemory, Problem};
use proof_check::{Checker, Verdict};
use std::alloc::Global;
use std::process::Abort;
use std::test::Fail;

/// How many bytes a piece has. The last is above the length of each text here, which is one piece then.
pub(crate) const SIZES: [usize; 4] = [1, 2, 7, 1000];

/// What a checker says of a text that comes in pieces of this many bytes.
pub(crate) fn verdict_by(mut checker: Checker, text: &[u8], size: usize) -> Verdict
    requires { 0 < size }
{
    for piece in text.chunks(size) {
        checker.feed(piece);
    }
    checker.finish()
}

/// Compares what is said of a problem's certificate in pieces of each size with what is wanted.
fn judge(
    rt: &impl Abort,
    alloc: Global,
    problem: &Problem,
    text: &[u8],
    wanted: Verdict,
) -> Result<(), NoMemory> {
    for size in SIZES {
        let checker = Checker::for_problem(alloc, problem)?;
        assert!(rt;
            verdict_by(checker, text, size) == wanted,
            "pieces of {size}"
        );
    }
    Ok(())
}

const NO_LIMITS: &[u8] = b"kind,first,second,number\n";

#[test]
fn a_certificate_needs_each_leaf_and_its_end(rt: HostRuntime) -> Result<(), Fail> {
    let alloc = rt.alloc();
    let products = b"name,margin,attraction\nA,10,2\nB,4,3\n";
    let problem = problem_in(&rt, alloc, 5, products, NO_LIMITS)?;
    let whole = b"assort-proof 1\nmodel logit\nset 11\nvalue 32/10\nb 0\nb 1\nm\nm\nm\nend\n";
    judge(&rt, alloc, &problem, whole, Verdict::Yes)?;
    let leaf_missing = b"assort-proof 1\nmodel logit\nset 11\nvalue 32/10\nb 0\nb 1\nm\nm\nend\n";
    judge(&rt, alloc, &problem, leaf_missing, Verdict::No)?;
    let leading_zero =
        b"assort-proof 1\nmodel logit\nset 11\nvalue 32/10\nb 0\nb 1\nm\nm\nm 01\nend\n";
    judge(&rt, alloc, &problem, leading_zero, Verdict::No)?;
    let no_end = b"assort-proof 1\nmodel logit\nset 11\nvalue 32/10\nb 0\nb 1\nm\nm\nm\n";
    judge(&rt, alloc, &problem, no_end, Verdict::No)?;
    Ok(())
}

#[test]
fn a_tie_under_a_cap_is_certified(rt: HostRuntime) -> Result<(), Fail> {
    let alloc = rt.alloc();
    let products = b"name,margin,attraction\nA,10,2\nB,10,2\n";
    let limits = b"kind,first,second,number\ntotal,,,1\n";
    let problem = problem_in(&rt, alloc, 2, products, limits)?;
    let tight = b"assort-proof 1\nmodel logit\nset 01\nvalue 20/4\nb 0\nm 40\nb 1\nm 0\nm 0\nend\n";
    judge(&rt, alloc, &problem, tight, Verdict::Yes)?;
    let too_little =
        b"assort-proof 1\nmodel logit\nset 01\nvalue 20/4\nb 0\nm 39\nb 1\nm 0\nm 0\nend\n";
    judge(&rt, alloc, &problem, too_little, Verdict::No)?;
    Ok(())
}

#[test]
fn requirements_are_certified_with_a_clash(rt: HostRuntime) -> Result<(), Fail> {
    let alloc = rt.alloc();
    let products = b"name,margin,attraction\nA,10,1\nB,0,1\nC,0,1\n";
    let limits = b"kind,first,second,number\nrequires,A,B,\nrequires,B,C,\n";
    let problem = problem_in(&rt, alloc, 2, products, limits)?;
    let above =
        b"assort-proof 1\nmodel logit\nset 111\nvalue 10/5\nb 0\nb 2\nb 1\nm 0 0\nx\nm 21 21\nm 0 0\nend\n";
    judge(&rt, alloc, &problem, above, Verdict::Yes)?;
    let equal =
        b"assort-proof 1\nmodel logit\nset 111\nvalue 10/5\nb 0\nb 2\nb 1\nm 0 0\nx\nm 20 20\nm 0 0\nend\n";
    judge(&rt, alloc, &problem, equal, Verdict::No)?;
    Ok(())
}

#[test]
fn a_shelf_is_certified_by_its_table(rt: HostRuntime) -> Result<(), Fail> {
    let alloc = rt.alloc();
    let products = b"name,margin,attraction,space\nA,10,2,3\nB,8,2,2\nC,8,2,2\n";
    let limits = b"kind,first,second,number\nshelf,,,4\n";
    let problem = problem_in(&rt, alloc, 4, products, limits)?;
    let text =
        b"assort-proof 1\nmodel logit\nset 011\nvalue 32/8\nb 0\nt\nb 1\nb 2\nt\nt\nt\nend\n";
    judge(&rt, alloc, &problem, text, Verdict::Yes)?;
    Ok(())
}

#[test]
fn a_ladder_is_certified_by_potentials(rt: HostRuntime) -> Result<(), Fail> {
    let alloc = rt.alloc();
    let products =
        b"name,margin,attraction,ladder,grade,price\nA,5,1,k,1,5\nB,8,1,k,1,8\nC,6,1,k,2,6\n";
    let limits = b"kind,first,second,number\nladder,k,,\n";
    let problem = problem_in(&rt, alloc, 1, products, limits)?;
    let text =
        b"assort-proof 1\nmodel logit\nset 010\nvalue 8/2\nb 0\np 0 0 4\nb 1\np 0 0 0\np 0 0 4\nend\n";
    judge(&rt, alloc, &problem, text, Verdict::Yes)?;
    Ok(())
}

#[test]
fn no_products_are_certified_by_one_leaf(rt: HostRuntime) -> Result<(), Fail> {
    let alloc = rt.alloc();
    let products = b"name,margin,attraction\n";
    let problem = problem_in(&rt, alloc, 7, products, NO_LIMITS)?;
    let text = b"assort-proof 1\nmodel logit\nset -\nvalue 0/7\nm\nend\n";
    judge(&rt, alloc, &problem, text, Verdict::Yes)?;
    Ok(())
}
