//! A best assortment, its certificate and a check of it, under limits of each kind.

use crate::runs::{NOTHING_FAILS, run_over};
use offer_io::MemoryStore;
use std::test::Fail;

#[test]
fn certificates_under_each_kind_of_limits_are_accepted(rt: HostRuntime) -> Result<(), Fail> {
    let twins = b"name,margin,attraction\nA,10,2\nB,10,2\n".as_slice();
    let chain = b"name,margin,attraction\nA,10,1\nB,0,1\nC,0,1\n".as_slice();
    let spaces = b"name,margin,attraction,space\nA,10,2,3\nB,8,2,2\nC,8,2,2\n".as_slice();
    let rungs =
        b"name,margin,attraction,ladder,grade,price\nA,5,1,k,1,5\nB,8,1,k,1,8\nC,6,1,k,2,6\n".as_slice();
    let cases: [(&[u8], &str); 6] = [
        (twins, "total,,,1\n"),
        (twins, "total,,,0\n"),
        (chain, "requires,A,B,\nrequires,B,C,\n"),
        (spaces, "shelf,,,4\n"),
        (rungs, "ladder,k,,\n"),
        (chain, "total,,,1\nrequires,A,B,\n"),
    ];
    let solve = "solve --model logit --products p.csv --limits m.csv --none 2 --proof q";
    let check = "check --model logit --products p.csv --limits m.csv --none 2 --proof q";
    let without = "check --model logit --products p.csv --none 2 --proof q";
    for (products, rows) in cases {
        let limits = format!(in rt.alloc(); "kind,first,second,number\n{rows}")?;
        let mut store = MemoryStore::new(rt.alloc());
        store.put("p.csv", products)?;
        store.put("m.csv", limits.as_bytes())?;
        let solved = run_over(&rt, rt.alloc(), solve, &mut store, NOTHING_FAILS)?;
        assert_eq!(rt; solved.status, 0, "{rows}");
        let checked = run_over(&rt, rt.alloc(), check, &mut store, NOTHING_FAILS)?;
        assert_eq!(rt; checked.status, 0, "{rows}");
        // Without its limits the problem is another, and so is its best assortment.
        let other = run_over(&rt, rt.alloc(), without, &mut store, NOTHING_FAILS)?;
        assert_eq!(rt; other.status, 1, "{rows}");
    }
    Ok(())
}
