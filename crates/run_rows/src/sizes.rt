//! Files of the greatest length.

use crate::runs::{NOTHING_FAILS, run_over};
use offer_io::MemoryStore;
use std::test::Fail;

#[test]
fn a_table_is_judged_up_to_16777216_bytes(rt: HostRuntime) -> Result<(), Fail> {
    let solve = "solve --model logit --products p.csv --none 5";
    let products = b"name,margin,attraction\nA,10,2\nB,4,3\n".as_slice();
    let cases: [(usize, u8, &[u8], &[u8]); 2] = [
        (
            16_777_216,
            0,
            b"model logit\nproducts 2\noffer A\noffer B\nset 11\nvalue 32/10\n",
            b"",
        ),
        (16_777_217, 3, b"", b"assort: products: file too large\n"),
    ];
    for (length, status, out, err) in cases {
        let mut table = Vec::from_slice(rt.alloc(), products)?;
        table.resize(length, b'\n')?; // empty lines are no rows
        let mut store = MemoryStore::new(rt.alloc());
        store.put("p.csv", table.as_slice())?;
        let said = run_over(&rt, rt.alloc(), solve, &mut store, NOTHING_FAILS)?;
        assert_eq!(rt; said.status, status, "{length}");
        assert_eq!(rt; said.out.as_slice(), out, "{length}");
        assert_eq!(rt; said.err.as_slice(), err, "{length}");
    }
    Ok(())
}
