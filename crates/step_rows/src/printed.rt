//! Catalogues as files: what is printed reads back.

use crate::problems::catalogue_in;
use catalogue::print_products;
use std::test::Fail;

#[test]
fn a_catalogue_is_printed_with_all_columns_and_reads_back(rt: HostRuntime) -> Result<(), Fail> {
    let alloc = rt.alloc();
    let cases: [(&str, &[u8], &[u8]); 3] = [
        (
            "absent columns",
            b"attraction,name,margin\n2,A,10\n3,B,4\n",
            b"name,margin,attraction,shadow,category,space,price,ladder,grade,arrival\nA,10,2,0,,0,0,,0,0\nB,4,3,0,,0,0,,0,0\n",
        ),
        (
            "a quoted name",
            b"name,margin,attraction\n\"x, \"\"y\"\"\",1000000000,007\n",
            b"name,margin,attraction,shadow,category,space,price,ladder,grade,arrival\n\"x, \"\"y\"\"\",1000000000,7,0,,0,0,,0,0\n",
        ),
        (
            "all columns",
            b"arrival,grade,ladder,price,space,category,shadow,attraction,margin,name\n9,8,L,7,6,C,5,4,3,A\n",
            b"name,margin,attraction,shadow,category,space,price,ladder,grade,arrival\nA,3,4,5,C,6,7,L,8,9\n",
        ),
    ];
    for (case, file, wanted) in cases {
        for text in [file, wanted] {
            let printed = print_products(alloc, &catalogue_in(&rt, alloc, text))?;
            assert!(rt; printed.as_slice() == wanted, "{case}");
        }
    }
    Ok(())
}
