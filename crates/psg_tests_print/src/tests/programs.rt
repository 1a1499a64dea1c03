//! Programs of MINI.
use super::trees::{definition, prints};
use psg_langs::MINI;
use std::test::Fail;

#[test]
fn texts_and_spans(rt: HostRuntime) -> Result<(), Fail> {
    let definition = definition(rt.alloc(), MINI)?;
    for (tree, text, spans) in [
        ("9/2 ?1 ?1", "?Exp + ?Exp", "/ 0 11, /0 0 4, /1 7 11"),
        ("9/2 5/1 'x 6/1 #1", "x + 1", "/ 0 5, /0 0 1, /1 4 5"),
        // brackets around a child whose level is below the slot's, and no others
        (
            "11/2 11/2 5/1 'x 5/1 'z 5/1 'y",
            "(x = z) = y",
            "/ 0 11, /0 1 6, /0/0 1 2, /0/1 5 6, /1 10 11",
        ),
        (
            "9/2 9/2 5/1 'x 5/1 'x 5/1 'x",
            "x + x + x",
            "/ 0 9, /0 0 5, /0/0 0 1, /0/1 4 5, /1 8 9",
        ),
        (
            "9/2 5/1 'x 9/2 5/1 'x 5/1 'x",
            "x + (x + x)",
            "/ 0 11, /0 0 1, /1 5 10, /1/0 5 6, /1/1 9 10",
        ),
        // lists without elements
        ("[1:0..", "...", "/ 0 3"),
        ("[1:0", "", "/ 0 0"),
        // a postfix operator, and tight brackets
        ("12/2 5/1 'v 5/1 'k", "v[k]", "/ 0 4, /0 0 1, /1 2 3"),
        // an empty list is where the token in front of it ends
        (
            "0/2 [0:1 15/2 'p 16/2 [3:0 4/0 [1:1 2/2 'p [2:0",
            "begin\n  proc p () skip\ndo\n  call p()\nend",
            "/ 0 40, /0 8 22, /0/0 8 22, /0/0/0 15 22, /0/0/0/0 16 16, /0/0/0/1 18 22, \
            /1 28 36, /1/0 28 36, /1/0/0 35 35",
        ),
    ] {
        assert!(rt;
            prints(rt.alloc(), &definition, tree, text, spans)?,
            "{tree}"
        );
    }
    Ok(())
}
