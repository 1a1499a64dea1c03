//! A language with each layout mark.
use super::trees::{definition, prints};
use std::test::Fail;

const MARKS: &str = "psg 1
sort Unit = ok
phylum Exp : Unit bracketed
list Exps : Unit of Exp \",\" inline unfinished
list Lines : Unit of Exp \";\" lines fixed
op unit : Exp = \"a\"
op lit : Exp = text
op seq : Exp = \"<\" tight Exps tight \">\"
op minus : Exp infixl 4 = Exp tight \"-\" space Exp
op neg : Exp prefix 6 = \"-\" tight Exp
op block : Exp = \"{\" in line Lines out line \"}\"
op words : Exp = \"do\" tight Exp tight \"od\"
op odd : Exp = out \"b\" in line \"c\" out out line \"d\" line
";

#[test]
fn texts_and_spans(rt: HostRuntime) -> Result<(), Fail> {
    let definition = definition(rt.alloc(), MARKS)?;
    for (tree, text, spans) in [
        ("?0", "?Exp", "/ 0 4"),
        ("1/1 \"a\"b\\", "\"a\\\"b\\\\\"", "/ 0 8"),
        // a space beside a tight mark is a space
        ("3/2 0/0 0/0", "a- a", "/ 0 4, /0 0 1, /1 3 4"),
        (
            "3/2 0/0 3/2 0/0 0/0",
            "a- (a- a)",
            "/ 0 9, /0 0 1, /1 4 8, /1/0 4 5, /1/1 7 8",
        ),
        // tight tokens that would run together have a space
        ("4/1 4/1 0/0", "- -a", "/ 0 4, /0 2 4, /0/0 3 4"),
        ("6/1 0/0", "do a od", "/ 0 7, /0 3 4"),
        ("6/1 1/1 \"x", "do\"x\"od", "/ 0 7, /0 2 5"),
        ("2/1 [0:0", "< >", "/ 0 3, /0 1 1"),
        (
            "2/1 [0:2.. 0/0 0/0",
            "<a, a, ... >",
            "/ 0 12, /0 1 10, /0/0 1 2, /0/1 4 5",
        ),
        // brackets around a child of a prefix operator
        (
            "4/1 3/2 0/0 0/0",
            "-(a- a)",
            "/ 0 7, /0 2 6, /0/0 2 3, /0/1 5 6",
        ),
        // lines and levels
        (
            "5/1 [1:1 5/1 [1:2 0/0 0/0",
            "{\n  {\n    a;\n    a\n  }\n}",
            "/ 0 24, /0 4 22, /0/0 4 22, /0/0/0 10 18, /0/0/0/0 10 11, /0/0/0/1 17 18",
        ),
        // a level is closed only if one is open, and marks around all tokens write nothing
        ("7/0", "b\n  c\nd", "/ 0 7"),
    ] {
        assert!(rt;
            prints(rt.alloc(), &definition, tree, text, spans)?,
            "{tree}"
        );
    }
    Ok(())
}
