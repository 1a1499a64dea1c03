//! The lines of definition files, written in their only layout.
use super::repeated;
use psg_deflines::{FileLines, Line, ReadFault, fault_text, line_text, read_lines};
use std::alloc::{AllocError, Global};
use std::fmt::Write;
use std::process::Abort;
use std::test::Fail;

/// Whole files, and the texts of their lines.
const FILES: &[(&str, &str)] = &[
    ("psg 1", ""),
    ("psg 1\r\nentity Ent\r\n", "/entity Ent"),
    ("psg 1\nentity Ent", "/entity Ent"),
    ("psg 1\n\n# a comment\nentity Ent\n", "///entity Ent"),
    ("psg 2\nspace s:Ent", "/space s : Ent"),
    ("psg 2\nentity Ent", "line 2 code 2"),
    ("psg 1\nspace s : Ent", "line 2 code 2"),
    (
        "psg 2\nop o:E=refers declares@lab",
        "/op o : E = refers declares@lab",
    ),
    ("psg 2\nop o : E = refers @lab", "line 2 code 2"),
    ("psg 1\nop o : E = refers@lab", "line 2 code 2"),
    ("psg 2\ndeclare@s L a:b by c", "/declare@s L a : b by c"),
    ("psg 2\ndeclare L a : b by c", "line 2 code 2"),
    ("psg 1\ndeclare@s L a : b by c", "line 2 code 2"),
    ("psg  2", ""),
    ("psg 3", "line 1 code 3"),
];

/// Sorts, entities, phyla and lists.
const DECLARATIONS: &[(&str, &str)] = &[
    ("sort Type = int bool", "/sort Type = int bool"),
    (
        "sort  Type=arr(Type,Type)int",
        "/sort Type = arr ( Type , Type ) int",
    ),
    ("phylum Exp : Type", "/phylum Exp : Type"),
    ("phylum Exp:Type bracketed", "/phylum Exp : Type bracketed"),
    (
        "list Args : Types of Exp \",\" inline fixed",
        "/list Args : Types of Exp \",\" inline fixed",
    ),
    (
        "list Args:Types of Exp\";\"lines unfinished",
        "/list Args : Types of Exp \";\" lines unfinished",
    ),
];

/// Operators.
const OPERATORS: &[(&str, &str)] = &[
    (
        "op add : Exp infixl 6 = Exp \"+\" Exp",
        "/op add : Exp infixl 6 = Exp \"+\" Exp",
    ),
    (
        "op let : Stm scope = \"let\" declares \"=\" Exp",
        "/op let : Stm scope = \"let\" declares \"=\" Exp",
    ),
    ("op n : Exp = number", "/op n : Exp = number"),
    (
        "op n : Exp prefix 9 = \"-\" tight Exp",
        "/op n : Exp prefix 9 = \"-\" tight Exp",
    ),
];

/// Rows of terms.
const ROWS: &[(&str, &str)] = &[
    (
        "op n : Exp = number\nrow ?T : var(?T)",
        "/op n : Exp = number/row ?T : var ( ?T )",
    ),
    (
        "op n : Exp = number\nrow int",
        "/op n : Exp = number/row int",
    ),
    ("nil Args none", "/nil Args none"),
    (
        "cell Args cons(?T,?Ts) : ?T ?Ts",
        "/cell Args cons ( ?T , ?Ts ) : ?T ?Ts",
    ),
    ("hole Exp ?T", "/hole Exp ?T"),
];

/// Specimens of placeholders.
const SPECIMENS: &[(&str, &str)] = &[
    ("hole Exp ?T by add", "/hole Exp ?T by add"),
    (
        "hole Exp ?T by add(hole(Exp,?T),hole(Exp,f(int)))",
        "/hole Exp ?T by add ( hole ( Exp , ?T ) , hole ( Exp , f ( int ) ) )",
    ),
    (
        "hole Exp ?T by hole ( Exp , ?T )",
        "/hole Exp ?T by hole ( Exp , ?T )",
    ),
    (
        "hole Exp ?T by hole(a,hole)",
        "/hole Exp ?T by hole ( a , hole )",
    ),
    ("hole Args ?T by []", "/hole Args ?T by [ ]"),
    (
        "hole Args ?T by [|hole(Args,?T)]",
        "/hole Args ?T by [ | hole ( Args , ?T ) ]",
    ),
    (
        "hole Args ?T by [a,[b],c]",
        "/hole Args ?T by [ a , [ b ] , c ]",
    ),
    (
        "hole Args ?T by [a|hole(Args,?T)]",
        "/hole Args ?T by [ a | hole ( Args , ?T ) ]",
    ),
    (
        "hole Exp ?T\ncase int by n($x,12,\"q\")",
        "/hole Exp ?T/case int by n ( $x , 12 , \"q\" )",
    ),
    (
        "declare Ds p(?T) : ?U by d($it)",
        "/declare Ds p ( ?T ) : ?U by d ( $it )",
    ),
];

/// Numbers and texts in specimens.
const LITERALS: &[(&str, &str)] = &[
    ("hole E ?T by n(007)", "/hole E ?T by n ( 007 )"),
    (
        "hole E ?T by n(340282366920938463463374607431768211455)",
        "/hole E ?T by n ( 340282366920938463463374607431768211455 )",
    ),
    ("hole E ?T by n(\"\")", "/hole E ?T by n ( \"\" )"),
    (
        "hole E ?T by n(\"a\\\"b\\\\c\\nd\")",
        "/hole E ?T by n ( \"a\\\"b\\\\c\\nd\" )",
    ),
];

/// A second line in parts: a front, an opening the given number of times, the inside, a closing as often, and an end;
/// and the text of the line by its length, or the fault.
const DEEP: &[(&str, &str, &str, &str, &str, usize, &str)] = &[
    ("entity E", "a", "", "", "\n", 100_000, "line 2 code 2"),
    // a variable's name may have any length
    ("nil L ?", "a", "", "", "\n", 100_000, "/100007 bytes"),
    // 5 bytes, then 31 times 4 for ` f (`, 2 for ` x`, and 31 times 2 for ` )`
    ("nil L ", "f(", "x", ")", "\n", 31, "/193 bytes"),
    ("nil L ", "f(", "x", ")", "\n", 32, "line 2 code 11"),
    ("nil L ", "f(", "", "", "\n", 100_000, "line 2 code 2"),
    // 12 bytes for `hole E ?T by`, then 4 for each ` f (`, 2 for each ` )`, and the inside
    ("hole E ?T by ", "f(", "x", ")", "\n", 31, "/200 bytes"),
    ("hole E ?T by ", "f(", "x", ")", "\n", 32, "line 2 code 11"),
    ("hole E ?T by ", "f(", "$x", ")", "\n", 32, "/207 bytes"),
    ("hole E ?T by ", "f(", "$x", ")", "\n", 33, "line 2 code 11"),
    // 2 for each of ` [` and ` ]`
    ("hole E ?T by ", "[", "", "]", "\n", 32, "/140 bytes"),
    ("hole E ?T by ", "[", "", "]", "\n", 33, "line 2 code 11"),
    ("hole E ?T by ", "[", "a", "]", "\n", 31, "/138 bytes"),
    ("hole E ?T by ", "[", "a", "]", "\n", 32, "line 2 code 11"),
    (
        "hole E ?T by ",
        "f(",
        "",
        "",
        "\n",
        100_000,
        "line 2 code 2",
    ),
    (
        "hole E ?T by ",
        "f(",
        "x",
        ")",
        "\n",
        50_000,
        "line 2 code 11",
    ),
    (
        "hole E ?T by ",
        "[",
        "",
        "]",
        "\n",
        50_000,
        "line 2 code 11",
    ),
    // the term of a hole place is measured by itself: 12 bytes for `hole E ?T by`, 11 for ` hole ( E ,`, 31 times 4 and
    // 2, 2 for ` x` and 2 for ` )`
    (
        "hole E ?T by hole(E,",
        "f(",
        "x",
        ")",
        ")\n",
        31,
        "/213 bytes",
    ),
    (
        "hole E ?T by hole(E,",
        "f(",
        "x",
        ")",
        ")\n",
        32,
        "line 2 code 11",
    ),
    (
        "hole E ?T by [|hole(L,",
        "f(",
        "x",
        ")",
        ")]\n",
        32,
        "line 2 code 11",
    ),
    (
        "hole E ?T by [|hole(L,",
        "f(",
        "x",
        ")",
        ")\n",
        32,
        "line 2 code 2",
    ),
];

/// The texts of the lines, each after a stroke, or the fault. A text above a hundred bytes is shown by its length.
fn shown(alloc: Global, outcome: Result<FileLines, ReadFault>) -> Result<String, AllocError> {
    let mut out = String::new(alloc);
    match outcome {
        Err(ReadFault::Memory) => out.push_str("memory")?,
        Err(ReadFault::Def(fault)) => out.push_str(fault_text(alloc, &fault)?.as_str())?,
        Ok(found) => {
            for entry in &found.entries {
                out.push_str("/")?;
                if let Some(line) = entry {
                    show(alloc, &mut out, line)?;
                }
            }
        }
    }
    Ok(out)
}

fn show(alloc: Global, out: &mut String, line: &Line) -> Result<(), AllocError> {
    let text = line_text(alloc, line)?;
    if text.len() <= 100 {
        out.push_str(text.as_str())
    } else {
        let length = text.len();
        write!(out, "{length} bytes")
    }
}

fn reads(rt: &impl Abort, alloc: Global, text: &str, expected: &str) -> Result<(), Fail> {
    let bytes = text.as_bytes();
    assert!(rt; bytes.len() < 4_294_967_296);
    let found = shown(alloc, read_lines(alloc, bytes))?;
    assert_eq!(rt; found.as_str(), expected, "at {text:?}");
    Ok(())
}

#[test]
fn lines_are_read_and_written(rt: HostRuntime) -> Result<(), Fail> {
    let alloc = rt.alloc();
    for (text, expected) in FILES {
        reads(&rt, alloc, text, expected)?;
    }
    for rows in [DECLARATIONS, OPERATORS, ROWS, SPECIMENS, LITERALS] {
        for (line, expected) in rows {
            let text = repeated(alloc, "psg 1\n", line, 1, "")?;
            reads(&rt, alloc, text.as_str(), expected)?;
        }
    }
    Ok(())
}

#[test]
fn long_and_deep_lines(rt: HostRuntime) -> Result<(), Fail> {
    let alloc = rt.alloc();
    for (front, open, inside, close, end, times, expected) in DEEP {
        let mut text = repeated(alloc, "psg 1\n", front, 1, "")?;
        text.push_str(repeated(alloc, "", open, *times, inside)?.as_str())?;
        text.push_str(repeated(alloc, "", close, *times, end)?.as_str())?;
        reads(&rt, alloc, text.as_str(), expected)?;
    }
    Ok(())
}
