//! Texts of whole languages, and the trees that they spell.
ghost use Rattle.std.specs.Prelude.{◌≡◌};

use super::languages::{accepted, tree};
use psg_langs::{LEVELS, MINI};
use psg_tree::abstract_text;
use std::alloc::{AllocError, Global};
use std::process::Abort;
use std::test::Fail;

/// Reads each text of the rows as one of the kind, and compares the abstract text of its tree.
fn reads(
    rt: &impl Abort,
    alloc: Global,
    language: &str,
    kind: &str,
    rows: &[(&str, &str)],
) -> Result<(), Fail> {
    let definition = accepted(alloc, language)?;
    for (text, expected) in rows {
        let said = match tree(alloc, &definition, kind, text)? {
            Some(tree) => abstract_text(alloc, &definition, &tree)?,
            None => String::from_str(alloc, "no tree")?,
        };
        assert!(rt; said.as_str() == *expected, "{text}: {said}");
    }
    Ok(())
}

#[test]
fn expressions_of_all_levels(rt: HostRuntime) -> Result<(), Fail> {
    let rows = [
        ("1 + 2 * 3", "plus(num(1),times(num(2),num(3)))"),
        ("(1 + 2) * 3", "times(plus(num(1),num(2)),num(3))"),
        ("1 - 2 - 3", "minus(minus(num(1),num(2)),num(3))"),
        ("2 ^ 3 ^ 4", "power(num(2),power(num(3),num(4)))"),
        ("-2!", "negative(factorial(num(2)))"),
        ("(-2)!", "factorial(negative(num(2)))"),
        ("1 < 2 < 3", "no tree"),
        ("not 1 < 2 and yes", "and(not(less(num(1),num(2))),yes)"),
        ("yes or no or yes", "or(yes,or(no,yes))"),
        (
            "if yes then 1 else 2 fi + 3",
            "plus(choose(yes,num(1),num(2)),num(3))",
        ),
        ("?Exp + 1", "plus(?Exp,num(1))"),
        ("1 +", "no tree"),
        ("1 2", "no tree"),
    ];
    reads(&rt, rt.alloc(), LEVELS, "Exp", &rows)
}

#[test]
fn expressions_with_names(rt: HostRuntime) -> Result<(), Fail> {
    let rows = [
        ("a", "ref(a)"),
        ("a & b + 1", "plus(cat(ref(a),ref(b)),num(1))"),
        ("not a[1]", "not(idx(ref(a),num(1)))"),
        ("a = b = a", "no tree"),
        ("(a = b) = c", "eq(eq(ref(a),ref(b)),ref(c))"),
    ];
    reads(&rt, rt.alloc(), MINI, "Exp", &rows)
}

#[test]
fn statements_with_lists(rt: HostRuntime) -> Result<(), Fail> {
    let rows = [
        ("call p()", "call(p,[])"),
        ("call p(1, a)", "call(p,[num(1),ref(a)])"),
        ("call p(1, ...)", "call(p,[num(1)|...])"),
        (
            "begin var a : int do a := 1 end",
            "block([vardecl(a,tint)],[assign(a,num(1))])",
        ),
        (
            "begin type t = array int; ... do skip; ?Stat end",
            "block([typdecl(t,tarr(tint))|...],[skip,?Stat])",
        ),
        (
            "begin proc p(a : int, b : t) while a = b do skip od do ... end",
            "block([procdecl(p,body([param(a,tint),param(b,tname(t))],while(eq(ref(a),ref(b)),[skip])))],[|...])",
        ),
        ("begin do end", "block([],[])"),
        ("begin do skip skip end", "no tree"),
        ("while true do od", "while(tru,[])"),
        ("while true do ... od", "while(tru,[|...])"),
        ("?Exp", "no tree"),
        ("a := ?TypeX", "no tree"),
        ("call p(, 1)", "no tree"),
    ];
    reads(&rt, rt.alloc(), MINI, "Stat", &rows)
}

#[test]
fn lists_by_themselves(rt: HostRuntime) -> Result<(), Fail> {
    let rows = [
        ("", "[]"),
        ("...", "[|...]"),
        ("skip", "[skip]"),
        ("skip; skip; ...", "[skip,skip|...]"),
        ("skip;", "no tree"),
        ("skip; ;", "no tree"),
        ("skip ...", "no tree"),
        ("... ; skip", "no tree"),
    ];
    reads(&rt, rt.alloc(), MINI, "Stats", &rows)
}

/// A definition of that many operators, each a word of its own, and of lists of them.
fn words(alloc: Global, count: u32) -> Result<String, AllocError> {
    let mut text = String::from_str(
        alloc,
        "psg 1\nsort S = s\nphylum P : S\nlist L : S of P \";\" inline fixed\n",
    )?;
    for n in 0..count {
        write!(text, "op o{n} : P = \"w{n}\"\n")?;
    }
    Ok(text)
}

/// That many elements, each of them one of the first 500 words.
fn elements(alloc: Global, count: u32) -> Result<String, AllocError> {
    let mut text = String::from_str(alloc, "w0")?;
    for n in 1..count {
        let word = n % 500;
        write!(text, "; w{word}")?;
    }
    Ok(text)
}

#[test]
fn a_long_text_in_a_wide_language(rt: HostRuntime) -> Result<(), Fail> {
    let language = words(rt.alloc(), 500)?;
    let definition = accepted(rt.alloc(), language.as_str())?;
    let text = elements(rt.alloc(), 100_000)?;
    let tree = tree(rt.alloc(), &definition, "L", text.as_str())?;
    assert!(rt; tree.is_some());
    Ok(())
}
