//! What is answered for the node at a byte, and what may be put there.
ghost use Rattle.std.specs.Prelude.{◌≡◌, ◌<◌, IfOk, IfSome};
ghost use Rattle.psg_grammar.specs.Kinds.{HasKind};

use psg_completing::{Completion, completion_at};
use psg_defread::read_definition;
use psg_grammar::{Definition, Kind};
use psg_langs::MINI;
use psg_pointing::{Hover, hover_at};
use psg_specimen::{Language, accept};
use psg_terms::Steps;
use std::alloc::{AllocError, Global};
use std::marker::Brand;
use std::sync::ledger::{Blank, Ledger};
use std::test::Fail;

/// Returns the language of the definition.
fn language_of(alloc: Global, text: &str) -> Result<Language, AllocError> {
    if text.len() >= 1_048_576 {
        return Err(AllocError);
    }
    let Ok(read) = read_definition(alloc, text.as_bytes()) else {
        return Err(AllocError);
    };
    match accept(alloc, read) {
        Ok(language) => Ok(language),
        Err(_) => Err(AllocError),
    }
}

/// Returns the first phylum, if there is one.
fn kind_in(definition: &Definition) -> Option<Kind>
    ensures { IfSome result (HasKind definition.now) }
{
    let phyla = definition.phyla.as_slice();
    if 0 < phyla.len() {
        Some(Kind::Phylum(0))
    } else {
        None
    }
}

/// Returns the first phylum of the language.
fn first_kind(language: &Language) -> Result<Kind, AllocError>
    ensures { IfOk result (HasKind language.now) }
{
    match kind_in(language.definition()) {
        Some(kind) => Ok(kind),
        None => Err(AllocError),
    }
}

/// Writes the bytes of the node and the lines.
fn hover_text(alloc: Global, hover: &Hover) -> Result<String, AllocError> {
    let mut text = String::new(alloc);
    write!(&mut text, "{}-{} ", hover.start, hover.end)?;
    for line in hover.lines.as_slice() {
        text.push_str(line.as_str())?;
        text.push('|')?;
    }
    Ok(text)
}

/// Writes the bytes of the word, what is written before and after an entry, and the entries.
fn completion_text(alloc: Global, made: &Completion) -> Result<String, AllocError> {
    let mut text = String::new(alloc);
    let before = made.before.as_str();
    let behind = made.behind.as_str();
    write!(&mut text, "{}-{} [{before}][{behind}] ", made.from, made.to)?;
    for entry in made.entries.as_slice() {
        text.push_str(entry.operator.as_str())?;
        text.push('=')?;
        text.push_str(entry.text.as_str())?;
        text.push('|')?;
    }
    if made.incomplete {
        text.push_str("..")?;
    }
    Ok(text)
}

/// Returns the answer for the node at the byte.
fn told<L: Ledger>(
    alloc: Global,
    language: &Language,
    bytes: &[u8],
    byte: usize,
    ledger: Blank,
) -> Result<String, AllocError>
    requires name { ledger.name ≡ L.name }
    requires parts { ledger.parts ≡ L.parts }
    requires some { 0 < L.parts }
{
    let mut steps = Steps::<L>::of(ledger);
    let kind = first_kind(language)?;
    match hover_at(alloc, language, kind, bytes, byte, &mut steps)? {
        Some(hover) => hover_text(alloc, &hover),
        None => String::from_str(alloc, "-"),
    }
}

/// Returns the answer at the byte.
fn told_in(
    alloc: Global,
    language: &Language,
    text: &str,
    byte: usize,
) -> Result<String, AllocError> {
    told::<Brand>(alloc, language, text.as_bytes(), byte, Blank::new(1))
}

/// Returns what may be put at the byte.
fn put<L: Ledger>(
    alloc: Global,
    language: &Language,
    bytes: &[u8],
    byte: usize,
    ledger: Blank,
) -> Result<String, AllocError>
    requires name { ledger.name ≡ L.name }
    requires parts { ledger.parts ≡ L.parts }
    requires some { 0 < L.parts }
{
    let mut steps = Steps::<L>::of(ledger);
    let kind = first_kind(language)?;
    let made = completion_at(alloc, language, kind, bytes, byte, &mut steps)?;
    completion_text(alloc, &made)
}

/// Returns what may be put at the byte.
fn put_in(
    alloc: Global,
    language: &Language,
    text: &str,
    byte: usize,
) -> Result<String, AllocError> {
    put::<Brand>(alloc, language, text.as_bytes(), byte, Blank::new(1))
}

/// A program that has a completion.
const RIGHT: &str = "begin\n  var n : bool\ndo\n  n := true;\n  n := ?Exp\nend";

/// A program of which the second assignment does not fit; its repaired program is the one above.
const WRONG: &str = "begin\n  var n : bool\ndo\n  n := true;\n  n := 1 + 2\nend";

/// A program with a list without elements.
const CALLED: &str = "begin\n  proc p() skip\ndo\n  call p()\nend";

/// A program, a byte, and the answer for the node there.
const HOVERS: &[(&str, usize, &str)] = &[
    (RIGHT, 0, "0-52 Stat: block|ok|"),
    (RIGHT, 28, "26-35 Stat: assign|ok|"),
    (RIGHT, 33, "31-35 Exp: tru|bool|"),
    // the byte after it
    (RIGHT, 35, "31-35 Exp: tru|bool|"),
    // after the separator
    (RIGHT, 36, "26-48 Stats|ok|"),
    (RIGHT, 44, "44-48 ?Exp|bool|"),
    (RIGHT, 52, "0-52 Stat: block|ok|"),
    (RIGHT, 53, "-"),
    // it is asked in the repaired program, which has nothing below what is wrong
    (WRONG, 46, "44-49 Exp: plus|bool|"),
    (WRONG, 48, "48-49 Exp: num|"),
    // the list without elements is after the bracket
    (CALLED, 34, "34-34 Args|nil|"),
    ("begin", 2, "-"),
    // a byte order mark takes three bytes
    (
        "\u{feff}begin\n  var n : bool\ndo\n  n := true;\n  n := ?Exp\nend",
        36,
        "34-38 Exp: tru|bool|",
    ),
];

#[test]
fn nodes_are_told(rt: HostRuntime) -> Result<(), Fail> {
    let alloc = rt.alloc();
    let language = language_of(alloc, MINI)?;
    for row in HOVERS {
        let told = told_in(alloc, &language, row.0, row.1)?;
        assert_eq!(&rt; told.as_str(), row.2);
    }
    Ok(())
}

/// A text, a byte, and what may be put there.
const ENTRIES: &[(&str, usize, &str)] = &[
    // a placeholder: the operators of `menu`, and each name that fits
    (
        RIGHT,
        46,
        "44-48 [][] ref=n|tru=true|not=not ?Exp|cat=?Exp & ?Exp|eq=?Exp = ?Exp|idx=?Exp[?Exp]|",
    ),
    // no name begins so: all that fit
    (
        "begin\n  var n : bool\ndo\n  n := true;\n  n := tr\nend",
        46,
        "44-46 [][] ref=n|tru=true|not=not ?Exp|cat=?Exp & ?Exp|eq=?Exp = ?Exp|idx=?Exp[?Exp]|",
    ),
    // of two names that fit one begins so
    (
        "begin\n  var n : bool;\n  var m : bool\ndo\n  n := true;\n  n := m\nend",
        61,
        "60-61 [][] ref=m|tru=true|not=not ?Exp|cat=?Exp & ?Exp|eq=?Exp = ?Exp|idx=?Exp[?Exp]|",
    ),
    // a `?` alone, after it and at it, and a `?` with the beginning of a word
    (
        "begin\n  var n : bool\ndo\n  n := true;\n  n := ?\nend",
        45,
        "44-45 [][] ref=n|tru=true|not=not ?Exp|cat=?Exp & ?Exp|eq=?Exp = ?Exp|idx=?Exp[?Exp]|",
    ),
    (
        "begin\n  var n : bool\ndo\n  n := true;\n  n := ?\nend",
        44,
        "44-45 [][] ref=n|tru=true|not=not ?Exp|cat=?Exp & ?Exp|eq=?Exp = ?Exp|idx=?Exp[?Exp]|",
    ),
    (
        "begin\n  var n : bool\ndo\n  n := true;\n  n := ?E\nend",
        46,
        "44-46 [][] ref=n|tru=true|not=not ?Exp|cat=?Exp & ?Exp|eq=?Exp = ?Exp|idx=?Exp[?Exp]|",
    ),
    // what binds less than `not` is in brackets
    (
        "begin\n  var n : bool\ndo\n  n := true;\n  n := not \nend",
        48,
        "48-48 [][] ref=n|tru=true|not=not ?Exp|cat=(?Exp & ?Exp)|eq=(?Exp = ?Exp)|idx=?Exp[?Exp]|",
    ),
    // a symbol is beside it
    (
        "begin\n  var n : int\ndo\n  n :=\nend",
        29,
        "29-29 [ ][] ref=n|num=0|plus=?Exp + ?Exp|idx=?Exp[?Exp]|",
    ),
    // a word is beside it
    (
        "begin\n  var n : bool\ndo\n  while?Exp do skip od\nend",
        33,
        "31-35 [ ][] ref=n|tru=true|not=not ?Exp|cat=?Exp & ?Exp|eq=?Exp = ?Exp|idx=?Exp[?Exp]|",
    ),
    // a statement after another, with the separator that is missing; no name fits a call yet
    (
        "begin\n  var n : bool\ndo\n  n := true\n  \nend",
        38,
        "38-38 [; ][] block=begin ... do ... end|assign=n := ?Exp|call=call name(...)|\
        while=while ?Exp do ... od|skip=skip|",
    ),
    // a statement before another; the variable does not begin so
    (
        "begin\n  var n : bool\ndo\n  sk\n  n := true\nend",
        28,
        "26-28 [][ ;] block=begin ... do ... end|assign=n := ?Exp|call=call name(...)|\
        while=while ?Exp do ... od|skip=skip|",
    ),
    // the beginning of an operator's own word
    (
        "begin\n  proc p() skip\ndo\n  cal\nend",
        30,
        "27-30 [][] block=begin ... do ... end|assign=name := ?Exp|call=call p(...)|\
        while=while ?Exp do ... od|skip=skip|",
    ),
    // nothing reads there
    ("begin (", 7, "7-7 [][] "),
];

#[test]
fn entries_are_told(rt: HostRuntime) -> Result<(), Fail> {
    let alloc = rt.alloc();
    let language = language_of(alloc, MINI)?;
    for row in ENTRIES {
        let made = put_in(alloc, &language, row.0, row.1)?;
        assert_eq!(&rt; made.as_str(), row.2);
    }
    Ok(())
}

/// A language in which `name` and `name_` are fixed words.
const NAMED: &str = "psg 1\nsort Unit = ok\nsort Ent = var\nentity Ent\nphylum Item : Unit\n\
    op use : Item = \"name\" refers\nrow ok : var\nop two : Item = \"name_\"\nrow ok\nhole Item ok by two\n";

#[test]
fn samples_are_names(rt: HostRuntime) -> Result<(), Fail> {
    let alloc = rt.alloc();
    let language = language_of(alloc, NAMED)?;
    let made = put_in(alloc, &language, "na", 2)?;
    assert_eq!(&rt; made.as_str(), "0-2 [][] use=name name__|two=name_|");
    Ok(())
}
