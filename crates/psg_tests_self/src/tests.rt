//! Exported texts of worked programs, and what is read from them.
ghost use Rattle.std.specs.Prelude.{◌≡◌, ◌<◌, ◌≤◌, ◌^◌, IfOk, length};
ghost use Rattle.psg_class.specs.Class.{IsClass};
ghost use Rattle.psg_grammar.specs.declared.types.Kind.TheVariants as kinds;
ghost use Rattle.psg_grammar.specs.Sound.{IsSound};
ghost use Rattle.psg_grammar.specs.WellFormed.{IsComplete, WellFormed};
ghost use Rattle.psg_grammar.specs.declared.limits.TheConstants.{MOST_BRACKETS};
ghost use Rattle.psg_self.specs.Export.{exported as exported_as};
ghost use Rattle.psg_self.specs.SelfLanguage.{IsSelf};

use psg_class::class_check;
use psg_deflines::fault_text;
use psg_defread::read_definition;
use psg_grammar::{Definition, Kind};
use psg_langs::{MINI, SELF};
use psg_lexis::{Spanned, lex};
use psg_parse::{Goal, ParseFault, parse};
use psg_self::{ExportFault, check_export, export, is_self};
use psg_specimen::{Language, accept};
use psg_terms::Steps;
use psg_tree::{Path, Tree};
use std::alloc::{AllocError, Global};
use std::marker::Brand;
use std::process::Abort;
use std::sync::ledger::{Blank, Ledger};
use std::test::Fail;

/// The language that the text defines.
fn language(alloc: Global, text: &str) -> Result<Language, AllocError> {
    if text.len() >= 1_048_576 {
        return Err(AllocError);
    }
    let Ok(definition) = read_definition(alloc, text.as_bytes()) else {
        return Err(AllocError);
    };
    match accept(alloc, definition) {
        Ok(language) => Ok(language),
        Err(_) => Err(AllocError),
    }
}

fn counted<L: Ledger>(
    alloc: Global,
    definition: &Definition,
    goal: Goal,
    tokens: &[Spanned],
    ledger: Blank,
) -> Result<Tree, ParseFault>
    requires sound { IsSound definition.now }
    requires class { IsClass definition.now }
    requires around { goal.around ≤ MOST_BRACKETS }
    requires name { ledger.name ≡ L.name }
    requires parts { ledger.parts ≡ L.parts }
    requires some { 0 < L.parts }
    ensures { IfOk result (λ tree. WellFormed definition.now tree goal.kind) }
{
    let mut steps = Steps::<L>::of(ledger);
    parse(alloc, definition, goal, tokens, &mut steps)
}

/// The tree of the tokens, or why there is none.
fn parsed(
    alloc: Global,
    definition: &Definition,
    goal: Goal,
    tokens: &[Spanned],
) -> Result<Tree, ParseFault>
    requires sound { IsSound definition.now }
    requires class { IsClass definition.now }
    requires around { goal.around ≤ MOST_BRACKETS }
    ensures { IfOk result (λ tree. WellFormed definition.now tree goal.kind) }
{
    counted::<Brand>(alloc, definition, goal, tokens, Blank::new(1))
}

/// The tree of the first list of the definition, which is of the grammar class, from the tokens.
fn list_of(alloc: Global, definition: &Definition, tokens: &[Spanned]) -> Result<Tree, AllocError>
    requires sound { IsSound definition.now }
    ensures { IfOk result (λ tree. WellFormed definition.now tree (kinds.List 0)) }
{
    let Ok(()) = class_check(alloc, definition) else {
        return Err(AllocError);
    };
    let goal = Goal {
        kind: Kind::List(0),
        least: 0,
        around: 0,
    };
    match parsed(alloc, definition, goal, tokens) {
        Ok(tree) => Ok(tree),
        Err(_) => Err(AllocError),
    }
}

/// The tree of the first list of the language that the text spells.
fn tree(alloc: Global, language: &Language, text: &str) -> Result<Tree, AllocError>
    ensures { IfOk result (λ tree. WellFormed language.now tree (kinds.List 0)) }
{
    let Ok(tokens) = lex(alloc, language.lexis(), text) else {
        return Err(AllocError);
    };
    list_of(alloc, language.definition(), tokens.as_slice())
}

/// The path of an open place, as a text.
fn open_place(alloc: Global, path: &Path) -> Result<String, AllocError> {
    let mut text = String::from_str(alloc, "unfinished ")?;
    for step in path.steps() {
        write!(text, "/{step}")?;
    }
    Ok(text)
}

/// What is read from the exported text: `read`, or its first fault.
fn reading(alloc: Global, language: &Language, tree: &Tree) -> Result<String, AllocError>
    requires itself { IsSelf language.now }
    requires formed { WellFormed language.now tree.now (kinds.List 0) }
    requires short { IsComplete tree.now → length (exported_as tree.now) < 2 ^ 32 }
{
    match check_export(alloc, language, tree) {
        Ok(Ok(_)) => String::from_str(alloc, "read"),
        Ok(Err(fault)) => fault_text(alloc, &fault),
        Err(_) => Err(AllocError),
    }
}

/// What an export answers, as a text: the path of the first open place, or the exported text and what is read from it.
fn exported(alloc: Global, language: &Language, tree: &Tree) -> Result<String, AllocError>
    requires itself { IsSelf language.now }
    requires formed { WellFormed language.now tree.now (kinds.List 0) }
{
    let bytes = match export(alloc, language, tree) {
        Ok(bytes) => bytes,
        Err(ExportFault::Unfinished(path)) => return open_place(alloc, &path),
        Err(ExportFault::Memory) => return Err(AllocError),
    };
    let Ok(text) = str::from_utf8(bytes.as_slice()) else {
        return Err(AllocError);
    };
    if bytes.as_slice().len() >= 1_048_576 {
        return Err(AllocError);
    }
    let read = reading(alloc, language, tree)?;
    format!(in alloc; "{text}{read}")
}

/// What a program is exported as, and what is read from that: `read`, or the first fault.
const ROWS: &[(&str, &str)] = &[
    ("", "psg 1\nread"),
    ("...", "unfinished "),
    (
        "sort T = a(), b() ; phylum P : T ; op x : P plain = \"x\" rows row a() : ; hole P a() by x()",
        "psg 1\nsort T = a b\nphylum P : T\nop x : P = \"x\"\nrow a\nhole P a by x\nread",
    ),
    (
        "sort T = a(), b() ; phylum P : T ; op x : P plain = \"x\" rows row a() :",
        "psg 1\nsort T = a b\nphylum P : T\nop x : P = \"x\"\nrow a\nread",
    ),
    (
        "phylum P : T ; op x : P plain = \"x\", ... rows row a() :",
        "unfinished /1/1",
    ),
    ("sort T = a() ; ...", "unfinished "),
    ("op x : P plain = rows", "psg 1\nop x : P =\nline 2 code 2"),
    (
        "sort T = a(), b(T) ; bracketed P : T ; op x : P infixl 4 = P, \"+\", P rows row a() : %q, b(%r) \
        | row b(%q) : %q, a() ; op n : P plain = \"n\" rows row %z : ; hole P %z by n()",
        "psg 1\nsort T = a b(T)\nphylum P : T bracketed\nop x : P infixl 4 = P \"+\" P\nrow a : ?q b(?r)\n\
        row b(?q) : ?q a\nop n : P = \"n\"\nrow ?z\nhole P ?z by n\nread",
    ),
    (
        "op x : P plain = \"\\\"\" rows",
        "psg 1\nop x : P = \"\\\"\"\nline 2 code 8",
    ),
    (
        "sort T = a() ; phylum P : T ; op x : P plain = \"\\n\\\\\" rows row a() :",
        "psg 1\nsort T = a\nphylum P : T\nop x : P = \"\\n\\\\\"\nrow a\nline 4 code 8",
    ),
    (
        "sort T = a(T,T) ; op x : P prefix 10 = space, tight, line, in, out, number rows row a(b(%c,d()),e()) :",
        "psg 1\nsort T = a(T,T)\nop x : P prefix 10 = space tight line in out number\nrow a(b(?c,d),e)\n\
        line 3 code 2",
    ),
    (
        "hole P a(b()) by x(y(z(),u()))",
        "psg 1\nhole P a(b) by x(y(z,u))\nline 2 code 5",
    ),
    (
        "sort T = a() ; phylum P : T ; op x : P prefix 10 = \"x\", P rows row a() : a()",
        "psg 1\nsort T = a\nphylum P : T\nop x : P prefix 10 = \"x\" P\nrow a : a\nline 4 code 2",
    ),
    (
        "op x : P infix 340282366920938463463374607431768211455 = \"x\" rows",
        "psg 1\nop x : P infix 340282366920938463463374607431768211455 = \"x\"\nline 2 code 2",
    ),
    ("sort t = a()", "psg 1\nsort t = a\nline 2 code 2"),
    (
        "sort T\u{e9} = a()",
        "psg 1\nsort T\u{e9} = a\nline 2 code 2",
    ),
    (
        "sort T = a() ; phylum P : T ; op x : P plain = refers rows row a() :",
        "psg 1\nsort T = a\nphylum P : T\nop x : P = refers\nrow a\nline 4 code 9",
    ),
    (
        "sort T = a() ; phylum P : T ; op x : P plain = \"x\" rows row %q_1 :",
        "psg 1\nsort T = a\nphylum P : T\nop x : P = \"x\"\nrow ?q_1\nline 5 code 2",
    ),
    (
        "sort T = a(), a() ; phylum P : T",
        "psg 1\nsort T = a a\nphylum P : T\nline 2 code 4",
    ),
    (
        "phylum P : T ; sort T = a() ; hole P a() by x() ; op x : P plain = \"x\" rows row a() :",
        "psg 1\nphylum P : T\nsort T = a\nhole P a by x\nop x : P = \"x\"\nrow a\nread",
    ),
    (
        "sort S = o(S) ; phylum P : S",
        "psg 1\nsort S = o(S)\nphylum P : S\nline 2 code 12",
    ),
    (
        "sort U = ok() ; sort T = a(), b() ; sort H = h(U), k() ; phylum Q : T ; phylum P : H ; op x : P plain = Q \
        rows row h(%a) : %a",
        "psg 1\nsort U = ok\nsort T = a b\nsort H = h(U) k\nphylum Q : T\nphylum P : H\nop x : P = Q\nrow h(?a) : ?a\n\
        line 8 code 6",
    ),
    (
        "sort U = ok() ; sort T = a(), b() ; sort H = h(U), k() ; phylum Q : T ; phylum P : H ; op x : P plain = Q \
        rows row h(ok()) : %a",
        "psg 1\nsort U = ok\nsort T = a b\nsort H = h(U) k\nphylum Q : T\nphylum P : H\nop x : P = Q\nrow h(ok) : ?a\n\
        read",
    ),
];

#[test]
fn exported_texts(rt: HostRuntime) -> Result<(), Fail> {
    let language = language(rt.alloc(), SELF)?;
    if !is_self(&language) {
        panic!(rt; "the language of definitions is not itself");
    }
    for (text, expected) in ROWS {
        let tree = tree(rt.alloc(), &language, text)?;
        let said = exported(rt.alloc(), &language, &tree)?;
        assert!(rt; said.as_str() == *expected, "{text}: {said}");
    }
    Ok(())
}

/// Changes of the language of definitions: the text, and what is in its place.
const CHANGES: &[(&str, &str)] = &[
    (
        "op lpre : Level = \"prefix\" number",
        "op lpre : Level = \"prefix\" text",
    ),
    ("list Rows : Unit of Row", "list Rows : Unit of Item"),
    ("op iin : Item", "op iinner : Item"),
    (
        "op ispace : Item = \"space\"\nrow ok\n",
        "op ispace : Item = \"space\"\nrow ok\nop iwide : Item = \"wide\"\nrow ok\n",
    ),
];

#[test]
fn other_languages(rt: HostRuntime) -> Result<(), Fail> {
    let mini = language(rt.alloc(), MINI)?;
    assert!(rt; !is_self(&mini));
    for (old, new) in CHANGES {
        let Some((before, after)) = SELF.split_once(*old) else {
            panic!(rt; "{old} is not there");
        };
        let text = format!(in rt.alloc(); "{before}{new}{after}")?;
        let changed = language(rt.alloc(), text.as_str())?;
        assert!(rt; !is_self(&changed), "{new}");
    }
    Ok(())
}
