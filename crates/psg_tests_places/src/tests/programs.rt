//! What is repaired in programs of MINI.
ghost use Rattle.std.specs.Prelude.{◌≡◌, ◌<◌};
ghost use Rattle.psg_grammar.specs.Sound.{IsSound};
ghost use Rattle.psg_cache.specs.Notes.{AreTables, IsFormed};

use super::languages::{accepted, tree};
use psg_eval::Tables;
use psg_grammar::Definition;
use psg_langs::MINI;
use psg_places::{BlameFault, Blamed, Place, blame, blamed_places};
use psg_terms::Steps;
use psg_tree::{Path, Tree, abstract_text};
use std::alloc::{AllocError, Global};
use std::marker::Brand;
use std::process::Abort;
use std::sync::ledger::{Blank, Ledger};
use std::test::Fail;

/// A language in which a list that can't be unfinished has one element at most.
const ONE: &str = "psg 1
sort Type = int bool
sort Maybe = no yes(Type)
entity Type
phylum Exp : Type bracketed
list One : Maybe of Exp \"|\" inline fixed
op one : Exp = \"one\" One \"eno\"
row int : ?M
op num : Exp = number
row int
op tru : Exp = \"true\"
row bool
op plus : Exp infixl 4 = Exp \"+\" Exp
row int : int int
nil One no
cell One yes(?T) : ?T no
hole Exp ?T
case int by num(0)
case bool by tru
hole One ?M
case no by []
case yes(?T) by [hole(Exp,?T)]
";

fn counted<L: Ledger>(
    alloc: Global,
    definition: &Definition,
    tables: &Tables,
    tree: &Tree,
    ledger: Blank,
) -> Result<Option<Blamed>, BlameFault>
    requires sound { IsSound definition.now }
    requires tables { AreTables definition.now tables.now }
    requires formed { IsFormed definition.now tree.now }
    requires name { ledger.name ≡ L.name }
    requires parts { ledger.parts ≡ L.parts }
    requires some { 0 < L.parts }
{
    let mut steps = Steps::<L>::of(ledger);
    blame(alloc, definition, tables, tree, &mut steps)
}

/// The blame of the tree.
pub(super) fn blamed(
    alloc: Global,
    definition: &Definition,
    tables: &Tables,
    tree: &Tree,
) -> Result<Option<Blamed>, BlameFault>
    requires sound { IsSound definition.now }
    requires tables { AreTables definition.now tables.now }
    requires formed { IsFormed definition.now tree.now }
{
    counted::<Brand>(alloc, definition, tables, tree, Blank::new(1))
}

/// Writes a path, as `/0/1`, and `/` for that of the root.
pub(super) fn write_path(text: &mut String, what: &str, path: &Path) -> Result<(), AllocError> {
    text.push_str(what)?;
    if path.steps().is_empty() {
        text.push_str("/")?;
    }
    for step in path.steps() {
        write!(text, "/{step}")?;
    }
    Ok(())
}

pub(super) fn write_place(text: &mut String, place: &Place) -> Result<(), AllocError> {
    match place {
        Place::Node(path) => write_path(text, "node ", path),
        Place::Element(path) => write_path(text, "element ", path),
        Place::End(path) => write_path(text, "end ", path),
        Place::Name(path, number) => {
            write_path(text, "name ", path)?;
            write!(text, " {number}")?;
            Ok(())
        }
    }
}

/// The blamed places, each with a comma after it, and the repaired tree.
fn told(
    alloc: Global,
    definition: &Definition,
    places: &[Place],
    found: &Blamed,
) -> Result<String, AllocError> {
    let mut text = String::new(alloc);
    for place in places {
        write_place(&mut text, place)?;
        text.push_str(", ")?;
    }
    let tree = abstract_text(alloc, definition, &found.repaired)?;
    text.push_str(tree.as_str())?;
    Ok(text)
}

fn told_of(alloc: Global, definition: &Definition, tree: &Tree) -> Result<String, AllocError>
    requires sound { IsSound definition.now }
    requires formed { IsFormed definition.now tree.now }
{
    let tables = Tables::of(alloc, definition)?;
    match blamed(alloc, definition, &tables, tree) {
        Ok(Some(found)) => {
            let kept = found.kept.as_slice();
            let places = blamed_places(alloc, definition, &tables, kept, tree)?;
            told(alloc, definition, places.as_slice(), &found)
        }
        Ok(None) => String::from_str(alloc, "none"),
        Err(_) => Err(AllocError),
    }
}

/// Repairs each text of the rows as one of the kind.
fn repairs(
    rt: &impl Abort,
    alloc: Global,
    language: &str,
    kind: &str,
    rows: &[(&str, &str)],
) -> Result<(), Fail> {
    let definition = accepted(alloc, language)?;
    for (text, expected) in rows {
        let Some(tree) = tree(alloc, &definition, kind, text)? else {
            panic!(rt; "no tree: {text}");
        };
        let said = told_of(alloc, &definition, &tree)?;
        assert!(rt; said.as_str() == *expected, "{text}: {said}");
    }
    Ok(())
}

#[test]
fn expressions(rt: HostRuntime) -> Result<(), Fail> {
    let rows = [("1", "num(1)"), ("true + 1", "node /0, plus(?Exp,num(1))")];
    repairs(&rt, rt.alloc(), MINI, "Exp", &rows)
}

/// A list with an element too many has no completion: as a whole program, and inside one.
#[test]
fn fixed_lists(rt: HostRuntime) -> Result<(), Fail> {
    repairs(
        &rt,
        rt.alloc(),
        ONE,
        "One",
        &[("1 | true", "none"), ("1", "[num(1)]")],
    )?;
    let rows = [("one 1 | true eno + 2", "node /0, plus(?Exp,num(2))")];
    repairs(&rt, rt.alloc(), ONE, "Exp", &rows)
}

#[test]
fn values(rt: HostRuntime) -> Result<(), Fail> {
    let rows = [
        (
            "begin var a : int do a := 1 end",
            "block([vardecl(a,tint)],[assign(a,num(1))])",
        ),
        (
            "begin var a : bool do a := 1 end",
            "node /1/0/0, block([vardecl(a,tbool)],[assign(a,?Exp)])",
        ),
        (
            "begin var n : bool do n := 0; while n = 10 do n := n + 1 od end",
            "node /1/0/0, node /1/1/0/1, node /1/1/1/0/0, \
             block([vardecl(n,tbool)],[assign(n,?Exp),while(eq(ref(n),?Exp),[assign(n,?Exp)])])",
        ),
        (
            "begin proc p(a : int) skip do call p(true) end",
            "node /1/0/0/0, block([procdecl(p,body([param(a,tint)],skip))],[call(p,[?Exp])])",
        ),
    ];
    repairs(&rt, rt.alloc(), MINI, "Stat", &rows)
}

/// Elements too many are left out, and a list with one too few is left open.
#[test]
fn elements(rt: HostRuntime) -> Result<(), Fail> {
    let rows = [
        (
            "begin proc p(a : int) skip do call p(1, 2) end",
            "element /1/0/0/1, block([procdecl(p,body([param(a,tint)],skip))],[call(p,[num(1)])])",
        ),
        (
            "begin proc p(a : int) skip do call p() end",
            "end /1/0/0, block([procdecl(p,body([param(a,tint)],skip))],[call(p,[|...])])",
        ),
        (
            "begin proc p(a : int, b : bool) skip do call p(1); call p(true, true); call p(1, true, 3, 4); call p(1, b) end",
            "end /1/0/0, node /1/1/0/0, element /1/2/0/2, element /1/2/0/3, \
             block([procdecl(p,body([param(a,tint),param(b,tbool)],skip))],\
             [call(p,[num(1)|...]),call(p,[?Exp,tru]),call(p,[num(1),tru]),call(p,[num(1),ref(b)])])",
        ),
        // the end of the inner list is blamed, since a later declaration of x could be there
        (
            "begin var x : bool do begin var y : int; proc p() x := 1 do skip end end",
            "end /1/0/0, block([vardecl(x,tbool)],\
             [block([vardecl(y,tint),procdecl(p,body([],assign(x,num(1))))|...],[skip])])",
        ),
    ];
    repairs(&rt, rt.alloc(), MINI, "Stat", &rows)
}

/// A new name begins with letters with which no name begins and no fixed word: `ba` where most begin with a, since
/// `begin` and `bool` are fixed words, and else `aa`, since `array` is one. Then there is an a and the place's number.
#[test]
fn names(rt: HostRuntime) -> Result<(), Fail> {
    let rows = [
        (
            "begin var a : int; var a : bool do a := 1 end",
            "name /0/1 0, block([vardecl(a,tint),vardecl(baa5,tbool)],[assign(a,num(1))])",
        ),
        (
            "begin var n : int; var f : bool do n := 0; f := n; while n do n := n + 1 od end",
            "name /1/1/0 0, name /1/2/0 0, block([vardecl(n,tint),vardecl(f,tbool)],[assign(n,num(0)),\
             assign(f,ref(aaa16)),while(ref(aaa20),[assign(n,plus(ref(n),num(1)))])])",
        ),
        // the names of a fixed list are declared before its types and the body are looked at
        (
            "begin var x : int; proc p(a : int, a : bool) x := a + x; var x : bool do x := x + 1 end",
            "name /0/1/0/0/1 0, name /0/2 0, block([vardecl(x,tint),\
             procdecl(p,body([param(a,tint),param(baa8,tbool)],assign(x,plus(ref(a),ref(x))))),\
             vardecl(baa19,tbool)],[assign(x,plus(ref(x),num(1)))])",
        ),
    ];
    repairs(&rt, rt.alloc(), MINI, "Stat", &rows)
}
