//! Which names are together in programs of a language with two spaces, and which new names they may get.
ghost use Rattle.std.specs.Prelude.{◌≡◌, ◌<◌};
ghost use Rattle.psg_grammar.specs.Kinds.{HasKind};

use psg_defread::read_definition;
use psg_grammar::Kind;
use psg_links::{Linked, Page, Refusal, Spot, rename};
use psg_specimen::{Language, accept};
use psg_terms::Steps;
use std::alloc::{AllocError, Global};
use std::marker::Brand;
use std::sync::ledger::{Blank, Ledger};
use std::test::Fail;

/// Blocks in blocks, with variables and labels.
const NEST: &str = "psg 2
sort Unit = ok
space var : Unit
space label : Unit
phylum Prog : Unit
phylum Line : Unit
phylum Exp : Unit
list Lines : Unit of Line \";\" inline unfinished
op prog : Prog scope = \"{\" Lines \"}\"
row ok : ok
op let : Line = \"let\" declares@var \"=\" Exp
row ok : ok ok
op mark : Line = \"mark\" declares@label
row ok : ok
op jump : Line = \"jump\" refers@label
row ok : ok
op show : Line = \"show\" Exp
row ok : ok
op inner : Line scope = \"begin\" Lines \"end\"
row ok : ok
op use : Exp = refers@var
row ok : ok
op num : Exp = number
row ok
hole Prog ok by prog([])
hole Line ok by inner([])
hole Exp ok by num(0)
hole Lines ok by []
nil Lines ok
cell Lines ok : ok ok
declare@var Lines ok : ok by let($it,num(0))
declare@label Lines ok : ok by mark($it)
";

/// The language that the text defines.
fn language(alloc: Global, text: &str) -> Result<Language, AllocError> {
    if text.len() >= 1_048_576 {
        return Err(AllocError);
    }
    let Ok(definition) = read_definition(alloc, text.as_bytes()) else {
        return Err(AllocError);
    };
    match accept(alloc, definition) {
        Ok(language) => Ok(language),
        Err(_) => Err(AllocError),
    }
}

/// The page of the text.
fn read<L: Ledger>(
    alloc: Global,
    language: &Language,
    kind: Kind,
    bytes: &[u8],
    ledger: Blank,
) -> Result<Option<Page>, AllocError>
    requires kind { HasKind language.now kind }
    requires name { ledger.name ≡ L.name }
    requires parts { ledger.parts ≡ L.parts }
    requires some { 0 < L.parts }
{
    let mut steps = Steps::<L>::of(ledger);
    Page::of(alloc, language, kind, bytes, &mut steps)
}

/// The names that get the new name.
fn tried<L: Ledger>(
    alloc: Global,
    language: &Language,
    kind: Kind,
    bytes: &[u8],
    page: &Page,
    byte: usize,
    new: String,
    ledger: Blank,
) -> Result<Result<Vec<Spot>, Refusal>, AllocError>
    requires kind { HasKind language.now kind }
    requires name { ledger.name ≡ L.name }
    requires parts { ledger.parts ≡ L.parts }
    requires some { 0 < L.parts }
{
    let mut steps = Steps::<L>::of(ledger);
    rename(
        alloc,
        language,
        kind,
        bytes,
        page,
        byte,
        new.as_str(),
        &mut steps,
    )
}

/// Where a name begins, with `!` where it declares.
fn spot_text(alloc: Global, spot: &Spot) -> Result<String, AllocError> {
    let mark = if spot.declares { "!" } else { "" };
    format!(in alloc; " {}{}", spot.start, mark)
}

/// A name, where it is declared, and the names that are together with it.
fn linked_text(alloc: Global, linked: &Linked) -> Result<String, AllocError> {
    let mut out = match &linked.declaration {
        Some(spot) => format!(in alloc;
            "{}-{} > {}:",
            linked.own.start, linked.own.end, spot.start
        )?,
        None => format!(in alloc; "{}-{} > outside:", linked.own.start, linked.own.end)?,
    };
    for spot in linked.together.as_slice() {
        let one = spot_text(alloc, spot)?;
        out.push_str(one.as_str())?;
    }
    Ok(out)
}

/// What is said of the name at the byte of the text.
fn said(alloc: Global, language: &Language, text: &str, byte: usize) -> Result<String, AllocError> {
    let phylum: u32 = 0;
    if phylum as usize >= language.definition().phyla.as_slice().len() {
        return Err(AllocError);
    }
    let kind = Kind::Phylum(phylum);
    let page = read::<Brand>(alloc, language, kind, text.as_bytes(), Blank::new(1))?;
    let Some(page) = page else {
        return String::from_str(alloc, "no program");
    };
    let linked = page.link_at(alloc, byte)?;
    match linked {
        Some(one) => linked_text(alloc, &one),
        None => String::from_str(alloc, "no name"),
    }
}

/// The word of the refusal.
fn word(refusal: Refusal) -> &'static str {
    match refusal {
        Refusal::NoName => "no name",
        Refusal::Outside => "outside",
        Refusal::NewName => "new name",
        Refusal::Unread => "unread",
        Refusal::Relinked => "relinked",
    }
}

/// Where the names are that get the new name.
fn spots_text(alloc: Global, spots: &[Spot]) -> Result<String, AllocError> {
    let mut out = String::new(alloc);
    for spot in spots {
        let one = spot_text(alloc, spot)?;
        out.push_str(one.as_str())?;
    }
    Ok(out)
}

/// What becomes of the name at the byte of the text with the new name.
fn renamed(
    alloc: Global,
    language: &Language,
    text: &str,
    byte: usize,
    new: &str,
) -> Result<String, AllocError> {
    let phylum: u32 = 0;
    if phylum as usize >= language.definition().phyla.as_slice().len() {
        return Err(AllocError);
    }
    let kind = Kind::Phylum(phylum);
    let bytes = text.as_bytes();
    let page = read::<Brand>(alloc, language, kind, bytes, Blank::new(1))?;
    let Some(page) = page else {
        return String::from_str(alloc, "no program");
    };
    let name = String::from_str(alloc, new)?;
    let answer = tried::<Brand>(
        alloc,
        language,
        kind,
        bytes,
        &page,
        byte,
        name,
        Blank::new(1),
    )?;
    match answer {
        Ok(spots) => spots_text(alloc, spots.as_slice()),
        Err(refusal) => String::from_str(alloc, word(refusal)),
    }
}

/// Texts, bytes, and what is said of the name there.
const LINKS: &[(&str, usize, &str)] = &[
    ("{ let a = 1 ; show a }", 6, "6-7 > 6: 6! 19"),
    ("{ let a = 1 ; show a }", 7, "6-7 > 6: 6! 19"),
    ("{ let a = 1 ; show a }", 19, "19-20 > 6: 6! 19"),
    ("{ let a = 1 ; show a }", 5, "no name"),
    ("{ let a = 1 ; show a }", 1000, "no name"),
    // used before it is declared, and declared again in a block inside
    (
        "{ show a ; let a = 1 ; begin show a ; let a = a end }",
        7,
        "7-8 > 15: 7 15!",
    ),
    (
        "{ show a ; let a = 1 ; begin show a ; let a = a end }",
        46,
        "46-47 > 42: 34 42! 46",
    ),
    // a name of a block is none outside of it
    (
        "{ begin let a = 1 end ; show a }",
        29,
        "29-30 > outside: 29",
    ),
    // variables and labels
    (
        "{ let a = 1 ; mark a ; jump a ; show a }",
        6,
        "6-7 > 6: 6! 37",
    ),
    (
        "{ let a = 1 ; mark a ; jump a ; show a }",
        28,
        "28-29 > 19: 19! 28",
    ),
    // declared twice: the first one
    (
        "{ let a = 1 ; let a = 2 ; show a }",
        18,
        "18-19 > 6: 6! 18! 31",
    ),
    (
        "{ let a = 1 ; let a = 2 ; show a }",
        31,
        "31-32 > 6: 6! 18! 31",
    ),
    // lists that may go on
    (
        "{ show a ; begin show a ; let b = 1 ; ... end ; show b }",
        22,
        "22-23 > outside: 7 22",
    ),
    (
        "{ let a = 1 ; begin show a ; ... end }",
        25,
        "25-26 > 6: 6! 25",
    ),
    ("{ let a = ; show a }", 6, "no program"),
    ("\u{feff}{ show a }", 7, "7-8 > outside: 7"),
];

/// Texts, bytes, new names, and what becomes of them.
const NAMES: &[(&str, usize, &str, &str)] = &[
    ("{ let a = 1 ; show a }", 19, "total", " 6! 19"),
    ("{ let a = 1 ; show a }", 19, "a", " 6! 19"),
    ("{ let a = 1 ; show a }", 19, "é", " 6! 19"),
    ("{ let a = 1 ; show a }", 4, "b", "no name"),
    ("{ let a = 1 ; show a }", 6, "let", "new name"),
    ("{ let a = 1 ; show a }", 6, "", "new name"),
    ("{ let a = 1 ; show a }", 6, "a b", "new name"),
    ("{ let a = 1 ; show a }", 6, "1b", "new name"),
    ("{ let a = 1 ; show b }", 19, "c", "outside"),
    ("{ let a = 1 ; show b }", 6, "b", "relinked"),
    ("{ let a = 1 ; let b = 2 }", 6, "b", "relinked"),
    ("{ let a = 1 ; let b = 2 }", 18, "a", "relinked"),
    ("{ let a = 1 ; let a = 2 ; show a }", 18, "b", " 6! 18! 31"),
    (
        "{ let a = 1 ; begin let b = 2 ; show a end }",
        6,
        "b",
        "relinked",
    ),
    (
        "{ let a = 1 ; begin let b = 2 ; show a end }",
        24,
        "a",
        "relinked",
    ),
    (
        "{ let a = 1 ; begin let b = 2 ; show a end }",
        24,
        "c",
        " 24!",
    ),
    ("{ let a = 1 ; mark b ; jump b ; show a }", 6, "b", " 6! 37"),
    ("\u{feff}{ let a = 1 ; show a }", 6, "b", " 6! 19"),
    ("{ let a = ; show a }", 6, "b", "no program"),
];

#[test]
fn links(rt: HostRuntime) -> Result<(), Fail> {
    let alloc = rt.alloc();
    let nest = language(alloc, NEST)?;
    for (text, byte, wanted) in LINKS {
        let own = said(alloc, &nest, text, *byte)?;
        assert_eq!(rt; own.as_str(), *wanted);
    }
    Ok(())
}

#[test]
fn names(rt: HostRuntime) -> Result<(), Fail> {
    let alloc = rt.alloc();
    let nest = language(alloc, NEST)?;
    for (text, byte, new, wanted) in NAMES {
        let own = renamed(alloc, &nest, text, *byte, new)?;
        assert_eq!(rt; own.as_str(), *wanted);
    }
    Ok(())
}
