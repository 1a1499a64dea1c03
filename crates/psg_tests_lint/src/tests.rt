//! What is found in program files of MINI.
ghost use Rattle.std.specs.Prelude.{◌≡◌, ◌<◌};
ghost use Rattle.psg_grammar.specs.Kinds.{HasKind};
ghost use Rattle.psg_specimen.specs.Languages.{IsDeclaringPhylum};

use psg_defread::read_definition;
use psg_grammar::Kind;
use psg_langs::MINI;
use psg_lint::laws::fine_exactly;
use psg_lint::{Report, lint, report_text};
use psg_specimen::{Language, accept};
use psg_terms::Steps;
use std::alloc::{AllocError, Global};
use std::marker::Brand;
use std::sync::ledger::{Blank, Ledger};
use std::test::Fail;

/// The language that the text defines.
fn language(alloc: Global, text: &str) -> Result<Language, AllocError> {
    if text.len() >= 1_048_576 {
        return Err(AllocError);
    }
    let Ok(definition) = read_definition(alloc, text.as_bytes()) else {
        return Err(AllocError);
    };
    match accept(alloc, definition) {
        Ok(language) => Ok(language),
        Err(_) => Err(AllocError),
    }
}

fn counted<L: Ledger>(
    alloc: Global,
    language: &Language,
    kind: Kind,
    bytes: &[u8],
    ledger: Blank,
) -> Result<Report, AllocError>
    requires kind { HasKind language.now kind }
    requires quiet_kind { IsDeclaringPhylum language.now kind → ⊥ }
    requires name { ledger.name ≡ L.name }
    requires parts { ledger.parts ≡ L.parts }
    requires some { 0 < L.parts }
{
    let mut steps = Steps::<L>::of(ledger);
    lint(alloc, language, kind, bytes, &mut steps)
}

/// What is found in the bytes.
fn found(alloc: Global, language: &Language, kind: Kind, bytes: &[u8]) -> Result<Report, AllocError>
    requires kind { HasKind language.now kind }
    requires quiet_kind { IsDeclaringPhylum language.now kind → ⊥ }
{
    counted::<Brand>(alloc, language, kind, bytes, Blank::new(1))
}

/// The lines of what is found in the bytes, which are to be a tree of the phylum of the number.
fn lines(
    alloc: Global,
    language: &Language,
    phylum: u32,
    bytes: &[u8],
) -> Result<String, AllocError> {
    if phylum as usize >= language.definition().phyla.as_slice().len() {
        return Err(AllocError);
    }
    let kind = Kind::Phylum(phylum);
    if language.is_declaring(kind) {
        return Err(AllocError);
    }
    let report = found(alloc, language, kind, bytes)?;
    report_text(alloc, "p", bytes, &report)
}

/// Texts of the first phylum, and their lines.
const FILES: &[(&str, &str)] = &[
    ("skip", ""),
    ("x := 1", "p:1:1: warning: x is not declared\n"),
    (
        "?Stat",
        "p:1:1: note: ?Stat is open: block assign call while skip\n",
    ),
    (
        "begin var x : int do x := true end",
        "p:1:27: error: wanted int, found bool\n",
    ),
    (
        "skip skip",
        "p:1:6: error: unexpected `skip`, expected the end of the text\n",
    ),
    ("skip #", "p:1:6: error: this is no token of the language\n"),
    (
        "skip '",
        "p:1:6: error: no token begins with this character\n",
    ),
];

#[test]
fn files(rt: HostRuntime) -> Result<(), Fail> {
    let alloc = rt.alloc();
    let mini = language(alloc, MINI)?;
    fine_exactly(&mini);
    for (text, wanted) in FILES {
        let own = lines(alloc, &mini, 0, text.as_bytes())?;
        assert_eq!(rt; own.as_str(), *wanted);
    }
    let own = lines(alloc, &mini, 0, &[255])?;
    assert_eq!(rt; own.as_str(), "p:1:1: error: this is no UTF-8\n");
    Ok(())
}
