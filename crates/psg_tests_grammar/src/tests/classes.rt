//! Which definitions are of the grammar class, and the texts of refusals.
ghost use Rattle.std.specs.Prelude.{IsTrue};
ghost use Rattle.psg_class.specs.Refusal.{IsOf};

use super::languages::definition;
use psg_class::{ClassFault, class_check, class_text};
use psg_grammar::Definition;
use std::alloc::{AllocError, Global};
use std::process::Abort;
use std::test::Fail;

/// Sums that bind to the left at 4, in brackets or without, the level and the word of differences, and what the check
/// says.
const SUMS: &[(&str, &str, &str, &str)] = &[
    // differences bind like sums, or at a level of their own
    (" bracketed", "infixl 4", "-", "accepted"),
    (" bracketed", "infixr 5", "-", "accepted"),
    (" bracketed", "infix 9", "-", "accepted"),
    // in another way
    (" bracketed", "infixr 4", "-", "refused MixedLevel Exp 4"),
    (" bracketed", "", "-", "refused Form minus"),
    (" bracketed", "prefix 3", "-", "refused Form minus"),
    // without brackets, and by the same word
    ("", "infixl 4", "-", "refused NoBracket Exp"),
    (" bracketed", "infixl 4", "+", "refused SameLed Exp +"),
];

/// One phylum, one list and one operator.
const ONE_OF_EACH: &str = "psg 1
sort S = s
phylum Exp : S
list Items : S of Exp \";\" inline fixed
op cat : Exp infixl 3 = Exp \"+\" Exp
";

/// A condition with a token, and the text of the refusal by it of the first operator, phylum or list.
const REFUSALS: &[(&str, &str, &str)] = &[
    ("NoFirst", "", "refused NoFirst cat"),
    ("Form", "", "refused Form cat"),
    ("LedFollows", "++", "refused LedFollows cat ++"),
    ("NoBracket", "", "refused NoBracket Exp"),
    ("MixedLevel", "", "refused MixedLevel Exp 3"),
    ("SameFirst", "?Exp", "refused SameFirst Exp ?Exp"),
    ("ListEnd", "...", "refused ListEnd Items ..."),
    ("SameLed", "name", "refused SameLed Exp name"),
];

/// The fault of the condition for the first operator, phylum or list, at level 3 or with the token.
fn first_fault(alloc: Global, condition: &str, token: &str) -> Result<ClassFault, AllocError> {
    let token = String::from_str(alloc, token)?;
    match condition {
        "NoFirst" => Ok(ClassFault::NoFirst(0)),
        "Form" => Ok(ClassFault::Form(0)),
        "NoBracket" => Ok(ClassFault::NoBracket(0)),
        "MixedLevel" => Ok(ClassFault::MixedLevel(0, 3)),
        "SameFirst" => Ok(ClassFault::SameFirst(0, token)),
        "SameLed" => Ok(ClassFault::SameLed(0, token)),
        "LedFollows" => Ok(ClassFault::LedFollows(0, token)),
        "ListEnd" => Ok(ClassFault::ListEnd(0, token)),
        _ => Ok(ClassFault::Memory),
    }
}

/// Whether the number of the fault is that of a thing of the definition.
fn is_of(definition: &Definition, fault: &ClassFault) -> bool
    ensures { IsTrue result → IsOf definition.now fault.now }
{
    let operators = definition.operators.as_slice();
    let phyla = definition.phyla.as_slice();
    let lists = definition.lists.as_slice();
    match fault {
        ClassFault::NoFirst(n) => (*n as usize) < operators.len(),
        ClassFault::Form(n) => (*n as usize) < operators.len(),
        ClassFault::NoBracket(p) => (*p as usize) < phyla.len(),
        ClassFault::MixedLevel(p, _) => (*p as usize) < phyla.len(),
        ClassFault::SameFirst(p, _) => (*p as usize) < phyla.len(),
        ClassFault::SameLed(p, _) => (*p as usize) < phyla.len(),
        ClassFault::LedFollows(n, _) => (*n as usize) < operators.len(),
        ClassFault::ListEnd(l, _) => (*l as usize) < lists.len(),
        ClassFault::Memory => false,
    }
}

/// The text of a fault of the definition.
fn refusal(
    alloc: Global,
    definition: &Definition,
    fault: &ClassFault,
) -> Result<String, AllocError> {
    if is_of(definition, fault) {
        class_text(alloc, definition, fault)
    } else {
        Err(AllocError)
    }
}

/// What the check says of the definition that the text spells.
fn verdict(alloc: Global, text: &str) -> Result<String, AllocError> {
    let definition = definition(alloc, text)?;
    match class_check(alloc, &definition) {
        Ok(()) => String::from_str(alloc, "accepted"),
        Err(fault) => refusal(alloc, &definition, &fault),
    }
}

#[test]
fn sums_and_differences(rt: HostRuntime) -> Result<(), Fail> {
    for (brackets, level, word, expected) in SUMS {
        let text = format!(in rt.alloc();
            "psg 1\nsort Unit = ok\nphylum Exp : Unit{brackets}\nop ex : Exp = \"x\"\n\
            op plus : Exp infixl 4 = Exp \"+\" Exp\nop minus : Exp {level} = Exp \"{word}\" Exp\n"
        )?;
        let said = verdict(rt.alloc(), text.as_str())?;
        assert_eq!(rt; said.as_str(), *expected, "{text}");
    }
    Ok(())
}

#[test]
fn texts_of_refusals(rt: HostRuntime) -> Result<(), Fail> {
    let definition = definition(rt.alloc(), ONE_OF_EACH)?;
    for (condition, token, expected) in REFUSALS {
        let fault = first_fault(rt.alloc(), condition, token)?;
        let said = refusal(rt.alloc(), &definition, &fault)?;
        assert_eq!(rt; said.as_str(), *expected);
    }
    Ok(())
}
