//! Which definitions are of the grammar class, and why the others are not.
ghost use Rattle.std.specs.Prelude.{◌≡◌, ◌⊎◌, IsTrue, ◌↔◌};
ghost use Rattle.psg_grammar.specs.Sound.{IsSound};
ghost use Rattle.psg_class.specs.Checks.{Refuses};
ghost use Rattle.psg_class.specs.declared.fault.ClassFault.TheVariants.{Memory};

use super::languages::definition;
use psg_class::{ClassFault, class_check, class_text};
use psg_grammar::Definition;
use psg_langs::{CONSTS, LEVELS, MINI};
use std::alloc::{AllocError, Global};
use std::process::Abort;
use std::test::Fail;

fn is_memory(fault: &ClassFault) -> bool
    ensures { IsTrue result ↔ (fault.now ≡ Memory) }
{
    matches!(fault, ClassFault::Memory)
}

fn refusal(alloc: Global, definition: &Definition, fault: &ClassFault) -> Result<String, AllocError>
    requires { Refuses definition.now fault.now }
{
    if is_memory(fault) {
        return Err(AllocError);
    }
    class_text(alloc, definition, fault)
}

/// What the check says of the definition that the text spells.
fn verdict(alloc: Global, text: &str) -> Result<String, AllocError> {
    let definition = definition(alloc, text)?;
    match class_check(alloc, &definition) {
        Ok(()) => String::from_str(alloc, "accepted"),
        Err(fault) => refusal(alloc, &definition, &fault),
    }
}

/// Judges each of the languages: these lines, one sort, the phyla `P`, which has brackets or not, `Q` and `R`, and the
/// lists `L` of `P` and `M` of `R`, which are unfinished or not.
fn judges(
    rt: &impl Abort,
    alloc: Global,
    brackets: &str,
    ends: &str,
    rows: &[(&str, &str)],
) -> Result<(), Fail> {
    for (lines, expected) in rows {
        let text = format!(in alloc;
            "psg 1\nsort S = s\nphylum P : S{brackets}\nphylum Q : S\nphylum R : S\n\
            list L : S of P \";\" inline {ends}\nlist M : S of R \",\" inline {ends}\n{lines}"
        )?;
        let said = verdict(alloc, text.as_str())?;
        assert!(rt; said.as_str() == *expected, "{lines}");
    }
    Ok(())
}

#[test]
fn whole_languages(rt: HostRuntime) -> Result<(), Fail> {
    for text in [CONSTS, LEVELS, MINI] {
        let said = verdict(rt.alloc(), text)?;
        assert_eq!(rt; said.as_str(), "accepted", "{text}");
    }
    Ok(())
}

#[test]
fn beginnings(rt: HostRuntime) -> Result<(), Fail> {
    let rows = [
        ("op u : P = Q\n", "refused NoFirst u"),
        ("op u : P = P\n", "refused NoFirst u"),
        ("op u : P = L \"x\"\n", "refused NoFirst u"),
        ("op u : P = space line\n", "refused NoFirst u"),
        ("op x : P = \"x\"\nop v : P = \"y\" P\n", "refused Form v"),
        (
            "op x : P = \"x\"\nop v : P infixl 3 = P \"+\"\n",
            "refused Form v",
        ),
        (
            "op n : P = number\nop d : P = number \".\"\n",
            "refused SameFirst P number",
        ),
        (
            "op z : P = \"z\"\nop d : P = \"z\" \".\"\n",
            "refused SameFirst P z",
        ),
    ];
    judges(&rt, rt.alloc(), "", "fixed", &rows)
}

#[test]
fn levels_without_brackets(rt: HostRuntime) -> Result<(), Fail> {
    let rows = [
        (
            "op x : P = \"x\"\nop plus : P infixl 4 = P \"+\" P\n",
            "refused NoBracket P",
        ),
        (
            "op x : P = \"x\"\nop minus : P prefix 5 = \"-\" P\nop fac : P postfix 3 = P \"!\"\n",
            "refused NoBracket P",
        ),
    ];
    judges(&rt, rt.alloc(), "", "fixed", &rows)
}

#[test]
fn levels_with_brackets(rt: HostRuntime) -> Result<(), Fail> {
    let rows = [
        (
            "op x : P = \"x\"\nop a : P infixl 4 = P \"+\" P\nop b : P infixr 4 = P \"&\" P\n\
            op c : P infixl 2 = P \"=\" P\nop d : P infix 2 = P \"<\" P\n",
            "refused MixedLevel P 2",
        ),
        ("op o : P = \"(\" \"y\" \")\"\n", "refused SameFirst P ("),
        (
            "op x : P = \"x\"\nop plus : P infixl 4 = P \"+\" P\nop up : P postfix 5 = P \"+\"\n",
            "refused SameLed P +",
        ),
        (
            "op x : P = \"x\"\nop plus : P infixl 4 = P \"+\" P\nop o : P = \"b\" P \"+\"\n",
            "refused LedFollows plus +",
        ),
        (
            "op x : P = \"x\"\nop plus : P infixl 4 = P \"+\" P\nop w : Q = \"w\" P\nop p : Q postfix 3 = Q \"+\"\n",
            "refused LedFollows plus +",
        ),
    ];
    judges(&rt, rt.alloc(), " bracketed", "fixed", &rows)
}

#[test]
fn what_follows_lists(rt: HostRuntime) -> Result<(), Fail> {
    let rows = [
        (
            "op x : P = \"x\"\nop v : Q = \"y\" L \";\"\n",
            "refused ListEnd L ;",
        ),
        (
            "op n : P = number\nop o : Q = \"b\" L P\n",
            "refused ListEnd L number",
        ),
        ("op o : Q = \"b\" L P\n", "refused ListEnd L ?P"),
        (
            "op x : P = \"x\"\nop y : R = \"y\"\nop o : Q = \"b\" L M\n",
            "accepted",
        ),
    ];
    judges(&rt, rt.alloc(), "", "fixed", &rows)
}

#[test]
fn what_follows_unfinished_lists(rt: HostRuntime) -> Result<(), Fail> {
    let rows = [(
        "op x : P = \"x\"\nop y : R = \"y\"\nop o : Q = \"b\" L M\n",
        "refused ListEnd L ...",
    )];
    judges(&rt, rt.alloc(), "", "unfinished", &rows)
}

#[test]
fn accepted_neighbours(rt: HostRuntime) -> Result<(), Fail> {
    let rows = [
        ("op u : P = \"q\" Q\n", "accepted"),
        ("op u : P = \"y\" L \"x\"\n", "accepted"),
        ("op u : P = space \"x\" line\n", "accepted"),
        ("op x : P = \"x\"\nop v : P = \"y\" P \"z\"\n", "accepted"),
        ("op n : P = number\nop d : P = \".\" number\n", "accepted"),
        ("op z : P = \"z\"\nop d : P = \".\" \"z\"\n", "accepted"),
        ("op x : P = \"x\"\nop v : Q = \"y\" L \".\"\n", "accepted"),
        (
            "op n : P = number\nop y : R = \"y\"\nop o : Q = \"b\" L R\n",
            "accepted",
        ),
    ];
    judges(&rt, rt.alloc(), "", "fixed", &rows)
}

#[test]
fn accepted_neighbours_with_brackets(rt: HostRuntime) -> Result<(), Fail> {
    let rows = [
        (
            "op x : P = \"x\"\nop v : P prefix 3 = \"y\" P\n",
            "accepted",
        ),
        (
            "op x : P = \"x\"\nop plus : P infixl 3 = P \"+\" P\n",
            "accepted",
        ),
        (
            "op x : P = \"x\"\nop minus : P prefix 5 = \"-\" P\nop fac : P postfix 3 = P \"!\"\n",
            "accepted",
        ),
        (
            "op x : P = \"x\"\nop c : P infixl 2 = P \"=\" P\nop d : P infix 3 = P \"<\" P\n",
            "accepted",
        ),
        ("op o : P = \"[\" \"y\" \"]\"\n", "accepted"),
        (
            "op x : P = \"x\"\nop plus : P infixl 4 = P \"+\" P\nop up : P postfix 5 = P \"!\"\n",
            "accepted",
        ),
        (
            "op x : P = \"x\"\nop plus : P infixl 4 = P \"+\" P\nop o : P = \"b\" P \"end\"\n",
            "accepted",
        ),
    ];
    judges(&rt, rt.alloc(), " bracketed", "fixed", &rows)
}

/// The language, one of whose operators has another form.
const MIXED: &str = "psg 1
sort Type = int bool
phylum Exp : Type bracketed
op tru : Exp = \"true\"
op not : Exp prefix 6 = \"not\" Exp
op plus : Exp infixl 4 = Exp \"+\" Exp
op cat : Exp infixl 3 = Exp \"&\" Exp
op eq : Exp infix 3 = Exp \"=\" Exp
";

#[test]
fn two_forms_at_one_level(rt: HostRuntime) -> Result<(), Fail> {
    let said = verdict(rt.alloc(), MIXED)?;
    assert_eq!(rt; said.as_str(), "refused MixedLevel Exp 3");
    Ok(())
}
