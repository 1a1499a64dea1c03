//! Questions about a program that is right, and about one that is wrong.
ghost use Rattle.std.specs.Prelude.{◌≡◌, ◌<◌, option_copied};
ghost use Rattle.psg_asking.specs.Asked.{IsKnown};

use super::{RIGHT, WRONG, first_kind, mini, note_of, path_text, repair_if, spot_of, tree_of};
use psg_asking::{
    Done, Known, Program, asked_at, menu_at, names_at, relation_at, reply_to, text_due, tried,
};
use psg_keymap::{Due, Spot};
use psg_script::{Command, Where};
use psg_session::{Refusal, Reply, reply_lines};
use psg_specimen::Language;
use psg_terms::{Steps, Txt};
use psg_tree::Path;
use psg_unparse::{Printed, unparse};
use psg_world::MemFiles;
use std::alloc::{AllocError, Global};
use std::marker::Brand;
use std::process::Abort;
use std::sync::ledger::{Blank, Ledger};
use std::test::Fail;

/// A question.
#[derive(Clone, Copy)]
enum Ask {
    Where,
    Menu,
    Names,
    Relation,
    Text,
    Tried,
    Reply,
}

/// A program, a spot, a question, and its words.
#[derive(Drop)]
struct Case {
    program: String,
    spot: Spot,
    ask: Ask,
    word: String,
    args: String,
}

/// Writes the texts, a bar after each, or the number of the refusal; `-` where no program is asked.
fn read_text(
    alloc: Global,
    read: Option<Result<Vec<String>, Refusal>>,
) -> Result<String, AllocError> {
    let mut text = String::new(alloc);
    match read {
        Some(Ok(words)) => {
            for word in words.as_slice() {
                text.push_str(word.as_str())?;
                text.push('|')?;
            }
        }
        Some(Err(refusal)) => write!(&mut text, "refused {}", refusal.number())?,
        None => text.push('-')?,
    }
    Ok(text)
}

/// Writes what a command says.
fn push_command(text: &mut String, command: &Command) -> Result<(), AllocError> {
    match command {
        Command::Over { text: words, .. } => {
            text.push_str("over ")?;
            text.push_str(words.as_str())?;
            Ok(())
        }
        Command::Range {
            start,
            end,
            text: words,
        } => {
            write!(text, "range {start} {end} ")?;
            text.push_str(words.as_str())?;
            Ok(())
        }
        _ => Ok(()),
    }
}

/// Writes the command, and the path of what it puts after ` > `; `-` where there is none.
fn due_read(alloc: Global, due: &Option<Due>) -> Result<String, AllocError> {
    let Some(due) = due else {
        return String::from_str(alloc, "-");
    };
    let mut text = String::new(alloc);
    push_command(&mut text, &due.command)?;
    if let Some(grown) = &due.grown {
        text.push_str(" > ")?;
        text.push_str(path_text(alloc, grown)?.as_str())?;
    }
    Ok(text)
}

/// Writes the command, and the path of what it puts after ` > `; `-` where there is none.
fn due_text(alloc: Global, due: Option<Due>) -> Result<String, AllocError> {
    let text = due_read(alloc, &due);
    drop(due);
    text
}

/// Writes the lines of the reply.
fn lines_text(alloc: Global, reply: Reply) -> Result<String, AllocError> {
    let text = reply_lines(alloc, &reply);
    drop(reply);
    text
}

/// Returns files of which there are none.
fn no_files(alloc: Global) -> MemFiles {
    MemFiles::new(alloc, Vec::new(alloc), Vec::new(alloc))
}

/// Writes the spot of the program that is asked, and that program.
fn asked_text(alloc: Global, known: Known, spot: &Spot) -> Result<String, AllocError>
    requires { IsKnown known.program.language.now known.program.kind known.program.note.now known.wrong
        (option_copied known.repair) }
{
    let Some(asked) = asked_at(alloc, known, spot)? else {
        return String::from_str(alloc, "-");
    };
    let mut text = path_text(alloc, &asked.spot.target)?;
    let printed = unparse(
        alloc,
        known.program.language.definition(),
        asked.note.tree(),
    )?;
    text.push(' ')?;
    text.push_str(printed.text.as_str())?;
    Ok(text)
}

/// Returns the operators that fit.
fn menu_told<L: Ledger>(
    alloc: Global,
    known: Known,
    spot: &Spot,
    steps: &mut Steps<L>,
) -> Result<String, AllocError>
    requires { IsKnown known.program.language.now known.program.kind known.program.note.now known.wrong
        (option_copied known.repair) }
{
    let mut files = no_files(alloc);
    let read = menu_at(alloc, known, spot, &mut files, steps)?;
    read_text(alloc, read)
}

/// Returns the names that fit the operator.
fn names_told<L: Ledger>(
    alloc: Global,
    known: Known,
    spot: &Spot,
    op: &str,
    steps: &mut Steps<L>,
) -> Result<String, AllocError>
    requires { IsKnown known.program.language.now known.program.kind known.program.note.now known.wrong
        (option_copied known.repair) }
{
    let op = Txt::copy_of(alloc, op)?;
    let mut files = no_files(alloc);
    let read = names_at(alloc, known, spot, op, &mut files, steps)?;
    read_text(alloc, read)
}

/// Returns the relation.
fn relation_told<L: Ledger>(
    alloc: Global,
    known: Known,
    spot: &Spot,
    steps: &mut Steps<L>,
) -> Result<String, AllocError>
    requires { IsKnown known.program.language.now known.program.kind known.program.note.now known.wrong
        (option_copied known.repair) }
{
    let mut files = no_files(alloc);
    let read = relation_at(alloc, known, spot, &mut files, steps)?;
    read_text(alloc, read)
}

/// Prints the program.
fn printed_of(alloc: Global, known: Known) -> Result<Printed, AllocError> {
    let definition = known.program.language.definition();
    let printed = unparse(alloc, definition, known.program.note.tree())?;
    Ok(printed)
}

/// Returns the command that puts the operator.
fn text_told<L: Ledger>(
    alloc: Global,
    known: Known,
    spot: &Spot,
    op: &str,
    args: &str,
    steps: &mut Steps<L>,
) -> Result<String, AllocError>
    requires { IsKnown known.program.language.now known.program.kind known.program.note.now known.wrong
        (option_copied known.repair) }
{
    let args = Txt::copy_of(alloc, args)?;
    let printed = printed_of(alloc, known)?;
    let mut files = no_files(alloc);
    let due = text_due(alloc, known, &printed, spot, op, args, &mut files, steps)?;
    due_text(alloc, due)
}

/// Returns the reply to the text that is typed there.
fn tried_told<L: Ledger>(
    alloc: Global,
    known: Known,
    spot: &Spot,
    text: &str,
    steps: &mut Steps<L>,
) -> Result<String, AllocError>
    requires { IsKnown known.program.language.now known.program.kind known.program.note.now known.wrong
        (option_copied known.repair) }
{
    let text = Txt::copy_of(alloc, text)?;
    let at = place_of(alloc, spot)?;
    let command = Command::Over { at, text };
    let mut files = no_files(alloc);
    let made = tried(alloc, known.program, &command, &mut files, steps);
    drop(command);
    let Done { reply, .. } = made?;
    lines_text(alloc, reply)
}

/// Returns the reply to the question of the relation, as it is.
fn reply_told<L: Ledger>(
    alloc: Global,
    known: Known,
    spot: &Spot,
    steps: &mut Steps<L>,
) -> Result<String, AllocError>
    requires { IsKnown known.program.language.now known.program.kind known.program.note.now known.wrong
        (option_copied known.repair) }
{
    let at = place_of(alloc, spot)?;
    let command = Command::Relation { at };
    let mut files = no_files(alloc);
    let reply = reply_to(alloc, known.program, &command, &mut files, steps);
    drop(command);
    let reply = reply?;
    lines_text(alloc, reply)
}

/// Returns what is answered.
fn told<L: Ledger>(
    alloc: Global,
    known: Known,
    case: &Case,
    steps: &mut Steps<L>,
) -> Result<String, AllocError>
    requires { IsKnown known.program.language.now known.program.kind known.program.note.now known.wrong
        (option_copied known.repair) }
{
    let spot = &case.spot;
    let word = case.word.as_str();
    match case.ask {
        Ask::Where => asked_text(alloc, known, spot),
        Ask::Menu => menu_told(alloc, known, spot, steps),
        Ask::Names => names_told(alloc, known, spot, word, steps),
        Ask::Relation => relation_told(alloc, known, spot, steps),
        Ask::Text => text_told(alloc, known, spot, word, case.args.as_str(), steps),
        Ask::Tried => tried_told(alloc, known, spot, word, steps),
        Ask::Reply => reply_told(alloc, known, spot, steps),
    }
}

/// Returns the place of the spot.
fn place_of(alloc: Global, spot: &Spot) -> Result<Where, AllocError> {
    let path = Path::of(alloc, spot.target.steps())?;
    Ok(Where::At(path))
}

/// Asks about the program that the text spells.
fn asked<L: Ledger>(
    alloc: Global,
    language: &Language,
    case: &Case,
    ledger: Blank,
) -> Result<String, AllocError>
    requires name { ledger.name ≡ L.name }
    requires parts { ledger.parts ≡ L.parts }
    requires some { 0 < L.parts }
{
    let mut steps = Steps::<L>::of(ledger);
    let kind = first_kind(language)?;
    let tree = tree_of(alloc, language, kind, case.program.as_str(), &mut steps)?;
    let note = note_of(alloc, language, kind, &tree, &mut steps)?;
    let good = note.is_good();
    let wrong = !good;
    let repair = repair_if(alloc, language, kind, wrong, &tree, &mut steps)?;
    let program = Program {
        language,
        kind,
        note: &note,
    };
    let known = Known {
        program,
        wrong,
        repair: repair.as_ref(),
    };
    told(alloc, known, case, &mut steps)
}

/// Asks about the program that the text spells.
fn asked_in(alloc: Global, language: &Language, case: &Case) -> Result<String, AllocError> {
    asked::<Brand>(alloc, language, case, Blank::new(1))
}

/// Returns the case of the row.
fn case_of(alloc: Global, row: &Row) -> Result<Case, AllocError> {
    let spot = spot_of(alloc, row.1, row.2)?;
    let program = String::from_str(alloc, row.0)?;
    let word = String::from_str(alloc, row.4)?;
    let args = String::from_str(alloc, row.5)?;
    Ok(Case {
        program,
        spot,
        ask: row.3,
        word,
        args,
    })
}

/// A program of which the name `n` does not fit in the first assignment.
const NAMED: &str = "begin\n  var n : int;\n  var found : bool\ndo\n  found := n;\n\
  \x20 while ?Exp do\n    skip\n  od\nend";

/// A program in which a number is compared.
const EQUAL: &str = "begin\n  var n : bool\ndo\n  n := ?Exp = 1\nend";

/// A program, a path, a place of the list there, a question, its words, and the answer.
type Row = (
    &'static str,
    &'static str,
    Option<u32>,
    Ask,
    &'static str,
    &'static str,
    &'static str,
);

const ROWS: &[Row] = &[
    (
        RIGHT,
        "/1/1/0",
        None,
        Ask::Where,
        "",
        "",
        "/1/1/0 begin\n  var n : bool\ndo\n  n := true;\n  n := ?Exp\nend",
    ),
    (
        WRONG,
        "/1/1/0",
        None,
        Ask::Where,
        "",
        "",
        "/1/1/0 begin\n  var n : bool\ndo\n  n := true;\n  n := ?Exp\nend",
    ),
    // below what is wrong there is nothing
    (WRONG, "/1/1/0/0", None, Ask::Where, "", "", "-"),
    // a value of `bool` is wanted
    (
        RIGHT,
        "/1/1/0",
        None,
        Ask::Menu,
        "",
        "",
        "ref|tru|not|cat|eq|idx|",
    ),
    (
        WRONG,
        "/1/1/0",
        None,
        Ask::Menu,
        "",
        "",
        "ref|tru|not|cat|eq|idx|",
    ),
    (WRONG, "/1/1/0/0", None, Ask::Menu, "", "", "-"),
    // it is no placeholder
    (RIGHT, "/1/0", None, Ask::Menu, "", "", "refused 3"),
    (
        WRONG,
        "/1",
        Some(1),
        Ask::Menu,
        "",
        "",
        "block|assign|call|while|skip|",
    ),
    (RIGHT, "/1/1/0", None, Ask::Names, "ref", "", "n|"),
    (WRONG, "/1/1/0", None, Ask::Names, "ref", "", "n|"),
    (WRONG, "/1/1/0/0", None, Ask::Names, "ref", "", "-"),
    // its repaired program has a new name besides, in place of `n`
    (NAMED, "/1/1/0", None, Ask::Names, "ref", "", "found|"),
    // a number is wanted, and no name is one
    (EQUAL, "/1/0/0/0", None, Ask::Names, "ref", "", ""),
    (RIGHT, "/1/1/0", None, Ask::Relation, "", "", "bool|"),
    (WRONG, "/1/1/0", None, Ask::Relation, "", "", "bool|"),
    (WRONG, "/1/1/0/1", None, Ask::Relation, "", "", "-"),
    (
        WRONG,
        "/1/1/0",
        None,
        Ask::Text,
        "tru",
        "",
        "over true > /1/1/0",
    ),
    (
        WRONG,
        "/1/1/0",
        None,
        Ask::Text,
        "not",
        "",
        "over not ?Exp > /1/1/0",
    ),
    (
        WRONG,
        "/1/1/0",
        None,
        Ask::Text,
        "ref",
        "n",
        "over n > /1/1/0",
    ),
    // the repaired program refuses it
    (WRONG, "/1/1/0", None, Ask::Text, "num", "1", "-"),
    (WRONG, "/1/1/0/0", None, Ask::Text, "tru", "", "-"),
    // the last statement ends at byte 49
    (
        WRONG,
        "/1",
        Some(2),
        Ask::Text,
        "skip",
        "",
        "range 49 49  ; skip > /1/2",
    ),
    (
        WRONG,
        "/1",
        Some(0),
        Ask::Text,
        "skip",
        "",
        "range 26 26 skip ;  > /1/0",
    ),
    (RIGHT, "/1/1/0", None, Ask::Tried, "true", "", "ok\n"),
    // each statement is right by itself: the list of both is not
    (RIGHT, "/1/1/0", None, Ask::Tried, "1", "", "wrong /1\n"),
    (RIGHT, "/1/1/0", None, Ask::Reply, "", "", "bool\n"),
    (WRONG, "/1/1/0", None, Ask::Reply, "", "", "none\n"),
];

#[test]
fn questions_are_told(rt: HostRuntime) -> Result<(), Fail> {
    let alloc = rt.alloc();
    let language = mini(alloc)?;
    for row in ROWS {
        let case = case_of(alloc, row)?;
        let told = asked_in(alloc, &language, &case)?;
        assert_eq!(&rt; told.as_str(), row.6);
    }
    Ok(())
}
