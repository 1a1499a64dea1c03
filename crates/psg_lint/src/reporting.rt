//! All that is found in the bytes of a program file.
ghost use Rattle.std.specs.Prelude.{◌≡◌, ◌++◌, ◌∷◌, ◌↔◌, [], ℕ, Bool, IfOk, IsTrue, List, OnOk, Some, false};
ghost use Rattle.psg_grammar.specs.Kinds.{HasKind};
ghost use Rattle.psg_grammar.specs.Sizes.{HasLongList, IsBig};
ghost use Rattle.psg_grammar.specs.WellFormed.{WellFormed};
ghost use Rattle.psg_class.specs.Texts.{TextTokens};
ghost use Rattle.psg_lexis.specs.declared.token.LexFault.TheVariants as faults;
ghost use Rattle.psg_parse.specs.Answers.{IsFault, IsParsed};
ghost use Rattle.psg_program.specs.Messages as messages;
ghost use Rattle.psg_program.specs.Programs.{goal_of};
ghost use Rattle.psg_ranges.specs.Forests.{Forest, ranges_in};
ghost use Rattle.psg_specimen.specs.Languages.{IsDeclaringPhylum};
ghost use Rattle.psg_recover.specs.Grammars.{quiet};
ghost use Rattle.psg_recover.specs.Lost.{left_out as left_out_of};
ghost use Rattle.psg_recover.specs.Readers.{IsReadText};
ghost use Rattle.psg_recover.specs.Recovery.{HasStops};
ghost use Rattle.psg_recover.specs.TextPlaces.{IsRead};
ghost use Rattle.psg_recover.specs.declared.finding.Finding.{Finding as Told};
ghost use Rattle.psg_lint.specs.Linted.{IsLinting};
ghost use Rattle.psg_lint.specs.Reports.{AreJudged};
ghost use Rattle.psg_recover.specs.Findings as findings;
ghost use Rattle.psg_recover.specs.Findings.{AreInOrder};
ghost use Rattle.psg_lint.specs.Shown.{IsReportOf, IsTextReport};

use crate::judging::tell_program;
use crate::trials::Judged;
use psg_grammar::{Kind, MOST_ELEMENTS, MOST_NODES};
use psg_known::known::Known;
use psg_lexis::{LexFault, Spanned, lex};
use psg_parse::{Goal, ParseFault};
use psg_program::unmarked;
use psg_ranges::{Parsed, parse_ranged};
use psg_recover::candidates::Reader;
use psg_recover::finding::{Finding, Grade, plain_error};
use psg_recover::grammar::Grammar;
use psg_recover::lost::left_out;
use psg_recover::reading::own_tokens;
use psg_recover::recovery::{Stops, all_stops};
use psg_recover::spots::Spots;
use psg_specimen::Language;
use psg_terms::Steps;
use psg_tree::{Tree, longest_list, nodes};
use std::alloc::{AllocError, Global};
use std::cmp::Ordering;
use std::sync::ledger::Ledger;

/// A report: all that is found in the bytes of a program file.
#[derive(Debug, Drop)]
pub struct Report {
    /// What is found, by byte; of one byte errors are first, then warnings.
    pub found: Vec<Finding>,
    /// Whether more may follow: a hundred places are blamed.
    pub more: bool,
}

/// Returns a number that is smaller for what is reported first.
fn rank(grade: Grade) -> u8
    ensures { result ≡ findings.rank grade }
{
    match grade {
        Grade::Error => 0,
        Grade::Warning => 1,
        Grade::Note => 2,
    }
}

/// Compares by byte, and then by grade.
fn order(one: &Finding, other: &Finding) -> Ordering
    ensures { result ≡ findings.order one.now other.now }
{
    match one.byte.cmp(&other.byte) {
        Ordering::Less => Ordering::Less,
        Ordering::Equal => rank(one.grade).cmp(&rank(other.grade)),
        Ordering::Greater => Ordering::Greater,
    }
}

/// Returns the report of what is found, in order.
fn in_order(found: Vec<Finding>, more: bool) -> Result<Report, AllocError>
    ensures order { IfOk result (λ report. AreInOrder found.items report.found.items) }
    ensures more { IfOk result (λ report. report.more ≡ more) }
{
    let mut sorted = found;
    sorted.sort_by(|one, other| order(one, other))?;
    Ok(Report {
        found: sorted,
        more,
    })
}

/// Returns the report of one error with a message that is given.
fn one_error(alloc: Global, byte: usize, message: &str) -> Result<Report, AllocError>
    ensures found { IfOk result (λ report. report.found.items ≡ findings.error_at byte message.now ∷ []) }
    ensures more { IfOk result (λ report. report.more ≡ false) }
{
    let told = plain_error(alloc, byte, message)?;
    let mut found = Vec::new(alloc);
    found.push(told)?;
    Ok(Report { found, more: false })
}

/// Returns the report of a text that has no tokens.
fn no_tokens(alloc: Global, fault: LexFault) -> Result<Report, AllocError>
    ensures found { IfOk result (λ report. report.found.items
        ≡ findings.error_at (messages.byte_of fault) (messages.lexical_message fault) ∷ []) }
    ensures more { IfOk result (λ report. report.more ≡ false) }
    ensures real { IfOk result (λ _. fault ≡ faults.Memory → ⊥) }
{
    match fault {
        LexFault::BadChar(byte) => {
            let report = one_error(alloc, byte, "no token begins with this character")?;
            Ok(report)
        }
        LexFault::BadRun(byte) => {
            let report = one_error(alloc, byte, "this is no token of the language")?;
            Ok(report)
        }
        LexFault::Unended(byte) => {
            let report = one_error(alloc, byte, "the text is not closed on its line")?;
            Ok(report)
        }
        LexFault::TooLarge(byte) => {
            let report = one_error(alloc, byte, "the token is too long")?;
            Ok(report)
        }
        LexFault::Memory => Err(AllocError),
    }
}

/// What reads and judges a text.
#[derive(Clone, Copy)]
pub(crate) struct Linting<'a> {
    pub(crate) language: &'a Language,
    pub(crate) reader: Reader<'a>,
    pub(crate) text: &'a str,
}

/// Says whether a list of the tree has too many elements.
#[tactic(auto, using(psg_cache::proofs::LongLists::long_lists))]
fn has_long_list(tree: &Tree) -> bool
    ensures { IsTrue result ↔ HasLongList tree.now }
{
    longest_list(tree) > MOST_ELEMENTS
}

/// Says whether the tree has too many nodes, or a list of it too many elements.
fn is_big(tree: &Tree) -> bool
    ensures { IsTrue result ↔ IsBig tree.now }
{
    if nodes(tree) > MOST_NODES {
        return true;
    }
    has_long_list(tree)
}

/// Adds an error of the whole text.
fn add_error(alloc: Global, message: &str, found: &mut Vec<Finding>) -> Result<(), AllocError>
    ensures { OnOk result (found.new.items ≡ found.old.items ++ findings.error_at 0 message.now ∷ []) }
{
    let told = plain_error(alloc, 0, message)?;
    found.push(told)?;
    Ok(())
}

/// Adds what is found in what is left of the tree that was read, and says whether more may follow.
fn tell_left<L: Ledger>(
    alloc: Global,
    linting: Linting,
    tokens: &[Spanned],
    parsed: &Parsed,
    tree: &Tree,
    found: &mut Vec<Finding>,
    steps: &mut Steps<L>,
) -> Result<bool, AllocError>
    requires linting { IsLinting linting }
    requires parsed { IsParsed (quiet linting.language.now) (goal_of linting.reader.kind) tokens.now parsed.now.tree }
    requires read { (nodes : Forest) × IsRead linting.language.now linting.reader.kind tokens.now parsed.now.tree nodes
        × (ranges_in nodes ≡ parsed.now.ranges.nodes) }
    requires tree { tree.now ≡ left_out_of linting.language.now parsed.now.tree }
    requires formed { WellFormed linting.language.now tree.now linting.reader.kind }
    requires small { IsBig tree.now → ⊥ }
    ensures { IfOk result (λ more. (told : List Told) × (limited : Bool) × (found.new.items ≡ found.old.items ++ told)
        × AreJudged linting.entry.language.now linting.entry.reader.kind linting.entry.text.now
        (findings.has_error found.old.items) tokens.now limited told more) }
{
    let known = linting.reader.known;
    let judged = Judged {
        definition: known.definition,
        tables: &linting.language.parts().tables,
        text: linting.text,
        tree,
        spots: Spots {
            tokens,
            ranges: &parsed.ranges,
            whole: &parsed.tree,
            known,
        },
    };
    let more = tell_program(alloc, judged, found, steps)?;
    Ok(more)
}

/// Adds what is found in the tree that was read, and says whether more may follow.
fn tell_parsed<L: Ledger>(
    alloc: Global,
    linting: Linting,
    tokens: &[Spanned],
    parsed: &Parsed,
    found: &mut Vec<Finding>,
    steps: &mut Steps<L>,
) -> Result<bool, AllocError>
    requires linting { IsLinting linting }
    requires parsed { IsParsed (quiet linting.language.now) (goal_of linting.reader.kind) tokens.now parsed.now.tree }
    requires read { (nodes : Forest) × IsRead linting.language.now linting.reader.kind tokens.now parsed.now.tree nodes
        × (ranges_in nodes ≡ parsed.now.ranges.nodes) }
    requires formed { WellFormed linting.language.now (left_out_of linting.language.now parsed.now.tree)
        linting.reader.kind }
    ensures { IfOk result (λ more. (told : List Told) × (limited : Bool) × (found.new.items ≡ found.old.items ++ told)
        × AreJudged linting.entry.language.now linting.entry.reader.kind linting.entry.text.now
        (findings.has_error found.old.items) tokens.now limited told more) }
{
    let tree = left_out(alloc, linting.reader.known, &parsed.tree)?;
    let big = is_big(&tree);
    if big {
        add_error(alloc, "the program is too large", found)?;
        return Ok(false);
    }
    let more = tell_left(alloc, linting, tokens, parsed, &tree, found, steps)?;
    Ok(more)
}

/// Returns what all tokens are read as.
fn goal(reader: Reader) -> Goal
    ensures { result ≡ goal_of reader.entry.kind }
{
    Goal {
        kind: reader.kind,
        least: 0,
        around: 0,
    }
}

/// Adds what is reported about tokens that were not read: that they are too deep.
fn tell_unread(
    alloc: Global,
    linting: Linting,
    tokens: &[Spanned],
    fault: ParseFault,
    found: &mut Vec<Finding>,
) -> Result<(), AllocError>
    requires linting { IsLinting linting }
    requires last { (stops : List Told) × HasStops linting.language.now linting.reader.kind linting.text.now stops
        (Some tokens.now) }
    requires fault { IsFault (quiet linting.language.now) (goal_of linting.reader.kind) tokens.now fault }
    ensures { OnOk result ((told : List Told) × (found.new.items ≡ found.old.items ++ told)
        × AreJudged linting.entry.language.now linting.entry.reader.kind linting.entry.text.now
        (findings.has_error found.old.items) tokens.now false told false) }
{
    match fault {
        ParseFault::Deep => {
            add_error(alloc, "the program is too deep", found)?;
            Ok(())
        }
        ParseFault::NoTree => unreachable!(),
        ParseFault::Memory => Err(AllocError),
    }
}

/// Adds what is found in the program that the tokens are, and says whether more may follow.
fn tell_tokens<L: Ledger>(
    alloc: Global,
    linting: Linting,
    tokens: &[Spanned],
    found: &mut Vec<Finding>,
    steps: &mut Steps<L>,
) -> Result<bool, AllocError>
    requires linting { IsLinting linting }
    requires last { (stops : List Told) × HasStops linting.language.now linting.reader.kind linting.text.now stops
        (Some tokens.now) }
    ensures { IfOk result (λ more. (told : List Told) × (limited : Bool) × (found.new.items ≡ found.old.items ++ told)
        × AreJudged linting.entry.language.now linting.entry.reader.kind linting.entry.text.now
        (findings.has_error found.old.items) tokens.now limited told more) }
{
    let grammar = linting.reader.grammar;
    let own = goal(linting.reader);
    match parse_ranged(
        alloc,
        &grammar.definition,
        &grammar.table,
        own,
        tokens,
        steps,
    ) {
        Ok(parsed) => {
            let more = tell_parsed(alloc, linting, tokens, &parsed, found, steps)?;
            Ok(more)
        }
        Err(fault) => {
            tell_unread(alloc, linting, tokens, fault, found)?;
            Ok(false)
        }
    }
}

/// Finds all in the tokens of the text.
fn lint_tokens<L: Ledger>(
    alloc: Global,
    linting: Linting,
    tokens: Vec<Spanned>,
    steps: &mut Steps<L>,
) -> Result<Report, AllocError>
    requires linting { IsLinting linting }
    requires tokens { IsReadText linting.language.now linting.text.now tokens.items }
    ensures { IfOk result (IsTextReport linting.entry.language.now linting.entry.reader.kind linting.entry.text.now) }
{
    let stops = all_stops(alloc, linting.reader, linting.text, tokens)?;
    let Stops { told, last } = stops;
    let mut found = told;
    match last {
        Some(row) => {
            let more = tell_tokens(alloc, linting, row.as_slice(), &mut found, steps)?;
            let made = in_order(found, more)?;
            Ok(made)
        }
        None => {
            let made = in_order(found, false)?;
            Ok(made)
        }
    }
}

/// Finds all in the text, which has these tokens.
fn lint_read<'a, L: Ledger>(
    alloc: Global,
    language: &'a Language,
    kind: Kind,
    text: &'a str,
    tokens: &[Spanned],
    steps: &mut Steps<L>,
) -> Result<Report, AllocError>
    requires kind { HasKind language.now kind }
    requires quiet_kind { IsDeclaringPhylum language.now kind → ⊥ }
    requires tokens { TextTokens language.now text.now tokens.now }
    ensures { IfOk result (IsTextReport language.now kind text.now) }
{
    let known = Known {
        definition: language.definition(),
        spaces: language.parts().tables.spaces(),
    };
    let grammar = Grammar::of(alloc, known.definition)?;
    let own = own_tokens(alloc, known, tokens)?;
    let reader = Reader {
        known,
        grammar: &grammar,
        kind,
    };
    let linting = Linting {
        language,
        reader,
        text,
    };
    let made = lint_tokens(alloc, linting, own, steps)?;
    Ok(made)
}

/// Finds all in the text.
fn lint_text<L: Ledger>(
    alloc: Global,
    language: &Language,
    kind: Kind,
    text: &str,
    steps: &mut Steps<L>,
) -> Result<Report, AllocError>
    requires kind { HasKind language.now kind }
    requires quiet_kind { IsDeclaringPhylum language.now kind → ⊥ }
    ensures { IfOk result (IsTextReport language.now kind text.now) }
{
    match lex(alloc, language.lexis(), text) {
        Ok(tokens) => {
            let made = lint_read(alloc, language, kind, text, tokens.as_slice(), steps)?;
            Ok(made)
        }
        Err(fault) => {
            let made = no_tokens(alloc, fault)?;
            Ok(made)
        }
    }
}

/// Finds all that is to be told of the bytes of a file that is to be a program of the kind: where they are no text,
/// where they stop to be a program, which values can't be, which names nothing declares, and where nothing is wrong,
/// what is still open. It fails where memory runs out.
pub fn lint<L: Ledger>(
    alloc: Global,
    language: &Language,
    kind: Kind,
    bytes: &[u8],
    steps: &mut Steps<L>,
) -> Result<Report, AllocError>
    requires kind { HasKind language.now kind }
    requires quiet_kind { IsDeclaringPhylum language.now kind → ⊥ }
    ensures { IfOk result (IsReportOf language.now kind bytes.now) }
{
    let own = unmarked(bytes);
    match str::from_utf8(own) {
        Ok(text) => {
            let made = lint_text(alloc, language, kind, text, steps)?;
            Ok(made)
        }
        Err(fault) => {
            let count = fault.valid_up_to();
            let made = one_error(alloc, count, "this is no UTF-8")?;
            Ok(made)
        }
    }
}
