//! The stops of a text, and the tokens that are read at last.
ghost use Rattle.std.specs.Prelude.{◌≡◌, ◌++◌, ◌∷◌, [], IfOk, OnOk, length};
ghost use Rattle.psg_class.specs.Texts.{tokens_of};
ghost use Rattle.psg_parse.specs.Stops.{MayEnd};
ghost use Rattle.psg_recover.specs.declared.finding.Finding.{Finding as PlainFinding};
ghost use Rattle.psg_recover.specs.Candidates.{is_lost_wanted, own_wanted};
ghost use Rattle.psg_recover.specs.Grammars.{quiet};
ghost use Rattle.psg_known.specs.Knowns.{IsKnown};
ghost use Rattle.psg_recover.specs.Readers.{IsReadText, IsReader, stops_last, tokens_in};
ghost use Rattle.psg_recover.specs.Recovery.{AreStops, IsStopTold};
ghost use Rattle.psg_recover.specs.Rows.{IsPassed, IsRow};

use crate::candidates::{Reader, replaced, resumed, whole};
use crate::finding::{Finding, error};
use crate::reading::is_declaring;
use psg_known::known::Known;
use psg_lexis::Spanned;
use psg_program::{expected_words, stop_byte, stop_message};
use psg_stop::{Stop, Wanted, find_stop};
use std::alloc::{AllocError, Global};

/// How many stops are reported at most.
const MOST_STOPS: usize = 20;

/// Says whether it is the placeholder of a phylum that declares.
fn is_lost(known: Known, wanted: &Wanted) -> bool
    requires known { IsKnown known }
    ensures { result ≡ is_lost_wanted known.entry.definition.now wanted.now }
{
    match wanted {
        Wanted::Hole(name) => is_declaring(known, name),
        _ => false,
    }
}

/// Adds what may be next, if the language has it.
fn push_own(known: Known, one: Wanted, wanted: &mut Vec<Wanted>) -> Result<(), AllocError>
    requires known { IsKnown known }
    ensures { OnOk result (wanted.new.items ≡ wanted.old.items ++ own_wanted known.entry.definition.now (one ∷ [])) }
{
    if is_lost(known, &one) {
        return Ok(());
    }
    wanted.push(one)?;
    Ok(())
}

/// Returns what may be next without the placeholders that the language does not have.
fn own_only(alloc: Global, known: Known, all: Vec<Wanted>) -> Result<Vec<Wanted>, AllocError>
    requires known { IsKnown known }
    ensures { IfOk result (λ made. made.items ≡ own_wanted known.entry.definition.now all.items) }
{
    let mut wanted = Vec::new(alloc);
    for one in all {
        push_own(known, one, &mut wanted)?;
    }
    Ok(wanted)
}

/// Returns the stop without the placeholders that the language does not have.
fn without_lost(alloc: Global, reader: Reader, stop: Stop) -> Result<Stop, AllocError>
    requires reader { IsReader reader }
    ensures tokens { IfOk result (λ made. made.tokens ≡ stop.tokens) }
    ensures ends { IfOk result (λ made. made.may_end ≡ stop.may_end) }
    ensures wanted { IfOk result (λ made. made.wanted.items
        ≡ own_wanted reader.entry.known.definition.now stop.wanted.items) }
{
    let tokens = stop.tokens;
    let may_end = stop.may_end;
    let wanted = own_only(alloc, reader.known, stop.wanted)?;
    Ok(Stop {
        tokens,
        wanted,
        may_end,
    })
}

/// What is reported about a stop, and its number.
#[derive(Drop)]
struct Told {
    finding: Finding,
    stop: usize,
}

/// Returns what is reported about the tokens' stop, and its number.
fn told_stop(
    alloc: Global,
    reader: Reader,
    text: &str,
    tokens: &[Spanned],
) -> Result<Told, AllocError>
    requires reader { IsReader reader }
    requires row { IsRow reader.known.definition.now reader.kind text.now tokens.now }
    requires stops { MayEnd (quiet reader.known.definition.now) reader.kind 0 (tokens_of tokens.now) → ⊥ }
    ensures { IfOk result (λ told. IsStopTold reader.entry.known.definition.now reader.entry.kind text.now tokens.now
        told.stop told.finding) }
{
    let grammar = reader.grammar;
    let goal = whole(reader.kind);
    let found = find_stop(alloc, &grammar.definition, &grammar.table, goal, tokens)?;
    let stop = without_lost(alloc, reader, found)?;
    let words = expected_words(alloc, reader.known.definition, &stop)?;
    let message = stop_message(alloc, text, tokens, stop.tokens, words.as_slice())?;
    let byte = stop_byte(tokens, stop.tokens);
    let finding = error(alloc, byte, message)?;
    Ok(Told {
        finding,
        stop: stop.tokens,
    })
}

/// What is reported about the stops, and the tokens that are read at last, if any are.
#[derive(Drop)]
pub struct Stops {
    /// What is reported about each stop.
    pub told: Vec<Finding>,
    /// The tokens that are read at last.
    pub last: Option<Vec<Spanned>>,
}

/// Reports the stop of the tokens, and returns those that are read on after it; none where nothing goes on, or after
/// the last stop that is reported.
fn passed(
    alloc: Global,
    reader: Reader,
    text: &str,
    tokens: &[Spanned],
    told: &mut Vec<Finding>,
) -> Result<Option<Vec<Spanned>>, AllocError>
    requires reader { IsReader reader }
    requires row { IsRow reader.known.definition.now reader.kind text.now tokens.now }
    requires stops { MayEnd (quiet reader.known.definition.now) reader.kind 0 (tokens_of tokens.now) → ⊥ }
    ensures { IfOk result (λ next. (own : PlainFinding) × (told.new.items ≡ told.old.items ++ own ∷ [])
        × IsPassed reader.entry.known.definition.now reader.entry.kind text.now (length told.old.items) tokens.now own
        (tokens_in next)) }
{
    let own = told_stop(alloc, reader, text, tokens)?;
    let stop = own.stop;
    told.push(own.finding)?;
    let count = told.len();
    if count >= MOST_STOPS {
        return Ok(None);
    }
    let found = resumed(alloc, reader, tokens, stop)?;
    match found {
        Some(at) => {
            let next = replaced(alloc, reader, tokens, at)?;
            Ok(Some(next))
        }
        None => Ok(None),
    }
}

/// Reports the stops of the tokens, and returns those that are read at last. It tries each part in front of a stop with
/// each phylum, and each of those that may be there with each token after the stop, until one goes on. Each is read to
/// its end, so a stop may take the cube of the tokens.
pub fn all_stops(
    alloc: Global,
    reader: Reader,
    text: &str,
    tokens: Vec<Spanned>,
) -> Result<Stops, AllocError>
    requires reader { IsReader reader }
    requires text { IsReadText reader.known.definition.now text.now tokens.items }
    ensures { IfOk result (λ stops. AreStops reader.entry.known.definition.now reader.entry.kind text.now 0 tokens.items
        stops.told.items (stops_last stops)) }
{
    let mut told = Vec::new(alloc);
    let mut row = tokens;
    loop {
        let front = reader.front(alloc, reader.kind, row.as_slice())?;
        if front.whole {
            return Ok(Stops {
                told,
                last: Some(row),
            });
        }
        let after = passed(alloc, reader, text, row.as_slice(), &mut told)?;
        match after {
            Some(next) => row = next,
            None => return Ok(Stops { told, last: None }),
        }
    }
}
