//! Where a text is read on after its stop.
ghost use Rattle.std.specs.Prelude.{◌≡◌, ◌↔◌, ◌+◌, ◌<◌, ◌≤◌, ◌++◌, ◌∷◌, [], IfOk, IsTrue, MatchOption, OnOk, Some, ℕ};
ghost use Rattle.std.specs.Prelude.{◌==◌, ◌||◌, length, not, slice_get, take, true};
ghost use Rattle.psg_terms.specs.Relations.{IsIn};
ghost use Rattle.psg_grammar.specs.declared.types.Phylum.{Phylum as PlainPhylum};
ghost use Rattle.psg_class.specs.Texts.{tokens_of};
ghost use Rattle.psg_parse.specs.Stops.{Begins, IsStop, MayEnd};
ghost use Rattle.psg_recover.specs.declared.candidates.Candidate.{Candidate as PlainCandidate};
ghost use Rattle.psg_recover.specs.Candidates.{AreCandidates, AreCandidatesTo, GoesOnWith, IsCandidate, IsFirst};
ghost use Rattle.psg_recover.specs.Grammars.{quiet};
ghost use Rattle.psg_recover.specs.Reads as reads;
ghost use Rattle.psg_recover.specs.Recovery as recovery;
ghost use Rattle.psg_recover.specs.Readers.{IsBestAt, IsReader, IsReplaced};
ghost use Rattle.psg_recover.specs.Recovery.{HasNone};

use crate::grammar::Grammar;
use crate::lost::either;
use crate::reading::{push_all, push_one, stand_in};
use psg_grammar::{Kind, ListKind};
use psg_known::known::{Known, declares};
use psg_lexis::Spanned;
use psg_parse::{Front, Goal, reach};
use std::alloc::{AllocError, Global};

/// What reads a text.
#[derive(Clone, Copy)]
pub struct Reader<'a> {
    /// The definition of the language.
    pub known: Known<'a>,
    /// The grammar in which nothing declares.
    pub grammar: &'a Grammar,
    /// The kind of the program.
    pub kind: Kind,
}

/// Returns the goal of a tree of the kind, with no brackets around it. Takes no memory.
pub fn whole(kind: Kind) -> Goal
    ensures kind { result.kind ≡ kind }
    ensures least { result.least ≡ 0 }
{
    Goal {
        kind,
        least: 0,
        around: 0,
    }
}

impl Reader<'_> {
    /// Says how far the tokens begin a tree of the kind, and whether they are one.
    pub fn front(self, alloc: Global, kind: Kind, tokens: &[Spanned]) -> Result<Front, AllocError>
        requires reader { IsReader self }
        requires trees { Begins (quiet self.known.definition.now) kind 0 [] }
        ensures whole { IfOk result (λ r. (r.whole ≡ true)
            ↔ MayEnd (quiet self.entry.known.definition.now) kind 0 (tokens_of tokens.now)) }
        ensures stop { IfOk result (λ r. IsStop (quiet self.entry.known.definition.now) kind 0 (tokens_of tokens.now)
            r.tokens) }
    {
        let grammar = self.grammar;
        let goal = whole(kind);
        let front = reach(alloc, &grammar.definition, &grammar.table, goal, tokens)?;
        Ok(front)
    }

    /// Says whether the tokens begin a tree of the kind.
    fn begins(self, alloc: Global, kind: Kind, tokens: &[Spanned]) -> Result<bool, AllocError>
        requires reader { IsReader self }
        requires trees { Begins (quiet self.known.definition.now) kind 0 [] }
        ensures { IfOk result (λ b. IsTrue b
            ↔ Begins (quiet self.entry.known.definition.now) kind 0 (tokens_of tokens.now)) }
    {
        let front = self.front(alloc, kind, tokens)?;
        Ok(front.tokens == tokens.len())
    }
}

/// Says whether the list is of other elements, or may be unfinished.
fn goes_on_too(list: &ListKind, phylum: u32) -> bool
    ensures { result ≡ (not (list.now.element == phylum) || list.now.unfinished) }
{
    let other = list.element != phylum;
    either(other, list.unfinished)
}

/// Says whether each list of the phylum may be unfinished.
fn all_go_on(lists: &[ListKind], phylum: u32) -> bool
    ensures { result ≡ recovery.all_go_on phylum lists.now }
{
    for list in lists {
        if !goes_on_too(list, phylum) {
            return false;
        }
    }
    true
}

/// Says whether a placeholder may take the place of tokens: each where the phylum does not declare, and an element
/// where its lists may be unfinished.
fn may_stand(reader: Reader, phylum: u32) -> bool
    requires reader { IsReader reader }
    ensures { result ≡ recovery.may_stand reader.entry.known.definition.now phylum }
{
    let quiet = !declares(reader.known, phylum);
    let free = all_go_on(reader.known.definition.lists.as_slice(), phylum);
    either(quiet, free)
}

/// A part of the tokens up to the stop that begins a tree of a phylum.
#[derive(Clone, Copy)]
pub struct Candidate {
    /// The number of its first token.
    pub from: usize,
    /// The number of the phylum.
    pub phylum: u32,
}

/// Where reading goes on: a placeholder of the phylum takes the place of the tokens from `from` up to `to`.
#[derive(Clone, Copy)]
pub struct Resumption {
    /// The number of the first token that is passed over.
    pub from: usize,
    /// The number of the first token after those.
    pub to: usize,
    /// The number of the phylum.
    pub phylum: u32,
}

/// Returns the tokens before the candidate and its placeholder.
fn row_of(
    alloc: Global,
    reader: Reader,
    tokens: &[Spanned],
    candidate: Candidate,
    to: usize,
) -> Result<Vec<Spanned>, AllocError>
    requires from { candidate.from ≤ length tokens.now }
    requires to { to ≤ length tokens.now }
    requires phylum { candidate.phylum < length reader.known.definition.now.phyla }
    ensures { IfOk result (λ row. (phylum : PlainPhylum)
        → slice_get reader.entry.known.definition.now.phyla candidate.phylum ≡ Some phylum → row.items
        ≡ take candidate.from tokens.now ++ reads.stand_in tokens.now candidate.from to phylum.name ∷ []) }
{
    let phylum = &reader.known.definition.phyla.as_slice()[candidate.phylum as usize];
    let mut row = Vec::new(alloc);
    push_all(&mut row, &tokens[..candidate.from])?;
    let own = stand_in(tokens, candidate.from, to, &phylum.name)?;
    row.push(own)?;
    Ok(row)
}

/// Says whether the part up to the stop begins a tree of the phylum, which may take its place in what was read.
fn is_candidate(
    alloc: Global,
    reader: Reader,
    tokens: &[Spanned],
    stop: usize,
    candidate: Candidate,
) -> Result<bool, AllocError>
    requires reader { IsReader reader }
    requires stop { stop ≤ length tokens.now }
    requires from { candidate.from ≤ stop }
    requires phylum { candidate.phylum < length reader.known.definition.now.phyla }
    requires stands { recovery.may_stand reader.known.definition.now candidate.phylum ≡ true }
    ensures { IfOk result (λ b. IsTrue b
        ↔ IsCandidate reader.entry.known.definition.now reader.entry.kind (tokens_of tokens.now) stop candidate) }
{
    let part = &tokens[candidate.from..stop];
    let starts = reader.begins(alloc, Kind::Phylum(candidate.phylum), part)?;
    if !starts {
        return Ok(false);
    }
    let row = row_of(alloc, reader, tokens, candidate, stop)?;
    let follows = reader.begins(alloc, reader.kind, row.as_slice())?;
    Ok(follows)
}

/// Adds it, if it is a candidate.
fn add_if(
    alloc: Global,
    reader: Reader,
    tokens: &[Spanned],
    stop: usize,
    candidate: Candidate,
    found: &mut Vec<Candidate>,
) -> Result<(), AllocError>
    requires reader { IsReader reader }
    requires stop { stop ≤ length tokens.now }
    requires from { candidate.from ≤ stop }
    requires phylum { candidate.phylum < length reader.known.definition.now.phyla }
    requires found { AreCandidatesTo reader.known.definition.now reader.kind (tokens_of tokens.now) stop candidate.from
        candidate.phylum found.now.items }
    ensures { OnOk result (AreCandidatesTo reader.entry.known.definition.now reader.entry.kind (tokens_of tokens.now)
        stop candidate.from (candidate.phylum + 1) found.new.items) }
{
    if !may_stand(reader, candidate.phylum) {
        return Ok(());
    }
    let fits = is_candidate(alloc, reader, tokens, stop, candidate)?;
    if !fits {
        return Ok(());
    }
    found.push(candidate)?;
    Ok(())
}

/// Adds the candidates that begin with the token of the number.
fn add_candidates(
    alloc: Global,
    reader: Reader,
    tokens: &[Spanned],
    stop: usize,
    from: usize,
    found: &mut Vec<Candidate>,
) -> Result<(), AllocError>
    requires reader { IsReader reader }
    requires stop { stop ≤ length tokens.now }
    requires from { from ≤ stop }
    requires found { AreCandidatesTo reader.known.definition.now reader.kind (tokens_of tokens.now) stop from 0
        found.now.items }
    ensures { OnOk result (AreCandidatesTo reader.entry.known.definition.now reader.entry.kind (tokens_of tokens.now)
        stop from (length reader.entry.known.definition.now.phyla) found.new.items) }
{
    let phyla = reader.known.definition.phyla.as_slice();
    for place in 0..phyla.len() {
        let phylum = place as u32;
        add_if(
            alloc,
            reader,
            tokens,
            stop,
            Candidate { from, phylum },
            found,
        )?;
    }
    Ok(())
}

/// Returns all candidates: those that begin later first, and of those that begin at one token the first phylum first.
fn candidates(
    alloc: Global,
    reader: Reader,
    tokens: &[Spanned],
    stop: usize,
) -> Result<Vec<Candidate>, AllocError>
    requires reader { IsReader reader }
    requires stop { stop ≤ length tokens.now }
    ensures { IfOk result (λ found. AreCandidates reader.entry.known.definition.now reader.entry.kind
        (tokens_of tokens.now) stop found.items) }
{
    let mut found = Vec::new(alloc);
    add_candidates(alloc, reader, tokens, stop, stop, &mut found)?;
    for less in 0..stop {
        let from = stop - less - 1;
        add_candidates(alloc, reader, tokens, stop, from, &mut found)?;
    }
    Ok(found)
}

/// Says whether reading goes on with the token of the number, or ends there, with the candidate's placeholder before
/// it.
fn goes_on(
    alloc: Global,
    reader: Reader,
    tokens: &[Spanned],
    candidate: Candidate,
    to: usize,
) -> Result<bool, AllocError>
    requires reader { IsReader reader }
    requires from { candidate.from ≤ length tokens.now }
    requires to { to ≤ length tokens.now }
    requires phylum { candidate.phylum < length reader.known.definition.now.phyla }
    ensures { IfOk result (λ b. IsTrue b
        ↔ GoesOnWith reader.entry.known.definition.now reader.entry.kind (tokens_of tokens.now) to candidate) }
{
    let mut row = row_of(alloc, reader, tokens, candidate, to)?;
    match tokens.get(to) {
        Some(next) => {
            push_one(&mut row, next)?;
            let begins = reader.begins(alloc, reader.kind, row.as_slice())?;
            Ok(begins)
        }
        None => {
            let front = reader.front(alloc, reader.kind, row.as_slice())?;
            Ok(front.whole)
        }
    }
}

/// Returns the candidate at the place.
fn candidate_at(candidates: &[Candidate], place: usize) -> Candidate
    requires { place < length candidates.now }
    ensures { slice_get candidates.now place ≡ Some result }
{
    candidates[place]
}

/// Finds the first candidate with which reading goes on at the token of the number.
fn resumed_at(
    alloc: Global,
    reader: Reader,
    tokens: &[Spanned],
    candidates: &[Candidate],
    to: usize,
) -> Result<Option<Resumption>, AllocError>
    requires reader { IsReader reader }
    requires to { to ≤ length tokens.now }
    requires candidates { (stop : ℕ) × (stop ≤ to)
        × AreCandidates reader.known.definition.now reader.kind (tokens_of tokens.now) stop candidates.now }
    ensures { IfOk result (λ o. MatchOption o ((c : PlainCandidate) → IsIn c candidates.now
        → GoesOnWith reader.entry.known.definition.now reader.entry.kind (tokens_of tokens.now) to c → ⊥)
        (λ r. (r.to ≡ to)
        × IsFirst (GoesOnWith reader.entry.known.definition.now reader.entry.kind (tokens_of tokens.now) to)
        candidates.now (record { from = r.from; phylum = r.phylum }))) }
{
    for place in 0..candidates.len() {
        let own = candidate_at(candidates, place);
        let goes = goes_on(alloc, reader, tokens, own, to)?;
        if goes {
            return Ok(Some(Resumption {
                from: own.from,
                to,
                phylum: own.phylum,
            }));
        }
    }
    Ok(None)
}

/// Finds where reading goes on after the stop: with as few tokens after it passed over as can be, then as few before
/// it, then with the first phylum.
pub fn resumed(
    alloc: Global,
    reader: Reader,
    tokens: &[Spanned],
    stop: usize,
) -> Result<Option<Resumption>, AllocError>
    requires reader { IsReader reader }
    requires stop { stop ≤ length tokens.now }
    ensures { IfOk result (λ found. MatchOption found
        (HasNone reader.entry.known.definition.now reader.entry.kind (tokens_of tokens.now) stop)
        (IsBestAt reader.entry (tokens_of tokens.now) stop)) }
{
    let all = candidates(alloc, reader, tokens, stop)?;
    for to in stop..tokens.len() + 1 {
        let found = resumed_at(alloc, reader, tokens, all.as_slice(), to)?;
        match found {
            Some(at) => return Ok(Some(at)),
            None => {}
        }
    }
    Ok(None)
}

/// Returns the tokens with the placeholder in place of those that are passed over.
pub fn replaced(
    alloc: Global,
    reader: Reader,
    tokens: &[Spanned],
    at: Resumption,
) -> Result<Vec<Spanned>, AllocError>
    requires from { at.from ≤ length tokens.now }
    requires to { at.to ≤ length tokens.now }
    requires phylum { at.phylum < length reader.known.definition.now.phyla }
    ensures { IfOk result (λ row. IsReplaced reader.entry tokens.now at row.items) }
{
    let candidate = Candidate {
        from: at.from,
        phylum: at.phylum,
    };
    let mut row = row_of(alloc, reader, tokens, candidate, at.to)?;
    push_all(&mut row, &tokens[at.to..])?;
    Ok(row)
}
