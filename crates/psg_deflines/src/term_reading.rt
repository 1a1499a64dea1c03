//! Terms from parts of a line.
ghost use Rattle.std.specs.Prelude.{◌≡◌, ◌≢◌, ◌<◌, ◌≤◌, ◌∷◌, ◌||◌, nat_le, [], ℕ, true, List, IfOk, OnOk, IsTrue, ◌↔◌};
ghost use Rattle.std.specs.Prelude.{MatchOption, MatchBool, codes, length, false};
ghost use Rattle.psg_deflines.specs.Parts.{texts};
ghost use Rattle.psg_deflines.specs.WrittenTerms.{WrittenTerm, most_nested, is_variable_name, apply};
ghost use Rattle.psg_deflines.specs.TermWalks.{IsDone, IsFinished, frame_term, IsOpened, IsNotOpened, HasNoTerm};
ghost use Rattle.psg_deflines.specs.TermWalks.{IsTermFound, HasNoStep, IsStepMade, IsWalk, is_deep, IsAdvanced, Stage};
ghost use Rattle.psg_deflines.specs.TermWalks.{AreOpen, expects, has};

use crate::names::{ascii, is, is_own_name, is_variable_name};
use crate::terms::{LineTerm, TermShape};
use psg_terms::{Seq, Txt};
use std::alloc::{AllocError, Global};

/// How deep a term, and a specimen, may be nested.
pub const MOST_NESTED: usize = 32;

/// A constructor whose bracket is open, with its arguments so far.
#[derive(Drop)]
pub struct Frame {
    /// The name of the constructor.
    pub name: Txt,
    /// The arguments so far.
    pub args: Vec<LineTerm>,
}

/// The open constructors from the outermost on. After a term that is nested too deep arguments are no longer kept.
#[derive(Drop)]
pub struct Brackets {
    /// The open constructors, the outermost first.
    pub frames: Vec<Frame>,
    /// Whether a term was nested too deep.
    pub deep: bool,
}

/// The state of a walk over the parts of a term.
#[derive(Drop)]
pub enum Walk {
    /// A term is to begin.
    Expects(Brackets),
    /// A term ends here.
    Has(Brackets, LineTerm),
}

/// A term, and how many parts it takes. There is no term where it is nested too deep.
#[derive(Drop)]
pub struct TermRead {
    /// The term, if it is kept.
    pub term: Option<LineTerm>,
    /// The number of parts that it takes.
    pub taken: usize,
}

/// Returns the name of a variable without its mark, if the part is one.
fn variable_name(part: &[u8]) -> Option<&[u8]>
    ensures { MatchOption result ((n : List ℕ) → part.now ≡ 63 ∷ n → is_variable_name n ≡ false)
        (λ n. (part.now ≡ 63 ∷ n.now) × (is_variable_name n.now ≡ true)) }
{
    let (first, name) = part.split_first()?;
    if *first == b'?' && is_variable_name(name) {
        Some(name)
    } else {
        None
    }
}

/// Says whether the parts begin with an opening bracket.
pub fn is_opened(parts: &[&[u8]]) -> bool
    ensures { MatchBool result (IsOpened (texts parts.now)) (IsNotOpened (texts parts.now)) }
{
    let Some((first, _)) = parts.split_first() else {
        return false;
    };
    is(first, "(")
}

/// Takes what begins a term: a variable, a constant, or a constructor and its bracket.
fn begin(
    alloc: Global,
    brackets: Brackets,
    parts: &[&[u8]],
) -> Result<Option<(Walk, usize)>, AllocError>
    ensures { IfOk result (λ o. (fs : List WrittenTerm) → AreOpen brackets fs
        → MatchOption o (HasNoStep (expects fs) (texts parts.now))
        (λ r. IsStepMade (expects fs) brackets.deep (texts parts.now) r.0 r.1)) }
{
    let Brackets { mut frames, deep } = brackets;
    let deep = deep | (frames.len() >= MOST_NESTED);
    let Some((first, rest)) = parts.split_first() else {
        return Ok(None);
    };
    if let Some(name) = variable_name(first) {
        let shape = TermShape::Variable(Txt::copy_of(alloc, ascii(name))?);
        let brackets = Brackets { frames, deep };
        return Ok(Some((Walk::Has(brackets, LineTerm { shape }), 1)));
    }
    if !is_own_name(first) {
        return Ok(None);
    }
    let name = Txt::copy_of(alloc, ascii(first))?;
    let args = Vec::new(alloc);
    if is_opened(rest) {
        frames.push(Frame { name, args })?;
        return Ok(Some((Walk::Expects(Brackets { frames, deep }), 2)));
    }
    let args = Seq::of(args);
    let shape = TermShape::Named { name, args };
    let brackets = Brackets { frames, deep };
    Ok(Some((Walk::Has(brackets, LineTerm { shape }), 1)))
}

/// Returns the frame with one more argument, which is not kept where a term is nested too deep.
fn with_argument(frame: Frame, term: LineTerm, deep: bool) -> Result<Frame, AllocError>
    ensures { IfOk result (λ f. deep ≡ false → frame_term f ≡ apply (frame_term frame) term) }
{
    let Frame { name, mut args } = frame;
    if !deep {
        args.push(term)?;
    }
    Ok(Frame { name, args })
}

/// Takes what follows a term inside a bracket: a comma, or the closing bracket.
fn go_on(
    brackets: Brackets,
    term: LineTerm,
    parts: &[&[u8]],
) -> Result<Option<(Walk, usize)>, AllocError>
    requires { 0 < length brackets.frames.items }
    ensures { IfOk result (λ o. (fs : List WrittenTerm) (t : WrittenTerm) → AreOpen brackets fs
        → (brackets.deep ≡ false → term ≡ t)
        → MatchOption o (HasNoStep (has fs t) (texts parts.now))
        (λ r. IsStepMade (has fs t) brackets.deep (texts parts.now) r.0 r.1)) }
{
    let Brackets { mut frames, deep } = brackets;
    let Some((first, _)) = parts.split_first() else {
        return Ok(None);
    };
    let Some(frame) = frames.pop() else {
        unreachable!()
    };
    let frame = with_argument(frame, term, deep)?;
    if is(first, ",") {
        frames.push(frame)?;
        return Ok(Some((Walk::Expects(Brackets { frames, deep }), 1)));
    }
    if is(first, ")") {
        let Frame { name, args } = frame;
        let args = Seq::of(args);
        let shape = TermShape::Named { name, args };
        let brackets = Brackets { frames, deep };
        return Ok(Some((Walk::Has(brackets, LineTerm { shape }), 1)));
    }
    Ok(None)
}

/// Says whether the walk is at its end.
fn is_done(walk: &Walk) -> bool
    ensures { IsTrue result ↔ IsDone walk.now }
{
    match walk {
        Walk::Expects(_) => false,
        Walk::Has(brackets, _) => brackets.frames.is_empty(),
    }
}

/// Returns the term of a walk that is at its end, if it is kept.
fn finished(walk: Walk) -> Option<LineTerm>
    ensures { IsFinished walk result }
{
    match walk {
        Walk::Expects(_) => None,
        Walk::Has(brackets, term) => { if brackets.deep { None } else { Some(term) } }
    }
}

/// Makes a step of the walk, if one is possible.
fn advance(alloc: Global, walk: Walk, parts: &[&[u8]]) -> Result<Option<(Walk, usize)>, AllocError>
    requires { IsDone walk → ⊥ }
    ensures { IfOk result (λ o. (s : Stage) → IsWalk walk s → IsAdvanced s (is_deep walk) (texts parts.now) o) }
{
    match walk {
        Walk::Expects(brackets) => begin(alloc, brackets, parts),
        Walk::Has(brackets, term) => go_on(brackets, term, parts),
    }
}

/// Reads the term with which the parts begin, and how many parts it takes; `None` where they begin with none. Each part
/// is looked at once, however deep the term is nested.
pub fn line_term(alloc: Global, parts: &[&[u8]]) -> Result<Option<TermRead>, AllocError>
    ensures { IfOk result (λ o. MatchOption o (HasNoTerm (texts parts.now)) (IsTermFound (texts parts.now))) }
{
    let mut walk = Walk::Expects(Brackets {
        frames: Vec::new(alloc),
        deep: false,
    });
    let mut taken = 0;
    'steps: while !is_done(&walk) {
        let Some((next, more)) = advance(alloc, walk, &parts[taken..])? else {
            return Ok(None);
        };
        walk = next;
        taken += more;
    }
    let term = finished(walk);
    Ok(Some(TermRead { term, taken }))
}
