//! The frames around a place of a noted tree.
ghost use Rattle.std.specs.Prelude.{◌≡◌, ◌<◌, ◌≤◌, ◌∷◌, ℕ, List, length, map, slice_get, take, IfOk, MatchOption, Some};
ghost use Rattle.psg_tree.specs.declared.tree.Part.{Part as PlainPart};
ghost use Rattle.psg_eval.specs.declared.frame.Frame.TheVariants as frames;
ghost use Rattle.psg_eval.specs.declared.summary.SummaryParts.{SummaryParts};
ghost use Rattle.psg_cache.specs.Annotated.{rests_in, below_in, whole_in};
ghost use Rattle.psg_cache.specs.Edits.{IsNoSummaryAt};
ghost use Rattle.psg_cache.specs.NoteFrames.{AreElementFramesAt, AreFramesAt, IsFrameAt, IsFrameBefore};
ghost use Rattle.psg_cache.specs.NoteFrames.{IsNoElementAt, IsNoFrameAt, IsNoPlaceIn};
ghost use Rattle.psg_cache.specs.Walks.{names_in};

use crate::note::{Note, at, child_note};
use crate::parts::names_of;
use crate::topping::wholes_of;
use psg_eval::{Frame, Summary};
use psg_terms::Seq;
use psg_tree::{Part, Path, Shape};
use std::alloc::{AllocError, Global};

/// Returns the frame of an operator around its child of the number.
fn operator_frame(
    alloc: Global,
    op: u32,
    parts: &[Part],
    below: &[Note],
    number: u32,
) -> Result<Frame, AllocError>
    ensures { IfOk result (λ frame. frame ≡ frames.Op op (names_in parts.now) (map whole_in below.now) number) }
{
    let names = names_of(alloc, parts)?;
    let children = wholes_of(alloc, below)?;
    Ok(Frame::Op {
        op,
        names: Seq::of(names),
        children: Seq::of(children),
        hot: number,
    })
}

/// Returns the frame of a list around its element of the number; `None` where there is no such element.
fn list_frame(
    alloc: Global,
    list: u32,
    below: &[Note],
    rests: &[Summary],
    number: u32,
) -> Result<Option<Frame>, AllocError>
    ensures { IfOk result (λ o. MatchOption o (number < length below.now → number < length rests.now → ⊥)
        (λ frame. (rest : SummaryParts) × (slice_get rests.now number ≡ Some rest)
        × (frame ≡ frames.Elem list (map whole_in (take number below.now)) rest))) }
{
    let place = number as usize;
    if place >= below.len() {
        return Ok(None);
    }
    if place >= rests.len() {
        return Ok(None);
    }
    let before = wholes_of(alloc, &below[..place])?;
    let rest = rests[place].share()?;
    Ok(Some(Frame::Elem {
        list,
        before: Seq::of(before),
        rest,
    }))
}

/// Returns the frame of the node around its child of the number; `None` where there is no such child.
fn frame_of(alloc: Global, note: &Note, number: u32) -> Result<Option<Frame>, AllocError>
    ensures { IfOk result (λ o. MatchOption o (IsNoFrameAt note.now number) (IsFrameAt note.now number)) }
{
    match note.tree().shape() {
        Shape::Op { op, parts } => {
            let all = parts.as_slice();
            let inner = note.below();
            let frame = operator_frame(alloc, *op, all, inner, number)?;
            Ok(Some(frame))
        }
        Shape::List {
            list,
            elements: _,
            unfinished: _,
        } => {
            let inner = note.below();
            let rests = note.rests();
            let frame = list_frame(alloc, *list, inner, rests, number)?;
            Ok(frame)
        }
        Shape::Hole { phylum: _ } => Ok(None),
    }
}

/// Returns the frame of a list around a new element before the place; `None` where the list has fewer elements.
fn gap_frame(alloc: Global, list: u32, note: &Note, place: u32) -> Result<Option<Frame>, AllocError>
    ensures { IfOk result (λ o. MatchOption o
        (place ≤ length (below_in note.now) → place ≤ length (rests_in note.now) → ⊥)
        (λ frame. (rest : SummaryParts) × (Some rest ≡ slice_get (whole_in note.now ∷ rests_in note.now) place)
        × (frame ≡ frames.Elem list (map whole_in (take place (below_in note.now))) rest))) }
{
    let number = place as usize;
    let below = note.below();
    if number > below.len() {
        return Ok(None);
    }
    let rests = note.rests();
    if number > rests.len() {
        return Ok(None);
    }
    let before = wholes_of(alloc, &below[..number])?;
    let rest = note.suffix(number).share()?;
    Ok(Some(Frame::Elem {
        list,
        before: Seq::of(before),
        rest,
    }))
}

/// Returns the frame of the node around a new element before the place; `None` where it is no list, or one with fewer
/// elements.
fn frame_before(alloc: Global, note: &Note, place: u32) -> Result<Option<Frame>, AllocError>
    ensures { IfOk result (λ o. MatchOption o (IsNoPlaceIn note.now place) (IsFrameBefore note.now place)) }
{
    match note.tree().shape() {
        Shape::List {
            list,
            elements: _,
            unfinished: _,
        } => {
            let frame = gap_frame(alloc, *list, note, place)?;
            Ok(frame)
        }
        Shape::Op { op: _, parts: _ } => Ok(None),
        Shape::Hole { phylum: _ } => Ok(None),
    }
}

impl Note {
    /// Returns the frames of the nodes above the node at the path, the innermost first, with the summaries of all that
    /// is beside the path; `None` where the path leads to no node. They share names and summaries with the note. The
    /// cost is that of the path: of an operator on it its children, and of a list the elements before the path.
    pub fn frames(&self, alloc: Global, path: &Path) -> Result<Option<Vec<Frame>>, AllocError>
        ensures { IfOk result (λ o. MatchOption o (IsNoSummaryAt self.now path.now)
            (λ v. AreFramesAt self.now path.now v.items)) }
    {
        let mut made = Vec::new(alloc);
        let mut node = self;
        for step in path.steps() {
            let Some(next) = child_note(node, *step) else {
                return Ok(None);
            };
            let framed = frame_of(alloc, node, *step)?;
            let Some(frame) = framed else {
                return Ok(None);
            };
            made.push(frame)?;
            node = next;
        }
        made.reverse();
        Ok(Some(made))
    }

    /// Returns the frames around a new element before the place of the list at the path, the innermost first, as
    /// `frames` does; `None` where there is no list, or one with fewer elements than `place`. The place after all
    /// elements is the end of the list. The cost is that of the path, and of the list the elements before the place.
    pub fn element_frames(
        &self,
        alloc: Global,
        path: &Path,
        place: u32,
    ) -> Result<Option<Vec<Frame>>, AllocError>
        ensures { IfOk result (λ o. MatchOption o (IsNoElementAt self.now path.now place)
            (λ v. AreElementFramesAt self.now path.now place v.items)) }
    {
        let Some(node) = at(self, path) else {
            return Ok(None);
        };
        let framed = frame_before(alloc, node, place)?;
        let Some(frame) = framed else {
            return Ok(None);
        };
        let found = self.frames(alloc, path)?;
        let Some(mut around) = found else {
            return Ok(None);
        };
        around.insert(0, frame)?;
        Ok(Some(around))
    }
}
