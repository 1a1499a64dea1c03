//! A node of a printed tree, read again with its bytes replaced.
ghost use Rattle.std.specs.Prelude.{◌≡◌, ◌-◌, ◌≤◌, length, IfOk};
ghost use Rattle.psg_unparse.specs.Spots.{IsPlacedAt, Placed};
ghost use Rattle.psg_textedit.specs.Regions.{region_of, Encloses};
ghost use Rattle.psg_textedit.specs.Typing.{HasRead, MayRead};
ghost use Rattle.psg_textedit.specs.Jobs.{IsHere, IsJob, IsPathAnswer, language_of, tree_in, typing_in};

use crate::change::{Reader, Typed};
use crate::places::{kind_of, place_of};
use crate::reading::{Reading, Region, read_region};
use crate::spans::span_at;
use crate::texts::{Lines, region};
use psg_grammar::Kind;
use psg_lexis::Spanned;
use psg_parse::Goal;
use psg_terms::Steps;
use psg_tree::Tree;
use psg_unparse::{Printed, Span};
use std::alloc::{AllocError, Global};
use std::sync::ledger::Ledger;

/// A printed tree of a kind, what is typed into it, and the lines on which that is: with the new bytes the lines have
/// the given number of bytes, and the given tokens.
#[derive(Clone, Copy)]
pub(crate) struct Job<'a> {
    pub(crate) reader: &'a Reader<'a>,
    pub(crate) tree: &'a Tree,
    pub(crate) kind: Kind,
    pub(crate) printed: &'a Printed,
    pub(crate) typed: &'a Typed<'a>,
    pub(crate) lines: Lines<'a>,
    pub(crate) bytes: usize,
    pub(crate) all: &'a [Spanned],
}

/// Returns the part of the new lines that is the new region of the node of the span. A border before the lines is where
/// they begin, and one after them is where they end: no token of the text is across it.
fn region_among<'a>(job: &Job<'a>, span: &Span) -> Region<'a>
    requires encloses { Encloses (typing_in job.now) span.now }
    requires bytes { length job.now.lines.behind.now ≤ job.now.bytes }
    ensures all { result.all.now ≡ job.now.all.now }
    ensures start { result.start ≡ length job.now.lines.before.now - (job.now.typed.now.start - span.now.start) }
    ensures end { result.end
        ≡ job.now.bytes - (length job.now.lines.behind.now - (span.now.end - job.now.typed.now.end)) }
{
    let in_front = job.typed.start - span.start;
    let after = span.end - job.typed.end;
    let start = job.lines.before.len().saturating_sub(in_front);
    let left = job.lines.behind.len().saturating_sub(after);
    Region {
        all: job.all,
        start,
        end: job.bytes - left,
    }
}

/// Reads the new region of the node at the path, as a tree of the node's kind at the level that is wanted there. It
/// makes the region's text, lexes it, looks at the tokens of the new lines once for each border, and takes a step for
/// each token of the region at most.
pub(crate) fn read_node<L: Ledger>(
    alloc: Global,
    job: &Job<'_>,
    path: &[u32],
    steps: &mut Steps<L>,
) -> Result<Reading, AllocError>
    requires job { IsJob job.now }
    requires here { IsHere job.now path.now }
    ensures answer { IfOk result (IsPathAnswer job.now path.now) }
    ensures counted { IfOk result (λ _. (p : Placed) → IsPlacedAt (language_of job.now) (tree_in job.now) path.now p
        → HasRead (language_of job.now) (region_of (language_of job.now) (tree_in job.now) (typing_in job.now) p)
        steps.old steps.new) }
    ensures steps { (p : Placed) → IsPlacedAt (language_of job.now) (tree_in job.now) path.now p
        → MayRead (language_of job.now) (region_of (language_of job.now) (tree_in job.now) (typing_in job.now) p)
        steps.old steps.new }
{
    let spans = job.printed.spans.as_slice();
    let span = span_at(spans, path);
    // each node has a place, so this answer is not given
    let Some(place) = place_of(job.reader.definition, job.tree, path) else {
        return Ok(Reading::Unclean);
    };
    let kind = kind_of(job.reader.definition, place.node);
    let text = job.printed.text.as_str();
    let region_in = region_among(job, span);
    let goal = Goal {
        kind,
        least: place.least,
        around: place.around,
    };
    let new = region(alloc, text, span, job.typed)?;
    let own = new.as_str();
    let reading = read_region(alloc, job.reader, &region_in, goal, own, steps)?;
    Ok(reading)
}
