//! The nodes around bytes of a printed tree.
ghost use Rattle.std.specs.Prelude.{◌≡◌, ◌<◌, ◌+◌, ℕ, false, length, slice_get, Some, IsTrue};
ghost use Rattle.std.specs.List.{AllByRecursion};
ghost use Rattle.psg_lexis.specs.Tokens.{IsBeside};
ghost use Rattle.psg_unparse.specs.Listing.{AreInOrder};
ghost use Rattle.psg_unparse.specs.Splicing.{IsPlaceOf};
ghost use Rattle.psg_unparse.specs.declared.spans.Span.{Span as PlainSpan};
ghost use Rattle.psg_textedit.specs.Regions.{Encloses};
ghost use Rattle.psg_textedit.specs.Typing.{typing_of, IsBest, IsSpanAt};

use crate::change::Typed;
use psg_lexis::Spanned;
use psg_unparse::{Span, place_of};

/// Says whether the bytes are in the span.
fn encloses(span: &Span, typed: &Typed<'_>) -> bool
    ensures yes { IsTrue result → Encloses (typing_of typed.now) span.now }
    ensures no { result ≡ false → Encloses (typing_of typed.now) span.now → ⊥ }
{
    span.start <= typed.start && typed.end <= span.end
}

/// Finds the place of the first of the deepest spans that have the bytes. The first span, which is that of the whole
/// text, has them. It looks at each span once.
pub(crate) fn innermost(spans: &[Span], typed: &Typed<'_>) -> usize
    requires some { 0 < length spans.now }
    requires whole { (span : PlainSpan) → slice_get spans.now 0 ≡ Some span → Encloses (typing_of typed.now) span }
    ensures { IsBest spans.now (typing_of typed.now) (length spans.now) result }
{
    let mut best = 0;
    for i in 1..spans.len() {
        best = better(spans, typed, best, i);
    }
    best
}

/// Returns the place of the best span up to the one at the next place, where that before it is known.
fn better(spans: &[Span], typed: &Typed<'_>, best: usize, next: usize) -> usize
    requires best { IsBest spans.now (typing_of typed.now) next best }
    requires within { next < length spans.now }
    ensures { IsBest spans.now (typing_of typed.now) (next + 1) result }
{
    let span = &spans[next];
    if !encloses(span, typed) {
        return best;
    }
    let steps = span.path.steps().len();
    let most = spans[best].path.steps().len();
    if steps <= most {
        return best;
    }
    next
}

/// Returns the span of the node at the path, among all spans of a tree. It looks at few of them: twice as many spans
/// cost one more look.
pub(crate) fn span_at<'a>(spans: &'a [Span], path: &[u32]) -> &'a Span
    requires order { AreInOrder spans.now }
    requires there { (place : ℕ) × IsPlaceOf spans.now path.now place }
    ensures { IsSpanAt spans.now path.now result.now }
{
    let place = place_of(spans, path);
    &spans[place]
}

/// Says whether the token is not across the border.
fn is_beside(token: &Spanned, border: usize) -> bool
    ensures yes { IsTrue result → IsBeside border token.now }
    ensures no { result ≡ false → IsBeside border token.now → ⊥ }
{
    token.end <= border || border <= token.start
}

/// Says whether no token is across the border.
pub(crate) fn is_apart(tokens: &[Spanned], border: usize) -> bool
    ensures yes { IsTrue result → AllByRecursion (IsBeside border) tokens.now }
    ensures no { result ≡ false → AllByRecursion (IsBeside border) tokens.now → ⊥ }
{
    for token in tokens {
        if !is_beside(token, border) {
            return false;
        }
    }
    true
}
