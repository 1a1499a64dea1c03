//! Specimens from parts of a line.
ghost use Rattle.std.specs.Prelude.{ℕ, ◌≡◌, ◌∷◌, ◌||◌, nat_le, not, is_some, cond, Bool, List, Option, Some, None};
ghost use Rattle.std.specs.Prelude.{IfOk, IsTrue, ◌↔◌, MatchOption, length, ◌++◌, [], false};
ghost use Rattle.psg_deflines.specs.Parts.{texts};
ghost use Rattle.psg_deflines.specs.WrittenTerms.{most_nested};
ghost use Rattle.psg_deflines.specs.WrittenTrees.{WrittenTree};
ghost use Rattle.psg_deflines.specs.TreeWalks.{TreeFrame, TreeStage, expects, after, IsLiteral, a_part, a_comma};
ghost use Rattle.psg_deflines.specs.TreeWalks.{a_close, an_end, begun, finished, Begin, Finish};
ghost use Rattle.psg_deflines.specs.TreePieces.{frame_of, ShowsEnd, ShowsBegin, ShowsFinish};
ghost use Rattle.psg_deflines.specs.TreeStages.{AreTreesOpen, IsTreeWalk, is_deep, IsPlaced, IsMoved, IsFilledBy};
ghost use Rattle.psg_deflines.specs.TreeStages.{IsTreeAdvanced, IsTreeDone, kept_tree};
ghost use Rattle.psg_deflines.specs.TreeReads.{HasNoTree, IsTreeFound};

use crate::places::ListEnd;
use crate::term_reading::MOST_NESTED;
use crate::tree_pieces::{
    BeginRead, FinishRead, OpenTree, TreeBegin, TreeFinish, as_list, as_operator, begins, finishes,
    list_tree, operator_tree,
};
use crate::trees::{LinePart, LineTree};
use std::alloc::{AllocError, Global};

/// A specimen, and how many parts it takes. There is no specimen where it is nested too deep.
#[derive(Drop)]
pub struct TreeRead {
    /// The specimen, if it is kept.
    pub tree: Option<LineTree>,
    /// The number of parts that it takes.
    pub taken: usize,
}

/// The open operators and lists from the outermost on. After a specimen that is nested too deep nothing more is kept in
/// them.
#[derive(Drop)]
pub struct OpenTrees {
    /// The open operators and lists, the outermost first.
    pub frames: Vec<OpenTree>,
    /// Whether a specimen was nested too deep.
    pub deep: bool,
}

/// The state of a walk over the parts of a specimen.
#[derive(Drop)]
pub enum TreeWalk {
    /// The specimen, a part or an element is to begin.
    Expects(OpenTrees),
    /// A part or an element has ended.
    After(OpenTrees),
    /// The specimen has ended. It is not kept where it is nested too deep.
    Done(Option<LineTree>),
}

/// Returns the frame with the specimen as its last part or element, if it is kept.
fn filled(frame: OpenTree, tree: Option<LineTree>) -> Result<OpenTree, AllocError>
    ensures { IfOk result (IsFilledBy frame tree) }
{
    let Some(tree) = tree else {
        return Ok(frame);
    };
    match frame {
        OpenTree::Operator { name, mut parts } => {
            parts.push(LinePart::Tree(tree))?;
            Ok(OpenTree::Operator { name, parts })
        }
        OpenTree::List { mut elements } => {
            elements.push(tree)?;
            Ok(OpenTree::List { elements })
        }
    }
}

/// Returns the specimen, unless something is nested too deep.
fn unless_deep(deep: bool, tree: Option<LineTree>) -> Option<LineTree>
    ensures { result ≡ cond deep None tree }
{
    if deep { None } else { tree }
}

/// Ends a specimen inside the open ones.
fn placed(trees: OpenTrees, tree: Option<LineTree>) -> Result<TreeWalk, AllocError>
    ensures { IfOk result (λ w. (fs : List TreeFrame) (t : WrittenTree) → AreTreesOpen trees fs
        → (trees.deep ≡ false → MatchOption tree (Unit {0}) (λ x. x ≡ t)) → IsPlaced trees.deep tree fs t w) }
{
    let OpenTrees { mut frames, deep } = trees;
    let deep = deep | (tree.is_none() | (frames.len() >= MOST_NESTED));
    let tree = unless_deep(deep, tree);
    let Some(frame) = frames.pop() else {
        return Ok(TreeWalk::Done(tree));
    };
    frames.push(filled(frame, tree)?)?;
    Ok(TreeWalk::After(OpenTrees { frames, deep }))
}

/// Begins an operator or a list inside the open ones.
fn opened(trees: OpenTrees, frame: OpenTree) -> Result<TreeWalk, AllocError>
    ensures { IfOk result (λ w. (fs : List TreeFrame) → AreTreesOpen trees fs
        → IsTreeWalk w (expects (frame_of frame ∷ fs)) × (is_deep w ≡ (trees.deep || nat_le most_nested (length fs)))) }
{
    let OpenTrees { mut frames, deep } = trees;
    let deep = deep | (frames.len() >= MOST_NESTED);
    frames.push(frame)?;
    Ok(TreeWalk::Expects(OpenTrees { frames, deep }))
}

/// Returns the parts with one more, unless something is nested too deep.
fn one_more(parts: Vec<LinePart>, part: LinePart, deep: bool) -> Result<Vec<LinePart>, AllocError>
    ensures { IfOk result (λ v. deep ≡ false → v.items ≡ parts.items ++ part ∷ []) }
{
    let mut parts = parts;
    if !deep {
        parts.push(part)?;
    }
    Ok(parts)
}

/// Puts a name, a number or a text as the next part into the innermost operator. A list has none.
fn with_part(trees: OpenTrees, part: LinePart) -> Result<Option<TreeWalk>, AllocError>
    ensures { IfOk result (λ o. (fs : List TreeFrame) → IsLiteral part → AreTreesOpen trees fs
        → IsMoved (expects fs) (begun fs (a_part part)) trees.deep o) }
{
    let OpenTrees { mut frames, deep } = trees;
    let Some(frame) = frames.pop() else {
        return Ok(None);
    };
    let Some((name, parts)) = as_operator(frame) else {
        return Ok(None);
    };
    let parts = one_more(parts, part, deep)?;
    frames.push(OpenTree::Operator { name, parts })?;
    Ok(Some(TreeWalk::After(OpenTrees { frames, deep })))
}

/// Goes on with what begins. A list has no part, and neither has a specimen that is inside no operator.
fn begun(trees: OpenTrees, begin: TreeBegin) -> Result<Option<TreeWalk>, AllocError>
    ensures { IfOk result (λ o. (fs : List TreeFrame) (b : Begin) → AreTreesOpen trees fs → ShowsBegin begin b
        → IsMoved (expects fs) (begun fs b) trees.deep o) }
{
    match begin {
        TreeBegin::Part(part) => with_part(trees, part),
        TreeBegin::Tree(tree) => {
            let walk = placed(trees, tree)?;
            Ok(Some(walk))
        }
        TreeBegin::Frame(frame) => {
            let walk = opened(trees, frame)?;
            Ok(Some(walk))
        }
    }
}

/// Passes a comma, after which the next part or element is to begin.
fn behind_comma(trees: OpenTrees) -> Option<TreeWalk>
    ensures { (fs : List TreeFrame) → AreTreesOpen trees fs
        → IsMoved (after fs) (finished fs a_comma) trees.deep result }
{
    if trees.frames.is_empty() {
        None
    } else {
        Some(TreeWalk::Expects(trees))
    }
}

/// Ends the innermost operator.
fn closed(trees: OpenTrees) -> Result<Option<TreeWalk>, AllocError>
    ensures { IfOk result (λ o. (fs : List TreeFrame) → AreTreesOpen trees fs
        → IsMoved (after fs) (finished fs a_close) trees.deep o) }
{
    let OpenTrees { mut frames, deep } = trees;
    let Some(frame) = frames.pop() else {
        return Ok(None);
    };
    let Some((name, parts)) = as_operator(frame) else {
        return Ok(None);
    };
    let tree = operator_tree(name, parts);
    let walk = placed(OpenTrees { frames, deep }, Some(tree))?;
    Ok(Some(walk))
}

/// Ends the innermost list.
fn ended(trees: OpenTrees, end: ListEnd) -> Result<Option<TreeWalk>, AllocError>
    ensures { IfOk result (λ o. (fs : List TreeFrame) (e : WrittenTree) → AreTreesOpen trees fs → ShowsEnd end e
        → IsMoved (after fs) (finished fs (an_end e)) trees.deep o) }
{
    let OpenTrees { mut frames, deep } = trees;
    let Some(frame) = frames.pop() else {
        return Ok(None);
    };
    let Some(elements) = as_list(frame) else {
        return Ok(None);
    };
    let tree = list_tree(elements, end);
    let walk = placed(OpenTrees { frames, deep }, tree)?;
    Ok(Some(walk))
}

/// Goes on with what follows a part or an element.
fn finished(trees: OpenTrees, finish: TreeFinish) -> Result<Option<TreeWalk>, AllocError>
    ensures { IfOk result (λ o. (fs : List TreeFrame) (e : Finish) → AreTreesOpen trees fs → ShowsFinish finish e
        → IsMoved (after fs) (finished fs e) trees.deep o) }
{
    match finish {
        TreeFinish::Comma => Ok(behind_comma(trees)),
        TreeFinish::Close => closed(trees),
        TreeFinish::End(end) => ended(trees, end),
    }
}

/// Takes what begins.
fn begin(
    alloc: Global,
    trees: OpenTrees,
    parts: &[&[u8]],
) -> Result<Option<(TreeWalk, usize)>, AllocError>
    ensures { IfOk result (λ o. (fs : List TreeFrame) → AreTreesOpen trees fs
        → IsTreeAdvanced (expects fs) trees.deep (texts parts.now) o) }
{
    let Some(read) = begins(alloc, parts)? else {
        return Ok(None);
    };
    let BeginRead { begin, taken } = read;
    let Some(walk) = begun(trees, begin)? else {
        return Ok(None);
    };
    Ok(Some((walk, taken)))
}

/// Takes what follows a part or an element.
fn go_on(
    alloc: Global,
    trees: OpenTrees,
    parts: &[&[u8]],
) -> Result<Option<(TreeWalk, usize)>, AllocError>
    ensures { IfOk result (λ o. (fs : List TreeFrame) → AreTreesOpen trees fs
        → IsTreeAdvanced (after fs) trees.deep (texts parts.now) o) }
{
    let Some(read) = finishes(alloc, parts)? else {
        return Ok(None);
    };
    let FinishRead { finish, taken } = read;
    let Some(walk) = finished(trees, finish)? else {
        return Ok(None);
    };
    Ok(Some((walk, taken)))
}

/// Makes a step of the walk, if one is possible.
fn advance(
    alloc: Global,
    walk: TreeWalk,
    parts: &[&[u8]],
) -> Result<Option<(TreeWalk, usize)>, AllocError>
    ensures { IfOk result (λ o. (s : TreeStage) → IsTreeWalk walk s
        → IsTreeAdvanced s (is_deep walk) (texts parts.now) o) }
{
    match walk {
        TreeWalk::Expects(trees) => begin(alloc, trees, parts),
        TreeWalk::After(trees) => go_on(alloc, trees, parts),
        TreeWalk::Done(_) => Ok(None),
    }
}

/// Says whether the walk is at its end.
fn is_done(walk: &TreeWalk) -> bool
    ensures { IsTrue result ↔ IsTreeDone walk.now }
{
    matches!(walk, TreeWalk::Done(_))
}

/// Returns the specimen of a walk that is at its end, if it is kept.
fn kept_tree(walk: TreeWalk) -> Option<LineTree>
    ensures { result ≡ kept_tree walk }
{
    match walk {
        TreeWalk::Done(tree) => tree,
        TreeWalk::Expects(_) | TreeWalk::After(_) => None,
    }
}

/// Reads the specimen with which the parts begin, and how many parts it takes; `None` where they begin with none. Each
/// part is looked at a fixed number of times, however deep the specimen is nested.
pub fn line_tree(alloc: Global, parts: &[&[u8]]) -> Result<Option<TreeRead>, AllocError>
    ensures { IfOk result (λ o. MatchOption o (HasNoTree (texts parts.now)) (IsTreeFound (texts parts.now))) }
{
    let mut walk = TreeWalk::Expects(OpenTrees {
        frames: Vec::new(alloc),
        deep: false,
    });
    let mut taken = 0;
    'steps: while !is_done(&walk) {
        let Some((next, more)) = advance(alloc, walk, &parts[taken..])? else {
            return Ok(None);
        };
        walk = next;
        taken += more;
    }
    let tree = kept_tree(walk);
    Ok(Some(TreeRead { tree, taken }))
}
