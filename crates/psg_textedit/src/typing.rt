//! What is typed into a printed tree.
ghost use Rattle.std.specs.Prelude.{◌≡◌, ◌+◌, ◌<◌, ◌≤◌, ◌⊎◌, ℕ, IfErr, IfOk, List, OnOk, Option, Some, length};
ghost use Rattle.psg_grammar.specs.Paths.{Path as PlainPath, replaced};
ghost use Rattle.psg_grammar.specs.Printable.{IsPrintable};
ghost use Rattle.psg_grammar.specs.Sizes.{depth_of};
ghost use Rattle.psg_grammar.specs.WellFormed.{WellFormed};
ghost use Rattle.psg_grammar.specs.declared.limits.TheConstants.{MOST_DEPTH};
ghost use Rattle.psg_unparse.specs.Spans.{printed_of};
ghost use Rattle.psg_class.specs.Texts.{HasNoTokens, TextTokens};
ghost use Rattle.psg_lexis.specs.declared.token.Spanned.{Spanned};
ghost use Rattle.psg_textedit.specs.Regions.{edited as edited_text, IsInside, IsReading, IsTyped, Widens};
ghost use Rattle.psg_textedit.specs.Jobs.{IsHere, IsJob, language_of, tree_in, typing_in};
ghost use Rattle.psg_textedit.specs.Typing.{IsForNode, IsReader, IsTextFault, definition_of, typing_of};
ghost use Rattle.psg_textedit.specs.declared.change.TextFault.TheVariants.{Deep, Memory, NoTokens};

use crate::change::{Change, Reader, TextFault, Typed};
use crate::nodes::{Job, read_node};
use crate::reading::{Reading, tokens_in};
use crate::spans::innermost;
use crate::texts::{edited, is_inside, lines_of, new_lines};
use psg_grammar::{Kind, MOST_DEPTH};
use psg_terms::Steps;
use psg_tree::{Path, Tree, depth};
use psg_unparse::Printed;
use std::alloc::{AllocError, Global};
use std::sync::ledger::Ledger;

/// Replaces bytes of a printed tree of the kind, and returns the tree of the new text as a change of one node: the tree
/// that is put at the path makes the only tree of the whole new text, of the kind and at level 0.
///
/// The smallest node that has the bytes is read again by itself, then the nodes above it, until one is read as a tree
/// of its kind that fits what is around it: that is the path of the change. The tree of the change is of that node's
/// kind.
///
/// The error is `NoPlace` where the bytes are not in the text or cut a character. Else it is by the whole new text:
/// `NoTokens` where it has none, `NoTree` where no tree of the kind has them, and `Deep` where one has them that is
/// deeper than 200, or whose brackets nest above 400. `Memory` may be returned at any time.
///
/// It lexes the lines of the replaced bytes, since no token is on two lines, and looks at each span. It takes a step
/// for each token of the nodes that it reads. Where these lines have no tokens, it lexes the whole new text.
pub fn type_over<L: Ledger>(
    alloc: Global,
    reader: &Reader<'_>,
    tree: &Tree,
    kind: Kind,
    printed: &Printed,
    typed: &Typed<'_>,
    steps: &mut Steps<L>,
) -> Result<Change, TextFault>
    requires reader { IsReader reader.now }
    requires formed { WellFormed (definition_of reader.now) tree.now kind }
    requires printable { IsPrintable tree.now }
    requires shallow { depth_of tree.now ≤ MOST_DEPTH }
    requires printed { printed.now ≡ printed_of (definition_of reader.now) tree.now }
    ensures typed { IfOk result (λ change.
        IsTyped (definition_of reader.now) tree.now (typing_of typed.now) kind change.path change.tree) }
    ensures formed { IfOk result (λ change.
        WellFormed (definition_of reader.now) (replaced change.path change.tree tree.now) kind) }
    ensures fits { IfOk result (λ change.
        IsForNode (definition_of reader.now) tree.now change.path change.tree) }
    ensures path { IfOk result (λ change.
        (n : ℕ) × IsReading (definition_of reader.now) tree.now (typing_of typed.now) (Some change.path) n) }
    ensures fault { IfErr result (IsTextFault (definition_of reader.now) tree.now (typing_of typed.now) kind) }
    ensures ticks { (found : Option PlainPath) (n : ℕ)
        → IsReading (definition_of reader.now) tree.now (typing_of typed.now) found n → steps.new ≤ steps.old + n }
    ensures unread { IfErr result (λ fault. fault ≡ NoTokens → steps.new ≡ steps.old) }
{
    let text = printed.text.as_str();
    if !is_inside(text, typed) {
        return Err(TextFault::NoPlace);
    }
    // that the new bytes are UTF-8 is known of all texts
    let _new = typed.new.as_bytes();
    let lines = lines_of(text, typed);
    let made = new_lines(alloc, lines, typed)?;
    let new = made.as_str();
    let Some(tokens) = tokens_in(alloc, reader, new)? else {
        find_fault(alloc, reader, text, typed)?;
        return Err(TextFault::NoTokens);
    };
    let all = tokens.as_slice();
    let job = Job {
        reader,
        tree,
        kind,
        printed,
        typed,
        lines,
        bytes: new.len(),
        all,
    };
    let spans = printed.spans.as_slice();
    let best = innermost(spans, typed);
    let first = spans[best].path.steps();
    let change = widen(alloc, &job, first, steps)?;
    Ok(change)
}

/// Finds a fault in the whole new text, which has no tokens. It lexes that text.
fn find_fault(
    alloc: Global,
    reader: &Reader<'_>,
    text: &str,
    typed: &Typed<'_>,
) -> Result<(), AllocError>
    requires reader { IsReader reader.now }
    requires inside { IsInside (typing_of typed.now) text.now }
    requires none { (tokens : List Spanned)
        → TextTokens (definition_of reader.now) (edited_text (typing_of typed.now) text.now) tokens → ⊥ }
    ensures { OnOk result (HasNoTokens (definition_of reader.now) (edited_text (typing_of typed.now) text.now)) }
{
    let whole = edited(alloc, text, typed)?;
    let new = whole.as_str();
    let Some(_tokens) = tokens_in(alloc, reader, new)? else {
        return Ok(());
    };
    unreachable!()
}

/// Reads the nodes from the one at the path outward, up to the first that is clean.
fn widen<L: Ledger>(
    alloc: Global,
    job: &Job<'_>,
    first: &[u32],
    steps: &mut Steps<L>,
) -> Result<Change, TextFault>
    requires job { IsJob job.now }
    requires here { IsHere job.now first.now }
    ensures typed { IfOk result (λ change.
        IsTyped (language_of job.now) (tree_in job.now) (typing_in job.now) job.now.kind change.path change.tree) }
    ensures formed { IfOk result (λ change.
        WellFormed (language_of job.now) (replaced change.path change.tree (tree_in job.now)) job.now.kind) }
    ensures fits { IfOk result (λ change.
        IsForNode (language_of job.now) (tree_in job.now) change.path change.tree) }
    ensures path { IfOk result (λ change. (n : ℕ)
        × Widens (language_of job.now) (tree_in job.now) (typing_in job.now) first.now (Some change.path) n) }
    ensures fault { IfErr result
        (IsTextFault (language_of job.now) (tree_in job.now) (typing_in job.now) job.now.kind) }
    ensures ticks { (found : Option PlainPath) (n : ℕ)
        → Widens (language_of job.now) (tree_in job.now) (typing_in job.now) first.now found n
        → steps.new ≤ steps.old + n }
    ensures tokens { IfErr result (λ fault. fault ≡ NoTokens → ⊥) }
{
    let mut path = first;
    'nodes: loop {
        let reading = read_node(alloc, job, path, steps)?;
        match reading {
            Reading::Clean(tree) => {
                let change = changed(alloc, path, tree)?;
                return Ok(change);
            }
            Reading::Deep => return Err(TextFault::Deep),
            Reading::Unclean => {}
        }
        let Some((_, parent)) = path.split_last() else {
            return Err(TextFault::NoTree);
        };
        path = parent;
    }
}

/// Makes the change of the node at the path, if the whole is then within the limit of depth.
fn changed(alloc: Global, path: &[u32], tree: Tree) -> Result<Change, TextFault>
    requires shallow { depth_of tree ≤ MOST_DEPTH }
    ensures path { IfOk result (λ change. change.path ≡ path.now) }
    ensures tree { IfOk result (λ change. change.tree ≡ tree) }
    ensures depth { IfOk result (λ _. length path.now + depth_of tree ≤ MOST_DEPTH) }
    ensures deep { IfErr result (λ fault. (fault ≡ Memory)
        ⊎ ((fault ≡ Deep) × (MOST_DEPTH < length path.now + depth_of tree))) }
{
    let levels = depth(&tree);
    if MOST_DEPTH - levels < path.len() as u64 {
        return Err(TextFault::Deep);
    }
    let path = Path::of(alloc, path)?;
    Ok(Change { path, tree })
}
