//! What the children of two trees have in common.
ghost use Rattle.std.specs.Prelude.{◌≡◌, ◌↔◌, IfOk, IsTrue};
ghost use Rattle.psg_grammar.specs.Fragments.{children_of};
ghost use Rattle.psg_cache.specs.Alike.{IsBack};
ghost use Rattle.psg_cache.specs.Annotated.{tree_in};
ghost use Rattle.psg_cache.specs.Noted.{IsNoted};
ghost use Rattle.psg_cache.specs.Notes.{IsFormed};

use crate::note::Note;
use crate::parts::{Language, children};
use crate::renoting::{lesser, tops_alike};
use psg_tree::Tree;
use std::alloc::{AllocError, Global};

/// Says whether the note's tree is equal to the other one. It reads both up to the first part that differs.
fn is_equal(alloc: Global, language: Language, old: &Note, new: &Tree) -> Result<bool, AllocError>
    requires noted { IsNoted language.definition.now old.now }
    requires formed { IsFormed language.definition.now new.now }
    ensures { IfOk result (λ equal. IsTrue equal ↔ (tree_in old.now ≡ new.now)) }
{
    let tops = tops_alike(old.tree(), new);
    if !tops {
        return Ok(false);
    }
    let notes = old.below();
    let all = children(alloc, new)?;
    let inner = all.as_slice();
    if notes.len() != inner.len() {
        return Ok(false);
    }
    for i in 0..notes.len() {
        let equal = is_equal(alloc, language, &notes[i], &inner[i])?;
        if !equal {
            return Ok(false);
        }
    }
    Ok(true)
}

/// Returns how many of the last children the trees have in common, where one of them has more than the other one. Where
/// they have as many it reads none, and returns 0.
pub(crate) fn common_back(
    alloc: Global,
    language: Language,
    old: &Note,
    new: &Tree,
    inner: &[Tree],
) -> Result<usize, AllocError>
    requires noted { IsNoted language.definition.now old.now }
    requires formed { IsFormed language.definition.now new.now }
    requires inner { inner.now ≡ children_of new.now }
    ensures { IfOk result (IsBack old.now new.now) }
{
    let notes = old.below();
    if notes.len() == inner.len() {
        return Ok(0);
    }
    let most = lesser(notes.len(), inner.len());
    for back in 0..most {
        let before = notes.len() - back - 1;
        let after = inner.len() - back - 1;
        let equal = is_equal(alloc, language, &notes[before], &inner[after])?;
        if !equal {
            return Ok(back);
        }
    }
    Ok(most)
}
