//! The node that a command names.
ghost use Rattle.std.specs.Prelude.{◌≡◌, IfErr, IfOk};
ghost use Rattle.psg_session.specs.Outcomes.{IsTarget, HasNoTarget};
ghost use Rattle.psg_session.specs.PlainState.{named_path};

use crate::editor::{Editor, OpenedTree};
use crate::refusal::Refusal;
use psg_script::Where;
use psg_tree::{Path, Tree, at};

/// The node that a command names: the opened fragment, the path of the place, and the node there.
#[derive(Clone, Copy)]
pub struct Target<'a> {
    /// The opened fragment.
    pub held: &'a OpenedTree,
    /// The path from its root to the node.
    pub path: &'a Path,
    /// The node at the path.
    pub node: &'a Tree,
}

/// Returns the path that a command names.
fn path_named<'a>(place: &'a Where, cursor: &'a Path) -> &'a Path
    ensures { result.now ≡ named_path place.now cursor.now }
{
    match place {
        Where::Cursor => cursor,
        Where::At(path) => path,
    }
}

/// Finds the node of the place. It is refused with `NothingOpened` where nothing is opened, and with `NoNode` where no
/// node is there.
pub fn find<'a>(editor: &'a Editor, place: &'a Where) -> Result<Target<'a>, Refusal>
    ensures ok { IfOk result (IsTarget editor.now place.now) }
    ensures err { IfErr result (HasNoTarget editor.now place.now) }
{
    let Some(held) = &editor.opened else {
        return Err(Refusal::NothingOpened);
    };
    let path = path_named(place, &editor.cursor);
    match at(held.note.tree(), path) {
        Some(node) => Ok(Target { held, path, node }),
        None => Err(Refusal::NoNode),
    }
}
