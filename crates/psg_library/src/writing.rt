//! The bytes of a fragment.
ghost use Rattle.std.specs.Prelude.{◌≡◌, ◌∷◌, ◌++◌, [], IfOk, codes, string_bytes};
ghost use Rattle.psg_grammar.specs.Kinds.{HasKind};
ghost use Rattle.psg_grammar.specs.Sound.{IsSound};
ghost use Rattle.psg_library.specs.Keeping.{bytes_of};

use psg_grammar::{Definition, Kind, kind_name};
use psg_tree::Tree;
use psg_unparse::unparse;
use std::alloc::{AllocError, Global};

/// Writes a tree of the kind under the name: the line `fragment 2 NAME KIND`, a line feed, the printed text, a line
/// feed.
///
/// It returns out of memory also where 32 bits do not count the children of a node. It takes time linear in the text
/// and in the paths of the nodes, as `unparse` does.
pub fn fragment_bytes(
    alloc: Global,
    definition: &Definition,
    name: &str,
    kind: Kind,
    tree: &Tree,
) -> Result<Vec<u8>, AllocError>
    requires sound { IsSound definition.now }
    requires kind { HasKind definition.now kind }
    ensures { IfOk result (λ bytes. bytes.items
        ≡ bytes_of definition.now (record { name = name.now; kind = kind; tree = tree.now })) }
{
    let printed = unparse(alloc, definition, tree)?;
    let word = kind_name(definition, kind);
    let text = printed.text.as_str();
    let bytes = kept_text(alloc, name, word, text)?;
    Ok(bytes.into_bytes())
}

/// Returns the head line with the name and the word, and the text on lines of its own.
fn kept_text(alloc: Global, name: &str, word: &str, text: &str) -> Result<String, AllocError>
    ensures { IfOk result (λ bytes. string_bytes bytes
        ≡ codes "fragment 2 " ++ (name.now ++ 32 ∷ (word.now ++ 10 ∷ (text.now ++ 10 ∷ [])))) }
{
    format!(in alloc; "fragment 2 {name} {word}\n{text}\n")
}
