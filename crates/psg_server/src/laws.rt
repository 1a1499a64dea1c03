//! Laws of the server, as contracts of calls that do nothing.
ghost use Rattle.psg_grammar.specs.declared.types.Kind.{Kind as PlainKind};
ghost use Rattle.psg_server.specs.Apart.{KeepsApart, KeepsOthers};
ghost use Rattle.psg_server.specs.Texts.{KeepsLast};

use crate::judging::Defined;

/// States that a document whose address a message does not name is the same after it. The call has no cost.
pub fn others_stay(defined: &Defined)
    ensures { (kind : PlainKind) → KeepsOthers defined.now kind }
{
    let _own = defined.language.definition();
}

/// States that the text that a document has is the last one that a message sent for its address, where no document was
/// open before the messages. The call has no cost.
pub fn last_text_is_kept(defined: &Defined)
    ensures { (kind : PlainKind) → KeepsLast defined.now kind }
{
    let _own = defined.language.definition();
}

/// States that no two documents have one address after a message, where no two had one before it. The call has no cost.
pub fn addresses_stay_apart(defined: &Defined)
    ensures { (kind : PlainKind) → KeepsApart defined.now kind }
{
    let _own = defined.language.definition();
}
