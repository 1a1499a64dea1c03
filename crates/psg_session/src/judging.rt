//! The tests of what a command makes.
ghost use Rattle.std.specs.Prelude.{◌≡◌, ◌↔◌, [], Err, IsTrue};
ghost use Rattle.psg_grammar.specs.declared.types.Definition.{Definition};
ghost use Rattle.psg_grammar.specs.Fragments.{Fragment};
ghost use Rattle.psg_cache.specs.Blames.{culprits_in};
ghost use Rattle.psg_cache.specs.declared.note.NoteFault.TheVariants as faults;
ghost use Rattle.psg_session.specs.Outcomes.{IsJudged, IsNoted, MustBeGood};
ghost use Rattle.psg_session.specs.Shrinking.{IsSmallFor};
ghost use Rattle.psg_session.specs.Stops.{IfMemory};

use crate::refusal::Refusal;
use crate::stop::Stop;
use psg_cache::{Note, NoteFault};

/// How a command changes the fragment, which decides by what its tree is tested.
#[derive(Clone, Copy)]
pub enum Trial {
    /// It opens a new fragment, which may be too wide.
    Opens,
    /// It adds nodes: the tree may be too deep, too big, too wide or too heavy, and has to be good.
    Grows,
    /// It puts typed text in: the tree may be too deep, too big, too wide or too heavy.
    Types,
    /// It finishes a list: the tree may be too wide or too heavy, and has to be good.
    Closes,
    /// It takes something away or lets a list go on: the tree may be too wide or too heavy.
    Loosens,
}

/// Says whether the change must leave a good fragment, and the note's tree is not good.
fn is_inadmissible(trial: Trial, note: &Note) -> bool
    ensures { IsTrue result ↔ (MustBeGood trial × (culprits_in note.now ≡ [] → ⊥)) }
{
    match trial {
        Trial::Opens => false,
        Trial::Grows => !note.is_good(),
        Trial::Types => false,
        Trial::Closes => !note.is_good(),
        Trial::Loosens => false,
    }
}

/// Gives the note, where its tree passes the tests of the change; otherwise it is refused by the first test that it
/// fails. A limit that is not tested there is one that the tree cannot pass, since the change adds nothing. Memory is
/// the reason only where it ran out for the note.
pub fn judged(trial: Trial, noted: Result<Note, NoteFault>) -> Result<Note, Stop>
    ensures judged { (def : Definition) (f : Fragment) → IsNoted def f noted → IsSmallFor def trial f
        → IsJudged def trial f result }
    ensures memory { IfMemory result (noted ≡ Err faults.Memory) }
{
    let note = noted?;
    if is_inadmissible(trial, &note) {
        return Err(Stop::Refused(Refusal::Inadmissible));
    }
    Ok(note)
}
