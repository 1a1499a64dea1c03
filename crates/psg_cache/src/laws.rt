//! Laws of notes, as contracts of calls that do nothing.
ghost use Rattle.std.specs.Prelude.{◌≤◌};
ghost use Rattle.psg_grammar.specs.Fragments.{Fragment};
ghost use Rattle.psg_grammar.specs.Work.{work_of};
ghost use Rattle.psg_grammar.specs.declared.types.Definition.{Definition as PlainDefinition};
ghost use Rattle.psg_cache.specs.AllSummaries.{HasAllSummaries};
ghost use Rattle.psg_cache.specs.Annotated.{Annotated};
ghost use Rattle.psg_cache.specs.Diff.{diff_of};
ghost use Rattle.psg_cache.specs.Notes.{IsFormed, IsNoteOf};

/// Shows that the note of a tree has a note of each node of the tree, with the summary of that node, and of a list a
/// summary for each of its suffixes, which is that of the suffix. The call has no cost.
pub fn all_summaries()
    ensures { (def : PlainDefinition) (f : Fragment) (n : Annotated) → IsNoteOf def f n → HasAllSummaries def f n }
{}

/// Shows that a change from any tree to a well-formed one takes no more evaluations than the new tree made from nothing.
/// The call has no cost.
pub fn no_more_than_anew()
    ensures { (def : PlainDefinition) (old new : Fragment) → IsFormed def new → diff_of old new ≤ work_of new }
{}
