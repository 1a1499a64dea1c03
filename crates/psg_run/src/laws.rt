//! Laws of the promise of `run`, as contracts of calls that do nothing.
ghost use Rattle.std.specs.Prelude.{◌≡◌, ℕ, List};
ghost use Rattle.std.specs.List.{AllByRecursion};
ghost use Rattle.psg_class.specs.Class.{IsClass};
ghost use Rattle.psg_grammar.specs.Sound.{IsSound};
ghost use Rattle.psg_grammar.specs.WellFormed.{fixed_words};
ghost use Rattle.psg_grammar.specs.declared.types.Definition.{Definition as Plain};
ghost use Rattle.psg_lexis.specs.Tokens.{IsFixedWord};
ghost use Rattle.psg_run.specs.ExportLaws.{HasOneExport, WritesNoOther};
ghost use Rattle.psg_run.specs.FormatLaws.{FormatsOnce};
ghost use Rattle.psg_run.specs.Outputs.{ArrangedReadsBack, EndsWell, HasOneOutput, HasOneRun, HasSomeOutput};
ghost use Rattle.psg_run.specs.Outputs.{KeepsForms, LeavesFiles, RepliesAlike};
ghost use Rattle.psg_run.specs.Reading.{IsAccepted as IsAcceptedText, IsFileRefusalLine};
ghost use Rattle.psg_run.specs.WindowLaws.{HasOneWindowOutput, HasSomeWindowOutput};
ghost use Rattle.psg_run.specs.WindowLaws.{RefusalsMoveNothing, WindowsArePlain, WindowsStandAtNodes};
ghost use Rattle.psg_specimen.specs.Refusal.{IsAccepted};

use psg_defread::laws::one_fault;
use psg_grammar::Definition;

/// States that the plain editor gives each script one output, where no text is read as two trees. The call has no
/// cost.
pub fn one_output(definition: &Definition)
    requires sound { IsSound definition.now }
    requires class { IsClass definition.now }
    ensures { HasOneOutput definition.now }
{}

/// States that no script lacks an output, whatever the files hold and whichever of their calls fail: that there is
/// none is refuted. With `one_output` there is exactly one, by excluded middle. So what is said of the output of a run
/// speaks of something. The call has no cost.
pub fn some_output(definition: &Definition)
    requires sound { IsSound definition.now }
    requires words { AllByRecursion IsFixedWord (fixed_words definition.now) }
    requires accepted { IsAccepted definition.now }
    ensures { HasSomeOutput definition.now }
{}

/// States that the trees of all states that a script reaches are printable and of their kinds. The call has no cost.
pub fn forms_are_kept(definition: &Definition)
    requires sound { IsSound definition.now }
    requires accepted { IsAccepted definition.now }
    ensures { KeepsForms definition.now }
{}

/// States that bytes are one accepted definition at most, and that bytes which are one have no line that refuses them.
/// The call has no cost.
pub fn one_definition()
    ensures one { (bytes : List ℕ) (def other : Plain) → IsAcceptedText bytes def → IsAcceptedText bytes other
        → other ≡ def }
    ensures not_both { (bytes line : List ℕ) (def : Plain) → IsAcceptedText bytes def
        → IsFileRefusalLine bytes line → ⊥ }
{}

/// States that a run for which nothing goes wrong outside ends well, or is out of memory: its definition is accepted,
/// its files are short, a layout has no fault, and no read of its own and no put failed. The call has no cost.
pub fn ends_well()
    ensures { EndsWell }
{}

/// States that what `layout` puts of an opened fragment reads back as the fragment, and has the tokens of its plain
/// text. The call has no cost.
pub fn arranged_reads_back(definition: &Definition)
    requires sound { IsSound definition.now }
    requires words { AllByRecursion IsFixedWord (fixed_words definition.now) }
    requires accepted { IsAccepted definition.now }
    ensures { ArrangedReadsBack definition.now }
{}

/// States that lines which are read from an input are replied to as those of a script. The call has no cost.
pub fn live_as_script(definition: &Definition)
    ensures { RepliesAlike definition.now }
{}

/// States that `gen` leaves the files as they were, whatever its status is. The call has no cost.
pub fn gen_leaves_files()
    ensures { LeavesFiles }
{}

/// States that `self` writes no file but its own, once the commands of its script are played. The call has no cost.
pub fn self_writes_no_other()
    ensures { WritesNoOther }
{}

/// States that two runs of `self` with one script and one file, with status 0 and over files that held the same, write
/// the same and leave the same files, if no call of the files failed. The definition is that of the language of
/// definitions, if it is accepted. The call has no cost.
pub fn one_export(definition: &Definition)
    requires sound { IsSound definition.now }
    requires class { IsClass definition.now }
    ensures { HasOneExport definition.now }
{
    one_fault();
}

/// States that two runs of `edit` on the definition, or two of `windows`, or two of `layout`, with status 0 and over
/// files that held the same, write the same and leave the same files, if no call of the files failed. The call has no
/// cost.
pub fn one_run(definition: &Definition)
    requires sound { IsSound definition.now }
    requires class { IsClass definition.now }
    ensures { HasOneRun definition.now }
{}

/// States that lines of windows are commands of the plain editor, one after the other. Each line that spells a command
/// for a window is that command, with the window's cursor in place of `.`; any other line is refused with 1 and
/// changes nothing. What is put is the replies in order, each line of a reply to a window after its digit and a space.
/// The call has no cost.
pub fn windows_are_plain(definition: &Definition)
    ensures { WindowsArePlain definition.now }
{}

/// States that a line of a window which is refused leaves the editor and the cursors of all windows as they were. The
/// call has no cost.
pub fn refusals_move_nothing(definition: &Definition)
    ensures { RefusalsMoveNothing definition.now }
{}

/// States that lines of windows lead to states whose trees are printable and of their kinds, and leave the cursor of
/// each window at a node of the opened program; if nothing is opened, all cursors are at the top. The call has no
/// cost.
pub fn windows_stand_at_nodes(definition: &Definition)
    requires sound { IsSound definition.now }
    requires accepted { IsAccepted definition.now }
    ensures { WindowsStandAtNodes definition.now }
{}

/// States that the plain editor gives lines of windows one output and leads them to one state with the same cursors,
/// if no text is read as two trees. The call has no cost.
pub fn one_window_output(definition: &Definition)
    requires sound { IsSound definition.now }
    requires class { IsClass definition.now }
    ensures { HasOneWindowOutput definition.now }
{}

/// States that no lines of windows lack an output, whatever the files hold and whichever of their calls fail: that
/// there is none is refuted. The call has no cost.
pub fn some_window_output(definition: &Definition)
    requires sound { IsSound definition.now }
    requires words { AllByRecursion IsFixedWord (fixed_words definition.now) }
    requires accepted { IsAccepted definition.now }
    ensures { HasSomeWindowOutput definition.now }
{}

/// States that what `format` writes of a program file is that program again, and is as it is to be itself. So nothing
/// is lost, and to format twice is to format once. The call has no cost.
pub fn formats_once(definition: &Definition)
    requires sound { IsSound definition.now }
    requires words { AllByRecursion IsFixedWord (fixed_words definition.now) }
    requires accepted { IsAccepted definition.now }
    ensures { FormatsOnce definition.now }
{}
