//! Laws of the plain editor, as contracts of calls that do nothing.
ghost use Rattle.std.specs.List.{AllByRecursion};
ghost use Rattle.psg_class.specs.Class.{IsClass};
ghost use Rattle.psg_grammar.specs.Legal.{IsCompletable};
ghost use Rattle.psg_grammar.specs.Sound.{IsSound};
ghost use Rattle.psg_grammar.specs.WellFormed.{fixed_words};
ghost use Rattle.psg_lexis.specs.Tokens.{IsFixedWord};
ghost use Rattle.psg_session.specs.Good.{IsGoodIn};
ghost use Rattle.psg_session.specs.Laws.{HasOneStep, KeepsForm, ShownReadsBack, StepsByCompletions};
ghost use Rattle.psg_session.specs.SomeStep.{HasSomeStep};
ghost use Rattle.psg_specimen.specs.Refusal.{IsAccepted};

use psg_grammar::Definition;

/// States that a command has at most one step, where no text is read as two trees. It does nothing at run time.
pub fn one_step(definition: &Definition)
    requires sound { IsSound definition.now }
    requires class { IsClass definition.now }
    ensures { HasOneStep definition.now (IsCompletable definition.now) }
{}

/// States that a command leads from a state whose trees are printable and of their kinds, and whose cursor is at a
/// node, to such a state. So all states that an editor reaches are of this form. It does nothing at run time.
pub fn forms_are_kept(definition: &Definition)
    requires sound { IsSound definition.now }
    requires accepted { IsAccepted definition.now }
    ensures { KeepsForm definition.now (IsGoodIn definition.now) }
{}

/// States that the steps by the open judgement are those by legal completions: marks, culprits and refusals speak of
/// programs. It does nothing at run time.
pub fn steps_by_completions(definition: &Definition)
    requires sound { IsSound definition.now }
    requires accepted { IsAccepted definition.now }
    ensures { StepsByCompletions definition.now }
{}

/// States that in each state of this form the printed text of the opened fragment reads back as its tree: what `show`
/// writes is the same fragment again. It does nothing at run time.
pub fn shown_reads_back(definition: &Definition)
    requires sound { IsSound definition.now }
    requires words { AllByRecursion IsFixedWord (fixed_words definition.now) }
    requires class { IsClass definition.now }
    ensures { ShownReadsBack definition.now }
{}

/// States that no command lacks a step: from each state of this form, and with each answer that the files may give to
/// what the command asks, it is refuted that there is no next state with a reply. With `one_step` there is exactly one,
/// by excluded middle, which no proof here uses. So what is said of all steps speaks of something. It does nothing at
/// run time.
pub fn some_step(definition: &Definition)
    requires sound { IsSound definition.now }
    requires words { AllByRecursion IsFixedWord (fixed_words definition.now) }
    requires class { IsClass definition.now }
    ensures legal { HasSomeStep definition.now (IsCompletable definition.now) }
    ensures open { HasSomeStep definition.now (IsGoodIn definition.now) }
{}
