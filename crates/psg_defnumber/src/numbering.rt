//! The definition that lines are together.
ghost use Rattle.std.specs.Prelude.{◌≡◌, IfOk, []};
ghost use Rattle.std.specs.List.{AllByRecursion};
ghost use Rattle.psg_terms.specs.Sound.{IsSound};
ghost use Rattle.psg_deflines.specs.Entries.{IsPlain, written};
ghost use Rattle.psg_defcheck.specs.Faults.{ArePassed};
ghost use Rattle.psg_defnumber.specs.Numbers.{IsNumbered};
ghost use Rattle.psg_defnumber.specs.Soundness.{AreOfFile};
ghost use Rattle.psg_defnumber.specs.Stages.{IsDeclared};

use crate::holes::{declare_rows, hole_rows};
use crate::kinds::{lists, phyla, spaces};
use crate::list_rows::fill_lists;
use crate::operators::operators;
use crate::signatures::signature;
use psg_defcheck::CheckedLines;
use psg_deflines::Line;
use psg_grammar::Definition;
use psg_terms::{Seq, Signature};
use std::alloc::{AllocError, Global};

/// Makes a definition of the sorts alone.
fn of_sorts(alloc: Global, version: u32, signature: Signature) -> Definition
    ensures { result ≡ record {
      version = version;
      signature = signature;
      spaces = [];
      phyla = [];
      lists = [];
      operators = [];
      hole_rows = [];
      declare_rows = [];
    } }
{
    Definition {
        version,
        signature,
        spaces: Seq::of(Vec::new(alloc)),
        phyla: Seq::of(Vec::new(alloc)),
        lists: Seq::of(Vec::new(alloc)),
        operators: Seq::of(Vec::new(alloc)),
        hole_rows: Seq::of(Vec::new(alloc)),
        declare_rows: Seq::of(Vec::new(alloc)),
    }
}

/// Makes all but the rows of holes and of declared names, each part from those that are made before it.
fn declared(
    alloc: Global,
    version: u32,
    checked: &CheckedLines,
    entries: &[Option<Line>],
) -> Result<Definition, AllocError>
    requires lines { written entries.now ≡ checked.now }
    requires passed { ArePassed checked.now [] checked.now }
    requires few { AreOfFile checked.now }
    ensures { IfOk result (IsDeclared version (written entries.now)) }
{
    let signature = signature(alloc, entries)?;
    signature.sound();
    let mut definition = of_sorts(alloc, version, signature);
    let spaces = spaces(alloc, checked, entries)?;
    definition.spaces = Seq::of(spaces);
    let phyla = phyla(alloc, checked, entries)?;
    definition.phyla = Seq::of(phyla);
    let mut lists = lists(alloc, checked, entries)?;
    fill_lists(alloc, &definition, checked, &mut lists, entries)?;
    definition.lists = Seq::of(lists);
    let operators = operators(alloc, &definition, checked, entries)?;
    definition.operators = Seq::of(operators);
    Ok(definition)
}

/// Returns the definition of the version that the lines are together. Each line passes the tests of its form and of its
/// meaning, and the file has fewer than 2^32 bytes. The one error is memory that runs out. It takes time linear in the
/// lines except for the look-ups of names, each of which is one look-up in a table.
pub fn numbered(
    alloc: Global,
    version: u32,
    checked: &CheckedLines,
) -> Result<Definition, AllocError>
    requires plain { AllByRecursion (IsPlain version) checked.now }
    requires few { AreOfFile checked.now }
    ensures numbered { IfOk result (IsNumbered version checked.now) }
    ensures signature { IfOk result (λ d. IsSound d.signature) }
{
    let entries = checked.entries();
    let mut definition = declared(alloc, version, checked, entries)?;
    let holes = hole_rows(alloc, &definition, checked, entries)?;
    let declares = declare_rows(alloc, &definition, checked, entries)?;
    definition.hole_rows = Seq::of(holes);
    definition.declare_rows = Seq::of(declares);
    Ok(definition)
}
