// An input in memory, of which some lines are to fail.
ghost use Rattle.std.specs.Prelude.{◌≡◌, ◌≤◌, ◌+◌, [], false, Some, IsTrue, IfOk, IfSome, OnOk, IsErrOf, vec_len};
ghost use Rattle.psg_world.specs.Inputs.{GivesNext, given_after, missed_after, lines_from};
ghost use Rattle.psg_world.specs.Memory.{is_due};

use crate::input::Input;
use crate::store::copy_front;
use crate::tally::Tally;
use crate::world::ReadStop;
use std::alloc::Global;
use std::marker::Model;

/// An input in memory, of which some lines can't be read.
#[derive(Drop)]
pub struct MemInput {
    lines: Vec<Vec<u8>>,
    failing: Vec<u64>,
    tally: Tally,
}

impl Model for MemInput {
    ghost use Rattle.psg_world.specs.Inputs.{InputInMemory, lines_from};

    ghost Value = { InputInMemory };

    ghost view = { λ input. record {
      lines = lines_from input.tally.given input.lines.items;
      failing = input.failing.items;
      given = input.tally.given;
      missed = input.tally.missed.items;
    } };
}

impl MemInput {
    /// Makes an input that gives these lines. They are numbered from 1, and the end has the number after
    /// the last; `failing` has the numbers of those that can't be read. Takes no memory; `alloc`
    /// keeps the entries of the reads that fail.
    pub fn new(alloc: Global, lines: Vec<Vec<u8>>, failing: Vec<u64>) -> Self
        ensures lines { result.lines ≡ lines_from 0 lines.items }
        ensures failing { result.failing ≡ failing.items }
        ensures none_given { result.given ≡ 0 }
        ensures no_faults { result.missed ≡ [] }
    {
        Self {
            lines,
            failing,
            tally: Tally::new(alloc),
        }
    }
}

impl Input for MemInput {
    ghost lines = { λ input. Some input.lines };

    ghost given = { λ input. input.given };

    ghost missed = { λ input. input.missed };

    /// Fails exactly where the number of the line is among those that can't be read, unless memory
    /// runs out; no line is lost by that. A walk over the numbers and over the line.
    fn next_line(&mut self, alloc: Global, limit: usize) -> Result<Option<Vec<u8>>, ReadStop>
        ensures gives { IfOk result (GivesNext limit (Some self.old.lines) (Some self.new.lines)) }
        ensures within { IfOk result (λ line. IfSome line (λ bytes. vec_len bytes ≤ limit + 1)) }
        ensures counted { self.new.given ≡ given_after self.old.given result }
        ensures entries { self.new.missed ≡ missed_after self.old.missed self.old.given result }
        ensures numbers { self.new.failing ≡ self.old.failing }
        ensures read { OnOk result (is_due self.old.failing self.old.given ≡ false) }
        ensures failed { IsErrOf result ReadStop.Failed
            → IsTrue (is_due self.old.failing self.old.given) }
    {
        self.tally.missed.try_reserve(1)?;
        let number = self.tally.given.saturating_add(1);
        if self.failing.contains(&number) {
            self.tally.keep();
            return Err(ReadStop::Failed);
        }
        match self.lines.get(self.tally.given as usize) {
            Some(line) => {
                let front = copy_front(alloc, line.as_slice(), limit)?;
                self.tally.count();
                Ok(Some(front))
            }
            None => Ok(None),
        }
    }
}
