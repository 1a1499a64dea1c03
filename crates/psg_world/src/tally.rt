// What is kept of what an input gave.
ghost use Rattle.std.specs.Prelude.{◌≡◌, ◌<◌, ◌++◌, ◌∷◌, [], vec_len, vec_capacity};
ghost use Rattle.psg_world.specs.Sinks.{raised, raised_by};

use std::alloc::Global;

/// What is kept of the lines of an input, or of its bytes where it gives them by pieces.
#[derive(Drop)]
pub struct Tally {
    /// How many were given. It stays at `u64::MAX`.
    pub given: u64,
    /// For each read that failed how many were given before it.
    pub missed: Vec<u64>,
}

impl Tally {
    /// Makes the tally of an input that gave nothing yet. It takes no memory.
    pub fn new(alloc: Global) -> Self
        ensures given { result.given ≡ 0 }
        ensures missed { result.missed.items ≡ [] }
    {
        Self {
            given: 0,
            missed: Vec::new(alloc),
        }
    }

    /// Counts one more line. Past the last number that a `u64` has the count stays.
    pub fn count(&mut self)
        ensures given { self.new.given ≡ raised self.old.given }
        ensures missed { self.new.missed ≡ self.old.missed }
    {
        self.given = self.given.saturating_add(1);
    }

    /// Counts that many more bytes. At the last number that a `u64` has the count stays.
    pub fn count_bytes(&mut self, more: usize)
        ensures given { self.new.given ≡ raised_by self.old.given more }
        ensures missed { self.new.missed ≡ self.old.missed }
    {
        self.given = self.given.saturating_add(more as u64);
    }

    /// Keeps that a read failed, where room was taken before.
    pub fn keep(&mut self)
        requires { vec_len self.old.missed < vec_capacity self.old.missed }
        ensures given { self.new.given ≡ self.old.given }
        ensures missed { self.new.missed.items ≡ self.old.missed.items ++ self.old.given ∷ [] }
    {
        self.missed.push(self.given).unwrap();
    }
}
