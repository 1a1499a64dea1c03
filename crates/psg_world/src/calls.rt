// The count of calls, and which of them are to fail.
ghost use Rattle.std.specs.Prelude.{◌≡◌};
ghost use Rattle.psg_world.specs.Memory.{is_due};
ghost use Rattle.psg_world.specs.Sinks.{raised};

/// The count of calls, which are numbered from 1, and which of them are to fail.
#[derive(Drop)]
pub struct Calls {
    /// The numbers of the calls that are to fail.
    pub failing: Vec<u64>,
    /// How many calls were made. It stays at `u64::MAX`.
    pub made: u64,
}

impl Calls {
    /// Makes the count of no calls yet.
    pub fn new(failing: Vec<u64>) -> Self
        ensures failing { result.failing ≡ failing }
        ensures made { result.made ≡ 0 }
    {
        Self { failing, made: 0 }
    }

    /// Counts one more call, and says whether it is to fail. Past the last number that a `u64` has, each call has that
    /// number.
    pub fn next_fails(&mut self) -> bool
        ensures due { result ≡ is_due self.old.failing.items self.old.made }
        ensures failing { self.new.failing ≡ self.old.failing }
        ensures made { self.new.made ≡ raised self.old.made }
    {
        self.made = self.made.saturating_add(1);
        self.failing.contains(&self.made)
    }
}
