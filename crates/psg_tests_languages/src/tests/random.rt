//! Texts at random, from a fixed seed.
use std::alloc::{AllocError, Global};

/// Numbers that look random, by a linear congruential generator, of which the high bits count.
#[derive(Drop)]
pub(super) struct Random {
    state: u64,
}

impl Random {
    pub(super) fn new(seed: u64) -> Random {
        Random { state: seed }
    }

    fn next(&mut self) -> u64 {
        self.state = self
            .state
            .wrapping_mul(6_364_136_223_846_793_005)
            .wrapping_add(1_442_695_040_888_963_407);
        self.state >> 33
    }

    /// One of the items.
    fn pick<'a, T>(&mut self, items: &'a [T]) -> Option<&'a T> {
        let count = items.len() as u64;
        if count == 0 {
            return None;
        }
        let place = self.next() % count;
        items.get(place as usize)
    }
}

/// For each name the pieces that may be put in its place, in each way. The first way ends. A piece that is no name is
/// put as it is.
pub(super) type Rules<'a> = &'a [(&'a str, &'a [&'a [&'a str]])];

fn ways<'a>(rules: Rules<'a>, piece: &str) -> Option<&'a [&'a [&'a str]]> {
    for (name, ways) in rules {
        if *name == piece {
            return Some(*ways);
        }
    }
    None
}

/// A text that the name is replaced by. The given number of names are replaced at random, and then each one by its
/// first way.
pub(super) fn text<'a>(
    alloc: Global,
    random: &mut Random,
    rules: Rules<'a>,
    name: &'a str,
    choices: u32,
) -> Result<String, AllocError> {
    let mut text = String::new(alloc);
    let mut chosen = 0u32;
    // what is still to be written, the next piece last
    let mut pieces = vec![in alloc; name]?;
    for _ in 0..1_000 {
        let Some(piece) = pieces.pop() else {
            return Ok(text);
        };
        let Some(ways) = ways(rules, piece) else {
            text.push_str(piece)?;
            text.push(' ')?;
            continue;
        };
        let way = if chosen < choices {
            random.pick(ways)
        } else {
            ways.first()
        };
        chosen = chosen.saturating_add(1);
        let Some(way) = way else {
            return Err(AllocError);
        };
        for next in way.iter().rev() {
            pieces.push(*next)?;
        }
    }
    Err(AllocError)
}
