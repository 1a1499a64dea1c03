//! Two lists of spaces made one.
ghost use Rattle.std.specs.Prelude.{◌≡◌, ◌||◌, ℕ, IfOk, MatchOption};
ghost use Rattle.psg_scope.specs.Headers.{AreAscending, has_space};
ghost use Rattle.psg_scope.specs.Spaces.{AreEmpty, IsLeast};

use std::alloc::{AllocError, Global};

/// The least space of two lists, and what both are after it.
#[derive(Drop)]
struct Least<'a> {
    space: u32,
    left: &'a [u32],
    right: &'a [u32],
}

fn first_of<'a>(left: &'a [u32], right: &'a [u32]) -> Option<Least<'a>>
    ensures { MatchOption result (AreEmpty left.now right.now)
        (λ l. IsLeast left.now right.now l.space l.left.now l.right.now) }
{
    let Some((one, lefts)) = left.split_first() else {
        let Some((two, rights)) = right.split_first() else {
            return None;
        };
        return Some(Least {
            space: *two,
            left,
            right: rights,
        });
    };
    let Some((two, rights)) = right.split_first() else {
        return Some(Least {
            space: *one,
            left: lefts,
            right,
        });
    };
    if one < two {
        return Some(Least {
            space: *one,
            left: lefts,
            right,
        });
    }
    if two < one {
        return Some(Least {
            space: *two,
            left,
            right: rights,
        });
    }
    Some(Least {
        space: *one,
        left: lefts,
        right: rights,
    })
}

/// Returns the spaces of two ascending lists, ascending.
pub(crate) fn union(alloc: Global, left: &[u32], right: &[u32]) -> Result<Vec<u32>, AllocError>
    requires left { AreAscending left.now }
    requires right { AreAscending right.now }
    ensures spaces { IfOk result (λ v. (s : ℕ)
        → has_space v.items s ≡ (has_space left.now s || has_space right.now s)) }
    ensures ascending { IfOk result (λ v. AreAscending v.items) }
{
    let mut all = Vec::with_capacity(alloc, left.len())?;
    let mut a = left;
    let mut b = right;
    while let Some(found) = first_of(a, b) {
        all.push(found.space)?;
        a = found.left;
        b = found.right;
    }
    Ok(all)
}
