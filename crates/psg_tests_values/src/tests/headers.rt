//! Headers that were worked out by hand.
ghost use Rattle.std.specs.Prelude.{IfOk};
ghost use Rattle.psg_scope.specs.Headers.{IsOrdered};

use psg_scope::{Header, NameCol, Names, close_region, header_of, join};
use psg_terms::{Seq, Txt};
use std::alloc::{AllocError, Global};
use std::test::Fail;

/// A position from its text: the space, the name and, where the position declares, `!`, as `0:x!`.
fn position(alloc: Global, text: &str) -> Result<NameCol, AllocError> {
    let (space, name) = text.split_once(':').ok_or(AllocError)?;
    let Ok(space) = space.parse::<u32>() else {
        return Err(AllocError);
    };
    Ok(NameCol {
        space,
        name: Txt::copy_of(alloc, name.trim_end_matches('!'))?,
        declared: name.ends_with('!'),
    })
}

/// The header of positions, as `0:x! 1:y`.
fn positions(alloc: Global, text: &str) -> Result<Header, AllocError>
    ensures { IfOk result IsOrdered }
{
    let mut cols = Vec::new(alloc);
    for word in text.split_whitespace() {
        cols.push(position(alloc, word)?)?;
    }
    let made = header_of(alloc, cols.as_slice())?;
    Ok(made)
}

/// The header of a list without elements that is unfinished in the space.
fn unfinished(alloc: Global, space: u32) -> Result<Header, AllocError>
    ensures { IfOk result IsOrdered }
{
    let spaces = vec![in alloc; space]?;
    Ok(Header {
        names: Names::none(),
        unfinished: Seq::of(spaces),
        twice: false,
    })
}

/// The header of positions, or of an unfinished list, as `more 0`.
fn part(alloc: Global, text: &str) -> Result<Header, AllocError>
    ensures { IfOk result IsOrdered }
{
    let Some(space) = text.strip_prefix("more ") else {
        return positions(alloc, text);
    };
    match space.parse::<u32>() {
        Ok(space) => unfinished(alloc, space),
        Err(_) => Err(AllocError),
    }
}

/// The header of a part, or of two with `&` between them.
fn header(alloc: Global, text: &str) -> Result<Header, AllocError>
    ensures { IfOk result IsOrdered }
{
    let Some((left, right)) = text.split_once(" & ") else {
        return part(alloc, text);
    };
    let left = part(alloc, left)?;
    let right = part(alloc, right)?;
    let both = join(alloc, &left, &right)?;
    Ok(both.header)
}

/// The keys with `!` after those that are declared, the unfinished spaces, and `twice`.
fn text_of(alloc: Global, header: &Header) -> Result<String, AllocError> {
    let mut text = String::new(alloc);
    for col in header.names.as_slice() {
        let mark = if col.declared { "!" } else { "" };
        write!(text, "{}:{}{mark} ", col.space, col.name)?;
    }
    for space in header.unfinished.as_slice() {
        write!(text, "{space} ")?;
    }
    if header.twice {
        text.push_str("twice")?;
    }
    Ok(text)
}

// By the bytes of the names and then by the spaces; a use and a declaration of one key are one.
#[test]
fn of_positions(rt: HostRuntime) -> Result<(), Fail> {
    for (text, expected) in [
        ("", ""),
        ("0:z 1:y 0:y! 0:ya", "0:y! 1:y 0:ya 0:z "),
        ("0:x 0:x! 0:x", "0:x! "),
        ("0:x! 1:x! 0:x!", "0:x! 1:x! twice"),
    ] {
        let made = header(rt.alloc(), text)?;
        let shown = text_of(rt.alloc(), &made)?;
        assert_eq!(rt; shown.as_str(), expected, "{text}");
    }
    Ok(())
}

/// The texts of the joined header and of what passes outward from it, with a bar between them.
fn joined(alloc: Global, left: &str, right: &str) -> Result<String, AllocError> {
    let left = header(alloc, left)?;
    let right = header(alloc, right)?;
    let both = join(alloc, &left, &right)?;
    let outward = close_region(alloc, &both.header)?;
    let inside = text_of(alloc, &both.header)?;
    let outside = text_of(alloc, &outward.header)?;
    format!(in alloc; "{inside}|{outside}")
}

// What may still be declared does not pass outward, in its space alone.
#[test]
fn of_regions(rt: HostRuntime) -> Result<(), Fail> {
    for (left, right, expected) in [
        ("0:x", "0:x! 0:y", "0:x! 0:y |0:y "),
        ("0:x! 0:y", "0:x", "0:x! 0:y |0:y "),
        ("0:x! 0:y", "0:x! 0:y", "0:x! 0:y twice|0:y "),
        ("0:w 0:x! 0:y", "0:w 0:x", "0:w 0:x! 0:y |0:w 0:y "),
        ("0:w 0:x", "0:w 0:x! 0:y", "0:w 0:x! 0:y |0:w 0:y "),
        ("0:w 0:x 0:y", "0:x!", "0:w 0:x! 0:y |0:w 0:y "),
        ("0:x!", "0:w 0:x 0:y", "0:w 0:x! 0:y |0:w 0:y "),
        ("0:w 0:x! 0:y", "0:x!", "0:w 0:x! 0:y twice|0:w 0:y "),
        ("0:x! 0:y", "1:x", "0:x! 1:x 0:y |1:x 0:y "),
        ("", "0:x! 0:y", "0:x! 0:y |0:y "),
        ("0:x & 0:x! 0:y", "more 0", "0:x! 0:y 0 |"),
        ("more 1", "0:x & 0:x! 0:y", "0:x! 0:y 1 |0:y "),
        ("more 1", "more 0", "0 1 |"),
        ("more 0", "more 0", "0 |"),
    ] {
        let text = joined(rt.alloc(), left, right)?;
        assert_eq!(rt; text.as_str(), expected, "{left} and {right}");
    }
    Ok(())
}

#[test]
fn places(rt: HostRuntime) -> Result<(), Fail> {
    let left = header(rt.alloc(), "0:b 0:d!")?;
    let right = header(rt.alloc(), "0:a 0:b! 0:e")?;
    let both = join(rt.alloc(), &left, &right)?;
    let shown = text_of(rt.alloc(), &both.header)?;
    assert_eq!(rt; shown.as_str(), "0:a 0:b! 0:d! 0:e ");
    assert!(rt; both.left.as_slice() == [1, 2].as_slice());
    assert!(rt; both.right.as_slice() == [0, 1, 3].as_slice());
    let outward = close_region(rt.alloc(), &both.header)?;
    assert!(rt; outward.kept.as_slice() == [0, 3].as_slice());
    Ok(())
}

// Where one side has all keys of the other, its own keys are at 0, 1, 2, ..
#[test]
fn places_inside(rt: HostRuntime) -> Result<(), Fail> {
    let long = header(rt.alloc(), "0:a 0:b! 0:d 0:e")?;
    let short = header(rt.alloc(), "0:b 0:e")?;
    let both = join(rt.alloc(), &long, &short)?;
    assert!(rt; both.left.as_slice() == [0, 1, 2, 3].as_slice());
    assert!(rt; both.right.as_slice() == [1, 3].as_slice());
    let turned = join(rt.alloc(), &short, &long)?;
    assert!(rt; turned.left.as_slice() == [1, 3].as_slice());
    assert!(rt; turned.right.as_slice() == [0, 1, 2, 3].as_slice());
    Ok(())
}
