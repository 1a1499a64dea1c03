//! Histories by scripts of their calls.
use psg_history::{History, Undone};
use std::alloc::{AllocError, Global};
use std::test::Fail;

fn put_answer(text: &mut String, answer: Undone<u32>) -> Result<(), AllocError> {
    match answer {
        Undone::Moved(value) => write!(text, "moved:{value} ")?,
        Undone::Nothing(value) => write!(text, "nothing:{value} ")?,
    }
    Ok(())
}

fn put_nearest(text: &mut String, nearest: Option<&u32>) -> Result<(), AllocError> {
    match nearest {
        Some(value) => write!(text, "{value} ")?,
        None => text.push_str("none ")?,
    }
    Ok(())
}

/// Calls with a value, as `push:1`.
fn call_with(history: &mut History<u32>, text: &mut String, word: &str) -> Result<(), AllocError> {
    let (call, value) = word.split_once(':').ok_or(AllocError)?;
    let Ok(value) = value.parse::<u32>() else {
        return Err(AllocError);
    };
    match call {
        "push" => {
            history.push(value);
            Ok(())
        }
        "undo" => put_answer(text, history.undo(value)),
        "redo" => put_answer(text, history.redo(value)),
        _ => Err(AllocError),
    }
}

fn call(history: &mut History<u32>, text: &mut String, word: &str) -> Result<(), AllocError> {
    match word {
        "earlier" => write!(text, "{} ", history.earlier())?,
        "later" => write!(text, "{} ", history.later())?,
        "nearest_earlier" => put_nearest(text, history.nearest_earlier())?,
        "nearest_later" => put_nearest(text, history.nearest_later())?,
        "clear" => history.clear(),
        _ => call_with(history, text, word)?,
    }
    Ok(())
}

/// What the calls of a script answer, one after the other.
fn answers(alloc: Global, script: &str) -> Result<String, AllocError> {
    let mut history = History::new(alloc)?;
    let mut text = String::new(alloc);
    for word in script.split_whitespace() {
        call(&mut history, &mut text, word)?;
    }
    Ok(text)
}

#[test]
fn scripts(rt: HostRuntime) -> Result<(), Fail> {
    for (script, expected) in [
        // a new history has nothing
        (
            "earlier later nearest_earlier nearest_later undo:5 redo:5",
            "0 0 none none nothing:5 nothing:5 ",
        ),
        // redo takes an undo back
        (
            "push:1 nearest_earlier undo:2 nearest_later earlier later redo:1 redo:2",
            "1 moved:1 2 0 1 moved:2 nothing:2 ",
        ),
        // a push drops the later ones
        (
            "push:1 push:2 undo:3 later push:2 later redo:4 undo:4 undo:2",
            "moved:2 1 0 nothing:4 moved:2 moved:1 ",
        ),
        // clear drops all
        (
            "push:1 push:2 undo:3 clear undo:2 redo:2",
            "moved:2 nothing:2 nothing:2 ",
        ),
    ] {
        let text = answers(rt.alloc(), script)?;
        assert_eq!(rt; text.as_str(), expected, "{script}");
    }
    Ok(())
}

// Of forty versions the last thirty-two are kept, from 39 down to 8.
#[test]
fn the_oldest_are_dropped(rt: HostRuntime) -> Result<(), Fail> {
    let mut script = String::new(rt.alloc());
    for version in 0..40u32 {
        write!(script, "push:{version} ")?;
    }
    script.push_str("earlier ")?;
    let mut expected = String::from_str(rt.alloc(), "32 ")?;
    for step in 0..32u32 {
        let (current, moved) = (40 - step, 39 - step);
        write!(script, "undo:{current} ")?;
        write!(expected, "moved:{moved} ")?;
    }
    script.push_str("later undo:8 redo:8")?;
    expected.push_str("32 nothing:8 moved:9 ")?;
    let text = answers(rt.alloc(), script.as_str())?;
    assert_eq!(rt; text.as_str(), expected.as_str());
    Ok(())
}
