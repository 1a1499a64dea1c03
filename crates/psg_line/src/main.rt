//! `psg_line COLS HISTORY [WORD..] [-- WORD..]`: a prompt at which lines are typed, which tools/live calls.
//!
//! It reads what a terminal sends, and writes what is told of the keys, as `psg_prompt` says. COLS are the columns of the
//! terminal, HISTORY is a file of earlier lines, which need not be there. Tab completes the words: those before `--` where
//! a line begins, and the others after that.
#![tactic(auto)]

ghost use Rattle.std.specs.Prelude.{◌≡◌, IfOk, chars};

use psg_prompt::{Ending, Prompt, Words, run};
use psg_world::{Files, HostFiles, HostSink, Pieces, ReaderPieces, Sink};
use std::alloc::{AllocError, Global};
use std::env;
use std::process::ExitCode;

/// The most bytes of earlier lines that are read.
const MOST_BYTES: usize = 1_000_000;

/// The greatest number of columns.
const MOST_COLS: u32 = 10_000;

/// Returns the characters of the text.
fn chars_of(alloc: Global, text: &str) -> Result<Vec<char>, AllocError>
    ensures { IfOk result (λ all. all.items ≡ chars text.now) }
{
    text.chars().collect(alloc)
}

/// Returns the words that are completed: those before `--`, and those after it.
fn words_of(alloc: Global, words: &[String]) -> Result<Words, AllocError> {
    let mut first = Vec::new(alloc);
    let mut others = Vec::new(alloc);
    let mut is_behind = false;
    for word in words {
        if word.as_str() == "--" {
            is_behind = true;
            continue;
        }
        let text = chars_of(alloc, word.as_str())?;
        if is_behind {
            others.push(text)?;
        } else {
            first.push(text)?;
        }
    }
    Ok(Words::new(first, others))
}

/// Returns the earlier lines; none where the file cannot be read, or is no text.
fn history_of<F: Files>(
    alloc: Global,
    name: &str,
    files: &mut F,
) -> Result<Option<Vec<char>>, AllocError> {
    let Ok(bytes) = files.read(alloc, name, MOST_BYTES) else {
        return Ok(None);
    };
    let Ok(text) = str::from_utf8(bytes.as_slice()) else {
        return Ok(None);
    };
    Ok(Some(chars_of(alloc, text)?))
}

/// Returns the prompt, with its earlier lines.
fn prompt_of<F: Files>(
    alloc: Global,
    cols: u32,
    history: &str,
    words: &[String],
    files: &mut F,
) -> Result<Prompt, AllocError> {
    let words = words_of(alloc, words)?;
    let mut prompt = Prompt::new(alloc, words, cols.min(MOST_COLS));
    if let Some(text) = history_of(alloc, history, files)? {
        prompt.remember(alloc, text.as_slice())?;
    }
    Ok(prompt)
}

/// Runs the prompt, and returns the status.
fn answer<F: Files, P: Pieces, O: Sink>(
    alloc: Global,
    words: &[String],
    files: &mut F,
    input: &mut P,
    out: &mut O,
) -> u8 {
    let [cols, history, words @ ..] = words else {
        return 2;
    };
    let Ok(cols) = cols.as_str().parse::<u32>() else {
        return 2;
    };
    let Ok(mut prompt) = prompt_of(alloc, cols, history.as_str(), words, files) else {
        return 5;
    };
    match run(alloc, &mut prompt, input, out) {
        Ending::Done => 0,
        Ending::ReadFault => 3,
        Ending::WriteFault => 4,
        Ending::Memory => 5,
    }
}

fn main(rt: HostRuntime) -> ExitCode {
    let alloc = rt.alloc();
    let Ok(words) = env::args(&rt) else {
        return ExitCode::from(5);
    };
    let Ok(words) = words.skip(1).collect::<Vec<String>>(alloc) else {
        return ExitCode::from(5);
    };
    let mut files = HostFiles::new(alloc, &rt);
    let mut input = ReaderPieces::new(alloc, rt.reader());
    let mut out = HostSink::new(&rt);
    let status = answer(alloc, words.as_slice(), &mut files, &mut input, &mut out);
    ExitCode::from(status)
}
