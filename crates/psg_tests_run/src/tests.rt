//! Runs over files and a sink in memory.
ghost use Rattle.std.specs.Prelude.{◌≡◌, ◌<◌};

mod arranged;
mod explained;
mod exported;
mod failures;
mod formatted;
mod generated;
mod kept;
mod limits;
mod sessions;
mod windows;

use psg_run::{Status, run};
use psg_terms::Steps;
use psg_world::{MemFiles, MemInput, MemSink};
use std::alloc::{AllocError, Global};
use std::marker::Brand;
use std::process::Abort;
use std::sync::ledger::{Blank, Ledger};

/// The script that opens a sum, and its output.
const SUM: &str = "new Exp\nrefine / plus\nshow\nrefine /0 tru\nshow\n";

const SUM_OUTPUT: &str = "ok\nok\n( ?Exp + ?Exp )\nok\nrefused 12\n( ?Exp + ?Exp )\nok\n";

const CHECK: &[&str] = &["check", "lang"];

const EDIT: &[&str] = &["edit", "lang", "script"];

/// Which reads and which writes are to fail, counted from 1.
#[derive(Clone, Copy)]
struct Failing<'a> {
    reads: &'a [u64],
    puts: &'a [u64],
}

const NONE: Failing<'static> = Failing {
    reads: &[],
    puts: &[],
};

/// How a run ended, and what it wrote.
#[derive(Drop)]
struct Run {
    status: Status,
    out: MemSink,
}

fn counted<L: Ledger>(
    alloc: Global,
    words: &[String],
    files: &mut MemFiles,
    input: &mut MemInput,
    out: &mut MemSink,
    ledger: Blank,
) -> Status
    requires name { ledger.name ≡ L.name }
    requires parts { ledger.parts ≡ L.parts }
    requires some { 0 < L.parts }
{
    let mut steps = Steps::<L>::of(ledger);
    run(alloc, words, files, input, out, &mut steps)
}

fn file(alloc: Global, name: &str, bytes: &[u8]) -> Result<(String, Vec<u8>), AllocError> {
    Ok((
        String::from_str(alloc, name)?,
        Vec::from_slice(alloc, bytes)?,
    ))
}

fn words_of(alloc: Global, words: &[&str]) -> Result<Vec<String>, AllocError> {
    let mut all = Vec::new(alloc);
    for word in words {
        all.push(String::from_str(alloc, word)?)?;
    }
    Ok(all)
}

/// The files `lang` and `script`.
fn files(
    alloc: Global,
    definition: &[u8],
    script: &[u8],
    failing: &[u64],
) -> Result<MemFiles, AllocError> {
    let mut held = Vec::new(alloc);
    held.push(file(alloc, "lang", definition)?)?;
    held.push(file(alloc, "script", script)?)?;
    let failing = Vec::from_slice(alloc, failing)?;
    Ok(MemFiles::new(alloc, held, failing))
}

/// An input that has no lines.
fn no_input(alloc: Global) -> MemInput {
    MemInput::new(alloc, Vec::new(alloc), Vec::new(alloc))
}

/// Runs on the files `lang` and `script`, with an input that has no lines.
fn run_words(
    alloc: Global,
    words: &[&str],
    definition: &[u8],
    script: &[u8],
    failing: Failing,
) -> Result<Run, AllocError> {
    let mut files = files(alloc, definition, script, failing.reads)?;
    let mut input = no_input(alloc);
    run_on(alloc, words, &mut files, &mut input, failing.puts)
}

/// Runs on the files and the input; these writes are to fail.
fn run_on(
    alloc: Global,
    words: &[&str],
    files: &mut MemFiles,
    input: &mut MemInput,
    puts: &[u64],
) -> Result<Run, AllocError> {
    let mut out = MemSink::new(alloc, Vec::from_slice(alloc, puts)?);
    let words = words_of(alloc, words)?;
    let words = words.as_slice();
    let status = counted::<Brand>(alloc, words, files, input, &mut out, Blank::new(1));
    Ok(Run { status, out })
}

fn ends(rt: &impl Abort, run: &Run, status: Status, output: &str) {
    assert!(rt; run.status == status, "{output}");
    assert!(rt; run.out.written() == output.as_bytes(), "{output}");
}

/// The script on the definition is read to its end, and answered so.
fn plays(
    rt: &impl Abort,
    alloc: Global,
    definition: &str,
    script: &str,
    output: &str,
) -> Result<(), AllocError> {
    let definition = definition.as_bytes();
    let run = run_words(alloc, EDIT, definition, script.as_bytes(), NONE)?;
    ends(rt, &run, Status::Done, output);
    Ok(())
}
