//! Files that commands write and read: each call of them fails in turn, and they have as many bytes, elements and saved
//! fragments as may be.
use super::{Failing, NONE, Run, ends, file, no_input, run_on};
use psg_langs::MINI;
use psg_run::Status;
use psg_world::{MemFiles, MemSink};
use std::alloc::{AllocError, Global};
use std::process::Abort;
use std::test::Fail;

/// A script that writes a file and reads it.
const SCRIPT: &str = "new Exp
over / 1 + 2
save f /
keep f out.psg
fetch out.psg
new Exp
paste / f
paste / f
keep g out.psg
";

const REPLIES: &[&str] = &[
    "ok\n",
    "ok\n",
    "saved f\n",
    "kept f\n",
    "fetched f\n",
    "ok\n",
    "ok\n",
    "refused 3\n",
    "refused 17\n",
];

const OUT: &[u8] = b"fragment 2 f Exp\n1 + 2\n";

/// The calls of the files that fail, the fourth and the fifth reply, and what the file has then.
type Row<'a> = (&'a [u64], (&'a str, &'a str), Option<&'a [u8]>);

/// The first two calls are the run's own reads, the third is the write and the fourth the read of the script.
const ROWS: &[Row<'static>] = &[
    (&[], ("kept f\n", "fetched f\n"), Some(OUT)),
    (&[3], ("refused 18\n", "refused 18\n"), None),
    (&[4], ("kept f\n", "refused 18\n"), Some(OUT)),
    (&[3, 4], ("refused 18\n", "refused 18\n"), None),
    (&[5], ("kept f\n", "fetched f\n"), Some(OUT)),
];

/// The run's own files, which a command reads too, with a script and its output where call 3 fails and where it does
/// not.
const OWN: &[(&str, &str, &str)] = &[
    (
        "fetch lang\nshow\n",
        "refused 18\nrefused 22\n",
        "refused 19\nrefused 22\n",
    ),
    (
        "fetch script\nshow\n",
        "refused 18\nrefused 22\n",
        "refused 19\nrefused 22\n",
    ),
];

/// A run, with its files.
#[derive(Drop)]
struct Played {
    status: Status,
    files: MemFiles,
    out: MemSink,
}

/// Plays the script on a language, with one more file under the name `kept`.
fn play(
    alloc: Global,
    (definition, script): (&str, &[u8]),
    kept: &[u8],
    failing: Failing,
) -> Result<Played, AllocError> {
    let mut held = Vec::new(alloc);
    held.push(file(alloc, "lang", definition.as_bytes())?)?;
    held.push(file(alloc, "script", script)?)?;
    held.push(file(alloc, "kept", kept)?)?;
    let mut files = MemFiles::new(alloc, held, Vec::from_slice(alloc, failing.reads)?);
    let mut input = no_input(alloc);
    let Run { status, out } = run_on(alloc, super::EDIT, &mut files, &mut input, failing.puts)?;
    Ok(Played { status, files, out })
}

/// The run ended with this status and output, and the file `out.psg` has these bytes.
fn ends_with_files(
    rt: &impl Abort,
    run: &Played,
    status: Status,
    output: &str,
    left: Option<&[u8]>,
) {
    assert!(rt; run.status == status, "{output}");
    assert!(rt; run.out.written() == output.as_bytes(), "{output}");
    assert!(rt; run.files.held("out.psg") == left, "{output}");
}

#[test]
fn each_call_of_the_files_fails(rt: HostRuntime) -> Result<(), Fail> {
    for (calls, (fourth, fifth), left) in ROWS {
        let failing = Failing {
            reads: calls,
            puts: &[],
        };
        let run = play(rt.alloc(), (MINI, SCRIPT.as_bytes()), b"", failing)?;
        let mut wanted = String::new(rt.alloc());
        for (place, reply) in REPLIES.iter().enumerate() {
            let own = match place {
                3 => fourth,
                4 => fifth,
                _ => reply,
            };
            wanted.push_str(own)?;
        }
        ends_with_files(&rt, &run, Status::Done, &wanted, *left);
    }
    Ok(())
}

#[test]
fn each_read_before_the_commands_fails(rt: HostRuntime) -> Result<(), Fail> {
    for calls in [&[1][..], &[2][..], &[1, 2][..]] {
        let failing = Failing {
            reads: calls,
            puts: &[],
        };
        let run = play(rt.alloc(), (MINI, SCRIPT.as_bytes()), b"", failing)?;
        ends_with_files(&rt, &run, Status::ReadFault, "", None);
    }
    Ok(())
}

#[test]
fn each_put_of_a_script_with_files_fails(rt: HostRuntime) -> Result<(), Fail> {
    let mut wanted = String::new(rt.alloc());
    for (place, reply) in REPLIES.iter().enumerate() {
        let puts = [place as u64 + 1];
        let failing = Failing {
            reads: &[],
            puts: &puts,
        };
        let run = play(rt.alloc(), (MINI, SCRIPT.as_bytes()), b"", failing)?;
        // the fourth command is answered after its file is written
        let left = if place < 3 { None } else { Some(OUT) };
        ends_with_files(&rt, &run, Status::WriteFault, &wanted, left);
        wanted.push_str(reply)?;
    }
    // there is no tenth put
    let failing = Failing {
        reads: &[],
        puts: &[10],
    };
    let run = play(rt.alloc(), (MINI, SCRIPT.as_bytes()), b"", failing)?;
    ends_with_files(&rt, &run, Status::Done, &wanted, Some(OUT));
    Ok(())
}

#[test]
fn a_failed_read_by_a_command_ends_no_run(rt: HostRuntime) -> Result<(), Fail> {
    for (script, failed, read) in OWN {
        for (calls, output) in [(&[3][..], failed), (&[][..], read)] {
            let failing = Failing {
                reads: calls,
                puts: &[],
            };
            let run = play(rt.alloc(), (MINI, script.as_bytes()), b"", failing)?;
            assert!(rt; run.status == Status::Done, "{script}");
            assert!(rt; run.out.written() == output.as_bytes(), "{script}");
        }
    }
    Ok(())
}

/// A kept fragment with the given number of bytes, most of them blanks.
fn padded(alloc: Global, length: usize) -> Result<Vec<u8>, AllocError> {
    let mut bytes = Vec::from_slice(alloc, b"fragment 2 f Exp\n1")?;
    for _ in bytes.len()..length {
        bytes.push(b' ')?;
    }
    Ok(bytes)
}

/// A kept list of the given number of elements.
fn long_list(alloc: Global, count: usize) -> Result<Vec<u8>, AllocError> {
    let mut bytes = Vec::from_slice(alloc, b"fragment 2 f Args\n1")?;
    for _ in 1..count {
        bytes.extend_from_slice(b",1")?;
    }
    Ok(bytes)
}

/// What `fetch` replies where the file has these bytes.
fn fetched(rt: &impl Abort, alloc: Global, kept: &[u8], reply: &str) -> Result<(), AllocError> {
    let run = play(alloc, (MINI, b"fetch kept\n"), kept, NONE)?;
    assert!(rt; run.status == Status::Done, "{reply}");
    assert!(rt; run.out.written() == reply.as_bytes(), "{reply}");
    Ok(())
}

#[test]
fn a_file_has_a_byte_or_an_element_too_many(rt: HostRuntime) -> Result<(), Fail> {
    for (length, reply) in [(262_144, "fetched f\n"), (262_145, "refused 19\n")] {
        let kept = padded(rt.alloc(), length)?;
        fetched(&rt, rt.alloc(), kept.as_slice(), reply)?;
    }
    for (count, reply) in [(4_096, "fetched f\n"), (4_097, "refused 8\n")] {
        let kept = long_list(rt.alloc(), count)?;
        fetched(&rt, rt.alloc(), kept.as_slice(), reply)?;
    }
    Ok(())
}

/// A language of lists of texts.
const TEXTS: &str = "psg 1
sort Unit = ok
phylum Exp : Unit
list Exps : Unit of Exp \",\" inline fixed
op str : Exp = text
row ok
nil Exps ok
cell Exps ok : ok ok
hole Exp ok by str(\"\")
hole Exps ok by []
";

/// A script that saves and keeps a list of a number of texts of 4,092 letters, and a last one of a number of letters.
fn texts(alloc: Global, count: usize, last: usize) -> Result<Vec<u8>, AllocError> {
    let mut script = Vec::from_slice(alloc, b"new Exps\nover / ")?;
    for _ in 0..count {
        script.push(b'"')?;
        for _ in 0..4_092 {
            script.push(b'a')?;
        }
        script.extend_from_slice(b"\", ")?;
    }
    script.push(b'"')?;
    for _ in 0..last {
        script.push(b'a')?;
    }
    script.extend_from_slice(b"\"\nsave f /\nkeep f out\n")?;
    Ok(script)
}

#[test]
fn a_kept_fragment_has_a_byte_too_many(rt: HostRuntime) -> Result<(), Fail> {
    // 18 bytes of the head line, 63 texts of 4,096 bytes with their quotes, comma and space, and the last with its
    // quotes and a line feed
    for (last, reply) in [(4_075, "kept f\n"), (4_076, "refused 8\n")] {
        let script = texts(rt.alloc(), 63, last)?;
        let run = play(rt.alloc(), (TEXTS, script.as_slice()), b"", NONE)?;
        let mut wanted = String::from_str(rt.alloc(), "ok\nok\nsaved f\n")?;
        wanted.push_str(reply)?;
        assert!(rt; run.status == Status::Done, "{reply}");
        assert!(rt; run.out.written() == wanted.as_bytes(), "{reply}");
    }
    Ok(())
}
