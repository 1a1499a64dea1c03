//! The lines of a definition file from its bytes.
ghost use Rattle.std.specs.Prelude.{ℕ, ◌≡◌, ◌<◌, ◌+◌, ◌^◌, ◌∷◌, [], take, length, map, IfOk, IfErr, MatchOption, List};
ghost use Rattle.psg_deflines.specs.Versions.{IsVersion};
ghost use Rattle.std.specs.Str.Lines.{lines};
ghost use Rattle.psg_deflines.specs.Entries.{head_parts, Entry, HasHead, behind_head};
ghost use Rattle.psg_deflines.specs.Parts.{texts};
ghost use Rattle.psg_deflines.specs.EntryReads.{AreEntriesRead, IsTextFault};
ghost use Rattle.psg_deflines.specs.Written.{IsWritten};
ghost use Rattle.psg_deflines.specs.Reading.{HasEntries, AreLinesOf, HasNoFormFault};
ghost use Rattle.psg_deflines.specs.Refusals.{IsFormFault, line_feeds};

use crate::entries::entries;
use crate::fault::{DefCode, DefFault, ReadFault};
use crate::lines::Line;
use crate::names::is;
use crate::parts::parts;
use std::alloc::{AllocError, Global};

/// Returns the lines of a text, each without its line feed and one carriage return in front of it.
fn text_lines<'a>(alloc: Global, text: &'a str) -> Result<Vec<&'a str>, AllocError>
    ensures { IfOk result (λ v. map (λ t. t.now) v.items ≡ lines text.now) }
{
    text.lines().collect(alloc)
}

/// Returns the version with the number, if there is one.
fn version_of(part: &[u8]) -> Option<u32>
    ensures { MatchOption result ((v : ℕ) → IsVersion v → (48 + v) ∷ [] ≡ part.now → ⊥)
        (λ v. IsVersion v × ((48 + v) ∷ [] ≡ part.now)) }
{
    if is(part, "1") {
        Some(1)
    } else if is(part, "2") {
        Some(2)
    } else {
        None
    }
}

/// Returns the version of which the parts are the first line's.
fn head_of(parts: &[&[u8]]) -> Option<u32>
    ensures { MatchOption result ((v : ℕ) → IsVersion v → head_parts v ≡ texts parts.now → ⊥)
        (λ v. IsVersion v × (head_parts v ≡ texts parts.now)) }
{
    if parts.len() != 2 {
        return None;
    }
    if !is(parts[0], "psg") {
        return None;
    }
    version_of(parts[1])
}

/// Returns the version of which the text is the first line.
fn version(alloc: Global, text: &str) -> Result<Option<u32>, AllocError>
    ensures { IfOk result (λ o. MatchOption o ((v : ℕ) → IsVersion v → IsWritten (head_parts v) text.now → ⊥)
        (λ v. IsVersion v × IsWritten (head_parts v) text.now)) }
{
    match parts(alloc, text.as_bytes())? {
        Some(parts) => Ok(head_of(parts.as_slice())),
        None => Ok(None),
    }
}

/// Returns how many line feeds there are.
fn line_feeds(bytes: &[u8]) -> usize
    ensures { result ≡ line_feeds bytes.now }
{
    let mut feeds = 0;
    for c in bytes {
        if *c == b'\n' {
            feeds += 1;
        }
    }
    feeds
}

/// Returns the fault of bytes of which the longest front that is UTF-8 has `valid` bytes.
fn not_text(bytes: &[u8], valid: usize) -> DefFault
    requires long { valid < length bytes.now }
    requires few { length bytes.now < 2 ^ 32 }
    ensures line { result.line ≡ line_feeds (take valid bytes.now) + 1 }
    ensures code { result.code ≡ DefCode.NotText }
{
    let (before, _) = bytes.split_at(valid);
    let line = line_feeds(before) as u32 + 1;
    DefFault {
        line,
        code: DefCode::NotText,
    }
}

/// Returns the fault of a file that does not begin with the line of a version.
fn no_version() -> ReadFault
    ensures { result ≡ ReadFault.Def (record { line = 1; code = DefCode.Version }) }
{
    ReadFault::Def(DefFault {
        line: 1,
        code: DefCode::Version,
    })
}

/// The lines of a definition file: its version, and an entry for each text after its first one. An entry is the line,
/// or none for an empty text and for a comment, which begins with `#`.
#[derive(Drop)]
pub struct FileLines {
    /// The version, 1 or 2.
    pub version: u32,
    /// The entries of the texts from line 2 on.
    pub entries: Vec<Option<Line>>,
}

/// Reads the text of a file.
fn read_text(alloc: Global, text: &str) -> Result<FileLines, ReadFault>
    requires { length text.now < 2 ^ 32 }
    ensures ok { IfOk result (λ found. HasHead found.version (lines text.now)
        × AreEntriesRead found.version (behind_head (lines text.now)) found.entries.items) }
    ensures err { IfErr result (IsTextFault (lines text.now)) }
{
    let written = text_lines(alloc, text)?;
    let Some((head, rest)) = written.split_first() else {
        return Err(no_version());
    };
    let Some(version) = version(alloc, head)? else {
        return Err(no_version());
    };
    let entries = entries(alloc, version, rest)?;
    Ok(FileLines { version, entries })
}

/// Reads the version and the lines of a definition file; all lines are of that version. A fault is the first one, with
/// its line, from 1. The bytes are tested as UTF-8, then the head, then each line for its form and version, its quoted
/// words and its nesting. `Memory` is returned when memory runs out, at any time. It takes time linear in the bytes.
pub fn read_lines(alloc: Global, bytes: &[u8]) -> Result<FileLines, ReadFault>
    requires { length bytes.now < 2 ^ 32 }
    ensures ok { IfOk result (λ found. AreLinesOf bytes.now found.version found.entries.items) }
    ensures only { IfOk result
        (λ found. (v : ℕ) (other : List Entry) → HasEntries bytes.now v other → (v ≡ found.version)
        × (other ≡ found.entries.items)) }
    ensures faultless { IfOk result (λ _. HasNoFormFault bytes.now) }
    ensures err { IfErr result (IsFormFault bytes.now) }
{
    let text = match str::from_utf8(bytes) {
        Ok(text) => text,
        Err(fault) => return Err(ReadFault::Def(not_text(bytes, fault.valid_up_to()))),
    };
    read_text(alloc, text)
}
