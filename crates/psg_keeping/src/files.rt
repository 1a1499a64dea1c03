//! Files whose comments are kept.
ghost use Rattle.std.specs.Prelude.{◌≡◌, ◌↔◌, ◌+◌, ◌≤◌, IfNone, IfOk, IfSome, IsTrue, List, None, OnErr, OnOk, Some};
ghost use Rattle.std.specs.Prelude.{ℕ, vec_len};
ghost use Rattle.std.specs.FinMap as map;
ghost use Rattle.std.specs.Option.{option_map};
ghost use Rattle.psg_keeping.specs.Rules.{Opens, Writes, unmarked as unmarked_of};
ghost use Rattle.psg_world.specs.Files.{bytes_of, entries_after_read, entries_after_write, front_of};

use crate::rule::Rule;
use psg_terms::{Seq, Txt};
use psg_world::{Files, ReadStop, WriteStop};
use std::alloc::{AllocError, Global};

/// A file whose text is known.
#[derive(Drop)]
pub struct Known {
    /// Its name.
    pub name: Txt,
    /// Its bytes, without a byte order mark.
    pub text: Seq<u8>,
}

/// Files of which one was opened without its comments, which its replacements get again.
#[derive(Drop)]
pub struct Keeping<F> {
    files: F,
    rule: Option<Rule>,
    known: Option<Known>,
}

/// The bytes that are given for a file, and what is known of it from then on.
#[derive(Drop)]
struct Given {
    given: Vec<u8>,
    known: Option<Known>,
}

/// Returns the bytes without one byte order mark at their beginning.
fn unmarked(bytes: &[u8]) -> &[u8]
    ensures { result.now ≡ unmarked_of bytes.now }
{
    match bytes.strip_prefix(&[0xef, 0xbb, 0xbf]) {
        Some(rest) => rest,
        None => bytes,
    }
}

/// Returns the bytes with a space for each byte of a comment, and the file as it is known then.
fn blanked(alloc: Global, rule: &Rule, name: &str, bytes: &[u8]) -> Result<Given, AllocError>
    ensures { IfOk result (λ g. Opens name.now bytes.now (Some rule.now) g.given.items g.known) }
{
    let rest = unmarked(bytes);
    let Ok(text) = str::from_utf8(rest) else {
        return as_they_are(alloc, bytes);
    };
    let found = rule.blank(alloc, text)?;
    let (mark, _) = bytes.split_at(bytes.len() - rest.len());
    let mut given = Vec::from_slice(alloc, mark)?;
    given.extend_from_slice(found.bytes.as_slice())?;
    let name = Txt::copy_of(alloc, name)?;
    let own = Vec::from_slice(alloc, rest)?;
    Ok(Given {
        given,
        known: Some(Known {
            name,
            text: Seq::of(own),
        }),
    })
}

/// Returns the bytes as they are, of a file of which nothing is known.
fn as_they_are(alloc: Global, bytes: &[u8]) -> Result<Given, AllocError>
    ensures given { IfOk result (λ g. g.given.items ≡ bytes.now) }
    ensures known { IfOk result (λ g. g.known ≡ None) }
{
    Ok(Given {
        given: Vec::from_slice(alloc, bytes)?,
        known: None,
    })
}

/// Returns what is given for the bytes of the file, and the file as it is known then.
fn opened(alloc: Global, rule: &Option<Rule>, name: &str, bytes: &[u8]) -> Result<Given, AllocError>
    ensures { IfOk result (λ g. Opens name.now bytes.now rule.now g.given.items g.known) }
{
    match rule {
        Some(rule) => blanked(alloc, rule, name, bytes),
        None => as_they_are(alloc, bytes),
    }
}

/// Says whether the file has this name.
fn is_name(known: &Known, name: &str) -> bool
    ensures { IsTrue result ↔ (known.now.name ≡ name.now) }
{
    known.name.as_str() == name
}

/// Returns the known file as it is after the bytes are written with comments, or none where they are written as they
/// are.
fn renewed(
    alloc: Global,
    rule: &Rule,
    known: &Known,
    name: &str,
    bytes: &[u8],
) -> Result<Option<Known>, AllocError>
    ensures some { IfOk result (λ found. IfSome found (λ k. Writes (Some rule.now) (Some known.now) name.now bytes.now
        k.text (Some k))) }
    ensures none { IfOk result (λ found. IfNone found (Writes (Some rule.now) (Some known.now) name.now bytes.now
        bytes.now (Some known.now))) }
{
    if !is_name(known, name) {
        return Ok(None);
    }
    let own = known.text.as_slice();
    let Ok(old) = str::from_utf8(own) else {
        return Ok(None);
    };
    let Ok(new) = str::from_utf8(bytes) else {
        return Ok(None);
    };
    let text = rule.keep(alloc, old, new)?;
    let name = Txt::copy_of(alloc, name)?;
    Ok(Some(Known {
        name,
        text: Seq::of(text),
    }))
}

/// Returns the file as it is after the bytes are written with comments, or none where they are written as they are.
fn written(
    alloc: Global,
    rule: &Option<Rule>,
    known: &Option<Known>,
    name: &str,
    bytes: &[u8],
) -> Result<Option<Known>, AllocError>
    ensures some { IfOk result (λ found. IfSome found (λ k. Writes rule.now known.now name.now bytes.now k.text
        (Some k))) }
    ensures none { IfOk result (λ found. IfNone found (Writes rule.now known.now name.now bytes.now bytes.now
        known.now)) }
{
    let Some(rule) = rule else {
        return Ok(None);
    };
    let Some(known) = known else {
        return Ok(None);
    };
    let found = renewed(alloc, rule, known, name, bytes)?;
    Ok(found)
}

impl<F: Files> Keeping<F> {
    /// Makes files over those of `files`, in which comments are kept by the rule, if there is one.
    pub fn new(files: F, rule: Option<Rule>) -> Keeping<F>
        ensures files { result.files ≡ files }
        ensures rule { result.rule ≡ rule }
        ensures known { result.known ≡ None }
    {
        Keeping {
            files,
            rule,
            known: None,
        }
    }

    /// Reads the file `name` as `read` does, and gives its bytes with a space for each byte of a comment. From then on
    /// its text is known, if it is UTF-8.
    pub fn open(&mut self, alloc: Global, name: &str, limit: usize) -> Result<Vec<u8>, ReadStop>
        ensures opens { IfOk result (λ given. (read : List ℕ) × IfSome (F.holds self.old.files)
            (λ held. read ≡ front_of limit (bytes_of held name.now))
            × Opens name.now read self.old.rule given.items self.new.known) }
        ensures rule { self.new.rule ≡ self.old.rule }
        ensures holds { F.holds self.new.files ≡ F.holds self.old.files }
        ensures known { OnErr result (self.new.known ≡ self.old.known) }
    {
        let bytes = self.files.read(alloc, name, limit)?;
        let found = opened(alloc, &self.rule, name, bytes.as_slice())?;
        self.known = found.known;
        Ok(found.given)
    }
}

impl<F: Files> Files for Keeping<F> {
    ghost holds = { λ _. None };

    ghost faults = { λ k. F.faults k.files };

    /// Reads as the files below do, comments too.
    fn read(&mut self, alloc: Global, name: &str, limit: usize) -> Result<Vec<u8>, ReadStop>
        ensures within { IfOk result (λ bytes. vec_len bytes ≤ limit + 1) }
        ensures entries { F.faults self.new.files ≡ entries_after_read (F.faults self.old.files) name.now result }
        ensures holds { F.holds self.new.files ≡ F.holds self.old.files }
        ensures known { self.new.known ≡ self.old.known }
    {
        self.files.read(alloc, name, limit)
    }

    /// Writes as the files below do.
    fn write(&mut self, alloc: Global, name: &str, bytes: &[u8]) -> Result<(), WriteStop>
        ensures entries { F.faults self.new.files ≡ entries_after_write (F.faults self.old.files) name.now result }
        ensures known { self.new.known ≡ self.old.known }
    {
        self.files.write(alloc, name, bytes)
    }

    /// Replaces the file below. The bytes of the file that was opened are written with its comments, and what was
    /// written is known from then on.
    fn replace(&mut self, alloc: Global, name: &str, bytes: &[u8]) -> Result<(), WriteStop>
        ensures written { OnOk result ((text : List ℕ)
            × Writes self.old.rule self.old.known name.now bytes.now text self.new.known
            × (F.holds self.new.files
            ≡ option_map (λ held. map.insert held name.now text) (F.holds self.old.files))) }
        ensures kept { OnErr result (F.holds self.new.files ≡ F.holds self.old.files) }
        ensures known { OnErr result (self.new.known ≡ self.old.known) }
        ensures entries { F.faults self.new.files ≡ entries_after_write (F.faults self.old.files) name.now result }
    {
        let found = written(alloc, &self.rule, &self.known, name, bytes)?;
        match found {
            Some(known) => {
                self.files.replace(alloc, name, known.text.as_slice())?;
                self.known = Some(known);
                Ok(())
            }
            None => self.files.replace(alloc, name, bytes),
        }
    }
}
