//! The lines of a report.
ghost use Rattle.std.specs.Prelude.{◌≡◌, ◌≤◌, ◌∷◌, ◌++◌, [], ℕ, IfOk, OnOk, codes, cond, length, string_bytes, take};
ghost use Rattle.std.specs.Str.{IsUtf8, IsValidUpTo};
ghost use Rattle.psg_program.specs.Decoding.{unmarked as unmarked_of};
ghost use Rattle.psg_program.specs.Places.{IsAt};
ghost use Rattle.psg_recover.specs.Findings as findings;
ghost use Rattle.psg_recover.specs.Findings.{with_feeds};
ghost use Rattle.psg_lint.specs.Shown.{IsShownReport};

use crate::reporting::Report;
use psg_program::{Place, place_of, unmarked};
use psg_recover::finding::{Finding, Grade};
use std::alloc::{AllocError, Global};

/// Returns the word for the grade.
fn grade_text(grade: Grade) -> &'static str
    ensures { result.now ≡ findings.grade_text grade }
{
    match grade {
        Grade::Error => "error",
        Grade::Warning => "warning",
        Grade::Note => "note",
    }
}

/// Returns the text of that many bytes at the front.
fn front_of(bytes: &[u8], count: usize) -> &str
    requires within { count ≤ length bytes.now }
    requires text { IsUtf8 (take count bytes.now) }
    ensures { result.now ≡ take count bytes.now }
{
    match str::from_utf8(&bytes[..count]) {
        Ok(text) => text,
        Err(_) => unreachable!(),
    }
}

/// Returns the longest text at the beginning of the bytes.
fn text_of(bytes: &[u8]) -> &str
    ensures whole { IsUtf8 bytes.now → result.now ≡ bytes.now }
    ensures part { (count : ℕ) → IsValidUpTo bytes.now count → result.now ≡ take count bytes.now }
{
    match str::from_utf8(bytes) {
        Ok(text) => text,
        Err(fault) => {
            let count = fault.valid_up_to();
            front_of(bytes, count)
        }
    }
}

/// Returns the line of what was found at the place, with its line feed.
fn finding_line(
    alloc: Global,
    file: &str,
    place: Place,
    found: &Finding,
) -> Result<String, AllocError>
    ensures { IfOk result (λ line. string_bytes line
        ≡ findings.finding_line file.now place.line place.column found.now ++ 10 ∷ []) }
{
    let grade = grade_text(found.grade);
    let message = found.message.as_str();
    let line = format!(in alloc;
        "{file}:{}:{}: {grade}: {message}\n",
        place.line, place.column
    )?;
    Ok(line)
}

/// Adds the line of what was found in the text.
fn push_line(
    alloc: Global,
    lines: &mut String,
    file: &str,
    text: &str,
    found: &Finding,
) -> Result<(), AllocError>
    ensures { OnOk result ((line : ℕ) × (column : ℕ) × IsAt text.now found.now.byte line column
        × (string_bytes lines.new
        ≡ string_bytes lines.old ++ (findings.finding_line file.now line column found.now ++ 10 ∷ []))) }
{
    let place = place_of(text, found.byte);
    let line = finding_line(alloc, file, place, found)?;
    lines.push_str(line.as_str())?;
    Ok(())
}

/// Adds the line that says that more may follow, if it may.
fn push_more(alloc: Global, lines: &mut String, file: &str, more: bool) -> Result<(), AllocError>
    ensures { OnOk result (string_bytes lines.new ≡ string_bytes lines.old
        ++ with_feeds (cond more ((file.now ++ codes ": note: more may follow") ∷ []) [])) }
{
    if more {
        let line = format!(in alloc; "{file}: note: more may follow\n")?;
        lines.push_str(line.as_str())?;
        return Ok(());
    }
    Ok(())
}

/// Returns the lines of the report, in the text in which its places are.
fn lines_of(alloc: Global, file: &str, text: &str, report: &Report) -> Result<String, AllocError>
    ensures { IfOk result (λ lines. IsShownReport text.now file.now report.now (string_bytes lines)) }
{
    let mut lines = String::new(alloc);
    let found = report.found.as_slice();
    for place in 0..found.len() {
        push_line(alloc, &mut lines, file, text, &found[place])?;
    }
    push_more(alloc, &mut lines, file, report.more)?;
    Ok(lines)
}

/// Writes the lines of the report of the bytes of the file, each with its line feed.
pub fn report_text(
    alloc: Global,
    file: &str,
    bytes: &[u8],
    report: &Report,
) -> Result<String, AllocError>
    ensures whole { IsUtf8 (unmarked_of bytes.now)
        → IfOk result (λ lines. IsShownReport (unmarked_of bytes.now) file.now report.now (string_bytes lines)) }
    ensures part { (count : ℕ) → IsValidUpTo (unmarked_of bytes.now) count
        → IfOk result (λ lines. IsShownReport (take count (unmarked_of bytes.now)) file.now report.now
        (string_bytes lines)) }
{
    let own = unmarked(bytes);
    let text = text_of(own);
    let lines = lines_of(alloc, file, text, report)?;
    Ok(lines)
}
