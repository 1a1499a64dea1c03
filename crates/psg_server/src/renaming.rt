//! New names for the names of a document.
ghost use Rattle.std.specs.Prelude.{◌≡◌, IfOk, MatchResult, map};
ghost use Rattle.serde_json.specs.View.{view};
ghost use Rattle.psg_defcomment.specs.Reading.{IsCommentOf};
ghost use Rattle.psg_documents.specs.Positions.{AreStarts};
ghost use Rattle.psg_grammar.specs.Kinds.{HasKind};
ghost use Rattle.psg_grammar.specs.WellFormed.{fixed_words};
ghost use Rattle.psg_links.specs.Spots.{IsPage};
ghost use Rattle.psg_server.specs.Judging.{OfJudged};
ghost use Rattle.psg_server.specs.Linking as linking;
ghost use Rattle.psg_server.specs.Linking.{IsNamed, IsNamedOf, IsUnnamed, IsUnnamedOf};
ghost use Rattle.psg_server.specs.Told.{naming_of};

use crate::documents::Document;
use crate::fields::Naming;
use crate::judging::{Defined, Judged, without_comments};
use crate::linking::{Showing, all_shown, byte_at, list_of};
use crate::ranges::Page as Sheet;
use psg_documents::{Encoding, Lines};
use psg_grammar::Kind;
use psg_links::{Page, Refusal, rename};
use psg_specimen::Language;
use psg_terms::Steps;
use serde_json::{Value, json};
use std::alloc::{AllocError, Global};
use std::sync::ledger::Ledger;

/// What keeps names from a new name.
#[derive(Clone, Copy, Debug, PartialEq, Eq)]
pub enum Unnamed {
    /// The text is not known.
    Unknown,
    /// The text is no program.
    NoProgram,
    /// The name can't get this name.
    Refused(Refusal),
}

/// Returns the words for what keeps names from a new name.
pub(crate) fn words(why: Unnamed) -> &'static str
    ensures { result.now ≡ linking.words_of why }
{
    match why {
        Unnamed::Unknown => "the text is not known",
        Unnamed::NoProgram => "the text is no program",
        Unnamed::Refused(Refusal::NoName) => "there is no name here",
        Unnamed::Refused(Refusal::Outside) => "the name is not declared in this text",
        Unnamed::Refused(Refusal::NewName) => "this is no name of the language",
        Unnamed::Refused(Refusal::Unread) =>
            "the text with the new name is not read as the same program",
        Unnamed::Refused(Refusal::Relinked) =>
            "with this name, a name would mean another declaration",
    }
}

/// Returns the edits of the document with the address.
fn workspace(alloc: Global, address: &str, values: Vec<Value>) -> Result<Value, AllocError>
    ensures { IfOk result (λ v. view v ≡ linking.workspace_data address.now (map view values.items)) }
{
    let edits = list_of(values);
    json!(in alloc; {"changes": {address: edits}})
}

/// Returns the edits that give the names of the page at the position the new one, or what keeps them from it.
fn page_naming<L: Ledger>(
    alloc: Global,
    language: &Language,
    kind: Kind,
    sheet: &Sheet<'_>,
    own: &Judged,
    address: &str,
    page: &Page,
    naming: Naming<'_>,
    steps: &mut Steps<L>,
) -> Result<Result<Value, Unnamed>, AllocError>
    requires kind { HasKind language.now kind }
    requires starts { AreStarts sheet.now.text.now sheet.now.lines.now }
    requires page { IsPage language.now kind own.now.bytes.items page.now }
    ensures { IfOk result (λ r. MatchResult r (λ v. IsNamed language.now kind sheet.now.encoding address.now
        sheet.now.text.now own.now.bytes.items (naming_of naming.entry) (view v))
        (IsUnnamed language.now kind sheet.now.encoding address.now sheet.now.text.now own.now.bytes.items
        (naming_of naming.entry))) }
{
    let byte = byte_at(sheet, naming.at);
    let bytes = own.bytes.as_slice();
    let answer = rename(alloc, language, kind, bytes, page, byte, naming.name, steps)?;
    match answer {
        Ok(spots) => {
            let edits = all_shown(
                alloc,
                sheet,
                Showing::Edit(naming.name),
                true,
                spots.as_slice(),
            )?;
            let value = workspace(alloc, address, edits)?;
            Ok(Ok(value))
        }
        Err(why) => Ok(Err(Unnamed::Refused(why))),
    }
}

/// Returns the edits that give the names of the text at the position the new one, or what keeps them from it, by what is
/// judged of the text.
fn sheet_naming<L: Ledger>(
    alloc: Global,
    language: &Language,
    kind: Kind,
    sheet: &Sheet<'_>,
    own: &Judged,
    address: &str,
    naming: Naming<'_>,
    steps: &mut Steps<L>,
) -> Result<Result<Value, Unnamed>, AllocError>
    requires kind { HasKind language.now kind }
    requires starts { AreStarts sheet.now.text.now sheet.now.lines.now }
    ensures { IfOk result (λ r. MatchResult r (λ v. IsNamed language.now kind sheet.now.encoding address.now
        sheet.now.text.now own.now.bytes.items (naming_of naming.entry) (view v))
        (IsUnnamed language.now kind sheet.now.encoding address.now sheet.now.text.now own.now.bytes.items
        (naming_of naming.entry))) }
{
    let bytes = own.bytes.as_slice();
    let read = Page::of(alloc, language, kind, bytes, steps)?;
    match read {
        Some(page) => {
            let named = page_naming(
                alloc, language, kind, sheet, own, address, &page, naming, steps,
            )?;
            Ok(named)
        }
        None => Ok(Err(Unnamed::NoProgram)),
    }
}

/// Returns the edits that give the names of the text at the position the new one, or what keeps them from it.
fn text_naming<L: Ledger>(
    alloc: Global,
    defined: &Defined,
    kind: Kind,
    encoding: Encoding,
    address: &str,
    text: &str,
    naming: Naming<'_>,
    steps: &mut Steps<L>,
) -> Result<Result<Value, Unnamed>, AllocError>
    requires kind { HasKind defined.now.language kind }
    requires fit { IsCommentOf (fixed_words defined.now.language) defined.now.comment }
    ensures { IfOk result (λ r. MatchResult r
        (λ v. OfJudged defined.now text.now (λ comments bytes. IsNamed defined.now.language kind encoding address.now
        text.now bytes (naming_of naming.entry) (view v)))
        (λ why. OfJudged defined.now text.now (λ comments bytes. IsUnnamed defined.now.language kind encoding address.now
        text.now bytes (naming_of naming.entry) why))) }
{
    let own = without_comments(alloc, defined, text)?;
    let lines = Lines::of(alloc, text)?;
    let sheet = Sheet {
        encoding,
        text,
        lines: &lines,
    };
    let language = &defined.language;
    let named = sheet_naming(alloc, language, kind, &sheet, &own, address, naming, steps)?;
    Ok(named)
}

/// Returns the edits that give the names of the document at the position the new one, or what keeps them from it. Fails
/// only when out of memory. It costs two readings of the text, each with the links of its names.
pub(crate) fn document_naming<L: Ledger>(
    alloc: Global,
    defined: &Defined,
    kind: Kind,
    encoding: Encoding,
    document: &Document,
    naming: Naming<'_>,
    steps: &mut Steps<L>,
) -> Result<Result<Value, Unnamed>, AllocError>
    requires kind { HasKind defined.now.language kind }
    requires fit { IsCommentOf (fixed_words defined.now.language) defined.now.comment }
    ensures { IfOk result (λ r. MatchResult r (λ v. IsNamedOf defined.now kind encoding document.now.address
        document.now.text (naming_of naming.entry) (view v))
        (IsUnnamedOf defined.now kind encoding document.now.address document.now.text (naming_of naming.entry))) }
{
    let address = document.address.as_str();
    match &document.text {
        Some(text) => {
            let own = text.as_str();
            let named = text_naming(alloc, defined, kind, encoding, address, own, naming, steps)?;
            Ok(named)
        }
        None => Ok(Err(Unnamed::Unknown)),
    }
}
