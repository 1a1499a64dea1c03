//! Notes about documents: those that are open, and what is published of them.
ghost use Rattle.std.specs.Prelude.{ℕ, ◌≡◌, List, IfOk, OnErr, Some};
ghost use Rattle.std.specs.Option.{option_map};
ghost use Rattle.psg_defcomment.specs.Reading.{IsCommentOf};
ghost use Rattle.psg_grammar.specs.WellFormed.{fixed_words};
ghost use Rattle.psg_grammar.specs.Kinds.{HasKind};
ghost use Rattle.psg_messages.specs.Messages.{given_of, note};
ghost use Rattle.psg_specimen.specs.Languages.{IsDeclaringPhylum};
ghost use Rattle.psg_server.specs.declared.methods.Notice.TheVariants as notices;
ghost use Rattle.psg_server.specs.Answering.{Serves, out_of};
ghost use Rattle.psg_server.specs.Answering as answering;
ghost use Rattle.psg_server.specs.Fields.{changed_in, changes_in, text_after};
ghost use Rattle.psg_server.specs.Kept.{IsClosed, IsKept};
ghost use Rattle.psg_server.specs.Told.{document_of};
ghost use Rattle.psg_server.specs.declared.judging.Defined.{Defined as Plain};
ghost use Rattle.psg_grammar.specs.declared.types.Kind.{Kind as PlainKind};
ghost use Rattle.psg_server.specs.Methods.{notice_of};

use crate::diagnostics::{cleared, published};
use crate::documents::Document;
use crate::fields::{Told, address_in, has_no_changes, last_text_in, opened_in, version_after};
use crate::judging::Defined;
use crate::methods::Notice;
use crate::server::{Reply, Server};
use psg_grammar::Kind;
use psg_messages::Params;
use psg_terms::{Steps, Txt};
use std::alloc::{AllocError, Global};
use std::sync::ledger::Ledger;

/// Returns the document that `didOpen` names.
fn opened(alloc: Global, told: Told<'_>) -> Result<Document, AllocError>
    ensures { IfOk result (λ d. d ≡ document_of told.entry) }
{
    let address = Txt::copy_of(alloc, told.address)?;
    let text = Txt::copy_of(alloc, told.text)?;
    Ok(Document {
        address,
        version: told.version,
        text: Some(text),
    })
}

/// Returns the text once more, if there is one.
fn shared(text: &Option<Txt>) -> Result<Option<Txt>, AllocError>
    ensures { IfOk result (λ o. o ≡ text.now) }
{
    match text {
        Some(text) => {
            let one = text.share()?;
            Ok(Some(one))
        }
        None => Ok(None),
    }
}

/// Returns a copy of the text, if there is one.
fn copied(alloc: Global, text: Option<&str>) -> Result<Option<Txt>, AllocError>
    ensures { IfOk result (λ o. o ≡ option_map (λ t. t.now) text.entry) }
{
    match text {
        Some(text) => {
            let one = Txt::copy_of(alloc, text)?;
            Ok(Some(one))
        }
        None => Ok(None),
    }
}

/// Returns the text of a document after `didChange`.
fn text_after(
    alloc: Global,
    before: &Option<Txt>,
    given: Params<'_>,
) -> Result<Option<Txt>, AllocError>
    ensures { IfOk result (λ o. o ≡ text_after (changes_in (given_of given.entry)) before.now) }
{
    if has_no_changes(given) {
        return shared(before);
    }
    copied(alloc, last_text_in(given))
}

/// Returns a document after `didChange`.
fn changed(alloc: Global, before: &Document, given: Params<'_>) -> Result<Document, AllocError>
    ensures { IfOk result (λ d. d ≡ changed_in (given_of given.entry) before.now) }
{
    let address = before.address.share()?;
    let text = text_after(alloc, &before.text, given)?;
    Ok(Document {
        address,
        version: version_after(given, before.version),
        text,
    })
}

impl Server {
    /// Keeps the document, and publishes what is found in it.
    fn keep<L: Ledger>(
        &mut self,
        alloc: Global,
        defined: &Defined,
        kind: Kind,
        document: Document,
        steps: &mut Steps<L>,
    ) -> Result<Reply, AllocError>
        requires kind { HasKind defined.now.language kind }
        requires fit { IsCommentOf (fixed_words defined.now.language) defined.now.comment }
        requires quiet_kind { IsDeclaringPhylum defined.now.language kind → ⊥ }
        ensures kept { IfOk result (λ r. IsKept defined.now kind document self.old self.new (out_of r)) }
        ensures memory { OnErr result (self.new ≡ self.old) }
    {
        let value = published(alloc, defined, kind, self.encoding, &document, steps)?;
        self.documents.put(document)?;
        Ok(Reply::Sent(value))
    }

    /// Serves `textDocument/didOpen`.
    fn open<L: Ledger>(
        &mut self,
        alloc: Global,
        defined: &Defined,
        kind: Kind,
        given: Params<'_>,
        steps: &mut Steps<L>,
    ) -> Result<Reply, AllocError>
        requires kind { HasKind defined.now.language kind }
        requires fit { IsCommentOf (fixed_words defined.now.language) defined.now.comment }
        requires quiet_kind { IsDeclaringPhylum defined.now.language kind → ⊥ }
        ensures served { IfOk result (λ r. (method : List ℕ) → notice_of method ≡ Some notices.Opened
            → Serves defined.now kind self.old (note method (given_of given.entry))
            self.new.encoding self.new.documents (out_of r)) }
        ensures phase { self.new.phase ≡ self.old.phase }
        ensures memory { OnErr result (self.new ≡ self.old) }
    {
        match opened_in(given) {
            Some(told) => {
                let document = opened(alloc, told)?;
                let reply = self.keep(alloc, defined, kind, document, steps)?;
                Ok(reply)
            }
            None => Ok(Reply::Nothing),
        }
    }

    /// Returns the document that `didChange` names as it is then, if it is open.
    fn changed(&self, alloc: Global, given: Params<'_>) -> Result<Option<Document>, AllocError>
        ensures { IfOk result (λ o. o
            ≡ option_map (changed_in (given_of given.entry))
            (answering.open_in (given_of given.entry) self.now.documents)) }
    {
        match self.open_in(given) {
            Some(before) => {
                let document = changed(alloc, before, given)?;
                Ok(Some(document))
            }
            None => Ok(None),
        }
    }

    /// Serves `textDocument/didChange`.
    fn change<L: Ledger>(
        &mut self,
        alloc: Global,
        defined: &Defined,
        kind: Kind,
        given: Params<'_>,
        steps: &mut Steps<L>,
    ) -> Result<Reply, AllocError>
        requires kind { HasKind defined.now.language kind }
        requires fit { IsCommentOf (fixed_words defined.now.language) defined.now.comment }
        requires quiet_kind { IsDeclaringPhylum defined.now.language kind → ⊥ }
        ensures served { IfOk result (λ r. (method : List ℕ) → notice_of method ≡ Some notices.Changed
            → Serves defined.now kind self.old (note method (given_of given.entry))
            self.new.encoding self.new.documents (out_of r)) }
        ensures phase { self.new.phase ≡ self.old.phase }
        ensures memory { OnErr result (self.new ≡ self.old) }
    {
        let found = self.changed(alloc, given)?;
        match found {
            Some(document) => {
                let reply = self.keep(alloc, defined, kind, document, steps)?;
                Ok(reply)
            }
            None => Ok(Reply::Nothing),
        }
    }

    /// Takes away the document with the address, if it is open.
    fn close_at(&mut self, alloc: Global, address: &str) -> Result<Reply, AllocError>
        ensures closed { IfOk result (λ r. IsClosed address.now self.old self.new (out_of r)) }
        ensures memory { OnErr result (self.new ≡ self.old) }
    {
        if !self.documents.has(address) {
            return Ok(Reply::Nothing);
        }
        let value = cleared(alloc, address)?;
        self.documents.close(address);
        Ok(Reply::Sent(value))
    }

    /// Serves `textDocument/didClose`.
    fn close(&mut self, alloc: Global, given: Params<'_>) -> Result<Reply, AllocError>
        ensures served { IfOk result (λ r. (def : Plain) (kind : PlainKind) (method : List ℕ)
            → notice_of method ≡ Some notices.Closed
            → Serves def kind self.old (note method (given_of given.entry))
            self.new.encoding self.new.documents (out_of r)) }
        ensures phase { self.new.phase ≡ self.old.phase }
        ensures memory { OnErr result (self.new ≡ self.old) }
    {
        match address_in(given) {
            Some(address) => {
                let reply = self.close_at(alloc, address)?;
                Ok(reply)
            }
            None => Ok(Reply::Nothing),
        }
    }

    /// Serves a note.
    pub(crate) fn serve_notice<L: Ledger>(
        &mut self,
        alloc: Global,
        defined: &Defined,
        kind: Kind,
        notice: Notice,
        given: Params<'_>,
        steps: &mut Steps<L>,
    ) -> Result<Reply, AllocError>
        requires kind { HasKind defined.now.language kind }
        requires fit { IsCommentOf (fixed_words defined.now.language) defined.now.comment }
        requires quiet_kind { IsDeclaringPhylum defined.now.language kind → ⊥ }
        ensures served { IfOk result (λ r. (method : List ℕ) → notice_of method ≡ Some notice
            → Serves defined.now kind self.old (note method (given_of given.entry))
            self.new.encoding self.new.documents (out_of r)) }
        ensures phase { self.new.phase ≡ self.old.phase }
        ensures memory { OnErr result (self.new ≡ self.old) }
    {
        match notice {
            Notice::Opened => {
                let reply = self.open(alloc, defined, kind, given, steps)?;
                Ok(reply)
            }
            Notice::Changed => {
                let reply = self.change(alloc, defined, kind, given, steps)?;
                Ok(reply)
            }
            Notice::Closed => {
                let reply = self.close(alloc, given)?;
                Ok(reply)
            }
            Notice::Exit => {
                let reply = self.leave(given);
                Ok(reply)
            }
        }
    }
}
