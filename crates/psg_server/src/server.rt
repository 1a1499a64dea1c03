//! A server: what a message makes of it, and what is sent.
ghost use Rattle.std.specs.Prelude.{ℕ, ◌≡◌, [], List, IfOk, OnErr, Some};
ghost use Rattle.std.specs.Option.{option_map};
ghost use Rattle.serde_json.specs.View.{view};
ghost use Rattle.psg_documents.specs.declared.encoding.Encoding.TheVariants as encodings;
ghost use Rattle.psg_defcomment.specs.Reading.{IsCommentOf};
ghost use Rattle.psg_grammar.specs.WellFormed.{fixed_words};
ghost use Rattle.psg_grammar.specs.Kinds.{HasKind};
ghost use Rattle.psg_messages.specs.Messages.{given_of, note, request, said_of};
ghost use Rattle.psg_messages.specs.Turns.{due, served};
ghost use Rattle.psg_messages.specs.declared.turns.Phase.TheVariants as phases;
ghost use Rattle.psg_specimen.specs.Languages.{IsDeclaringPhylum};
ghost use Rattle.psg_server.specs.declared.methods.Call.TheVariants as calls;
ghost use Rattle.psg_server.specs.declared.methods.Notice.TheVariants as notices;
ghost use Rattle.psg_server.specs.Answering.{Answers, Gets, Serves, out_of, reason_of};
ghost use Rattle.psg_server.specs.Answering as answering;
ghost use Rattle.psg_server.specs.Told.{place_of};
ghost use Rattle.psg_messages.specs.Answers.{answer_of};
ghost use Rattle.psg_server.specs.declared.judging.Defined.{Defined as Plain};
ghost use Rattle.psg_grammar.specs.declared.types.Kind.{Kind as PlainKind};
ghost use Rattle.psg_server.specs.Methods.{call_of, is_known, notice_of};

use crate::capabilities::greeting;
use crate::documents::{Document, Documents};
use crate::edits::{document_edits, null_value};
use crate::fields::{address_in, encoding_in, position_in};
use crate::hovering::document_hover;
use crate::judging::Defined;
use crate::methods::{Call, Notice, call_of, is_known, notice_of};
use psg_documents::{Encoding, Position};
use psg_grammar::Kind;
use psg_messages::{
    Fault, Message, Params, Phase, Turn, answer, message_of, parsed, phase_after, refusal, turn_of,
};
use psg_terms::Steps;
use serde_json::Value;
use std::alloc::{AllocError, Global};
use std::sync::ledger::Ledger;

/// What follows from a message.
#[derive(Drop)]
pub enum Reply {
    /// Nothing is sent.
    Nothing,
    /// The value is sent.
    Sent(Value),
    /// The server ends with the status.
    Ended(u8),
}

/// Where a conversation is, and the documents that the client has open.
#[derive(Drop)]
pub struct Server {
    phase: Phase,
    pub(crate) encoding: Encoding,
    pub(crate) documents: Documents,
}

/// A position of a document.
#[derive(Clone, Copy)]
pub(crate) struct Place<'a> {
    pub(crate) document: &'a Document,
    pub(crate) position: Position,
}

/// Returns the words for the fault.
fn reason(fault: Fault) -> &'static str
    ensures { result.now ≡ reason_of fault }
{
    match fault {
        Fault::NoJson => "this is no JSON",
        Fault::WrongShape => "this is no message that may come here",
        Fault::UnknownMethod => "there is no such method",
        Fault::WrongParams => "these are no parameters of the method",
        Fault::NotInitialized => "the conversation has not begun",
    }
}

/// Returns the answer to a message that is refused.
pub(crate) fn refused(alloc: Global, id: Option<&Value>, fault: Fault) -> Result<Reply, AllocError>
    ensures { IfOk result (λ r. out_of r ≡ answering.refusal (option_map (λ i. view i.now) id.entry) fault) }
{
    let value = refusal(alloc, id, fault, reason(fault))?;
    Ok(Reply::Sent(value))
}

/// Returns the answer to a request.
pub(crate) fn answered(alloc: Global, id: &Value, value: Value) -> Result<Reply, AllocError>
    ensures { IfOk result (λ r. out_of r ≡ answering.sent (answer_of (view id.now) (view value))) }
{
    let value = answer(alloc, id, value)?;
    Ok(Reply::Sent(value))
}

impl Server {
    /// Makes a server before any message, with no documents. Takes no memory; `alloc` keeps the later documents.
    pub fn new(alloc: Global) -> Server
        ensures { result ≡ record { phase = phases.Before; encoding = encodings.Utf16; documents = [] } }
    {
        Server {
            phase: Phase::Before,
            encoding: Encoding::Utf16,
            documents: Documents::new(alloc),
        }
    }

    /// Returns the document that the parameters name, if it is open.
    pub(crate) fn open_in(&self, given: Params<'_>) -> Option<&Document>
        ensures { option_map (λ d. d.now) result ≡ answering.open_in (given_of given.entry) self.now.documents }
    {
        let address = address_in(given)?;
        self.documents.at(address)
    }

    /// Serves `initialize`.
    fn greet(&mut self, alloc: Global, id: &Value, given: Params<'_>) -> Result<Reply, AllocError>
        ensures served { IfOk result (λ r. (def : Plain) (kind : PlainKind) (method : List ℕ)
            → call_of method ≡ Some calls.Initialize
            → Serves def kind self.old (request (view id.now) method (given_of given.entry))
            self.new.encoding self.new.documents (out_of r)) }
        ensures phase { self.new.phase ≡ self.old.phase }
        ensures memory { OnErr result (self.new ≡ self.old) }
    {
        let encoding = encoding_in(given);
        let value = greeting(alloc, encoding)?;
        let reply = answered(alloc, id, value)?;
        self.encoding = encoding;
        Ok(reply)
    }

    /// Serves `shutdown`.
    fn shut_down(&self, alloc: Global, id: &Value, _given: Params<'_>) -> Result<Reply, AllocError>
        ensures { IfOk result (λ r. (def : Plain) (kind : PlainKind) (method : List ℕ)
            → call_of method ≡ Some calls.Shutdown
            → Serves def kind self.now (request (view id.now) method (given_of _given.entry))
            self.now.encoding self.now.documents (out_of r)) }
    {
        let reply = answered(alloc, id, null_value())?;
        Ok(reply)
    }

    /// Serves `exit`.
    pub(crate) fn leave(&self, _given: Params<'_>) -> Reply
        ensures { (def : Plain) (kind : PlainKind) (method : List ℕ) → notice_of method ≡ Some notices.Exit
            → Serves def kind self.now (note method (given_of _given.entry))
            self.now.encoding self.now.documents (out_of result) }
    {
        Reply::Ended(self.phase.status())
    }

    /// Serves `textDocument/formatting`.
    fn format<L: Ledger>(
        &self,
        alloc: Global,
        defined: &Defined,
        kind: Kind,
        id: &Value,
        given: Params<'_>,
        steps: &mut Steps<L>,
    ) -> Result<Reply, AllocError>
        requires kind { HasKind defined.now.language kind }
        requires fit { IsCommentOf (fixed_words defined.now.language) defined.now.comment }
        ensures { IfOk result (λ r. (method : List ℕ) → call_of method ≡ Some calls.Formatting
            → Serves defined.now kind self.now (request (view id.now) method (given_of given.entry))
            self.now.encoding self.now.documents (out_of r)) }
    {
        match self.open_in(given) {
            Some(document) => {
                let edits = document_edits(alloc, defined, kind, self.encoding, document, steps)?;
                let reply = answered(alloc, id, edits)?;
                Ok(reply)
            }
            None => {
                let reply = refused(alloc, Some(id), Fault::WrongParams)?;
                Ok(reply)
            }
        }
    }

    /// Returns the position of an open document that the parameters name.
    pub(crate) fn place_in(&self, given: Params<'_>) -> Option<Place<'_>>
        ensures { option_map (λ p. place_of p) result ≡ answering.place_in (given_of given.entry) self.now.documents }
    {
        let document = self.open_in(given)?;
        let position = position_in(given)?;
        Some(Place { document, position })
    }

    /// Serves `textDocument/hover`.
    fn hover<L: Ledger>(
        &self,
        alloc: Global,
        defined: &Defined,
        kind: Kind,
        id: &Value,
        given: Params<'_>,
        steps: &mut Steps<L>,
    ) -> Result<Reply, AllocError>
        requires kind { HasKind defined.now.language kind }
        requires fit { IsCommentOf (fixed_words defined.now.language) defined.now.comment }
        ensures { IfOk result (λ r. (method : List ℕ) → call_of method ≡ Some calls.Hover
            → Serves defined.now kind self.now (request (view id.now) method (given_of given.entry))
            self.now.encoding self.now.documents (out_of r)) }
    {
        match self.place_in(given) {
            Some(place) => {
                let document = place.document;
                let position = place.position;
                let told = document_hover(
                    alloc,
                    defined,
                    kind,
                    self.encoding,
                    document,
                    position,
                    steps,
                )?;
                let reply = answered(alloc, id, told)?;
                Ok(reply)
            }
            None => {
                let reply = refused(alloc, Some(id), Fault::WrongParams)?;
                Ok(reply)
            }
        }
    }

    /// Serves a request.
    fn serve_call<L: Ledger>(
        &mut self,
        alloc: Global,
        defined: &Defined,
        kind: Kind,
        call: Call,
        id: &Value,
        given: Params<'_>,
        steps: &mut Steps<L>,
    ) -> Result<Reply, AllocError>
        requires kind { HasKind defined.now.language kind }
        requires fit { IsCommentOf (fixed_words defined.now.language) defined.now.comment }
        ensures served { IfOk result (λ r. (method : List ℕ) → call_of method ≡ Some call
            → Serves defined.now kind self.old (request (view id.now) method (given_of given.entry))
            self.new.encoding self.new.documents (out_of r)) }
        ensures phase { self.new.phase ≡ self.old.phase }
        ensures memory { OnErr result (self.new ≡ self.old) }
    {
        match call {
            Call::Initialize => {
                let reply = self.greet(alloc, id, given)?;
                Ok(reply)
            }
            Call::Shutdown => {
                let reply = self.shut_down(alloc, id, given)?;
                Ok(reply)
            }
            Call::Formatting => {
                let reply = self.format(alloc, defined, kind, id, given, steps)?;
                Ok(reply)
            }
            Call::Hover => {
                let reply = self.hover(alloc, defined, kind, id, given, steps)?;
                Ok(reply)
            }
            Call::Completion => {
                let reply = self.complete(alloc, defined, kind, id, given, steps)?;
                Ok(reply)
            }
            Call::Asking(ask) => {
                let reply = self.ask(alloc, defined, kind, ask, id, given, steps)?;
                Ok(reply)
            }
            Call::Renaming => {
                let reply = self.rename(alloc, defined, kind, id, given, steps)?;
                Ok(reply)
            }
        }
    }

    /// Serves a message that is to be served.
    fn serve<L: Ledger>(
        &mut self,
        alloc: Global,
        defined: &Defined,
        kind: Kind,
        message: &Message<'_>,
        steps: &mut Steps<L>,
    ) -> Result<Reply, AllocError>
        requires kind { HasKind defined.now.language kind }
        requires fit { IsCommentOf (fixed_words defined.now.language) defined.now.comment }
        requires quiet_kind { IsDeclaringPhylum defined.now.language kind → ⊥ }
        requires due { due self.old.phase (is_known (said_of message.now)) (said_of message.now) ≡ served }
        ensures served { IfOk result (λ r. Serves defined.now kind self.old (said_of message.now)
            self.new.encoding self.new.documents (out_of r)) }
        ensures phase { self.new.phase ≡ self.old.phase }
        ensures memory { OnErr result (self.new ≡ self.old) }
    {
        match *message {
            Message::Request { id, method, given } => match call_of(method) {
                Some(call) => {
                    let reply = self.serve_call(alloc, defined, kind, call, id, given, steps)?;
                    Ok(reply)
                }
                None => unreachable!(),
            },
            Message::Note { method, given } => match notice_of(method) {
                Some(notice) => {
                    let reply = self.serve_notice(alloc, defined, kind, notice, given, steps)?;
                    Ok(reply)
                }
                None => unreachable!(),
            },
            Message::Answer => unreachable!(),
            Message::Wrong { id: _ } => unreachable!(),
        }
    }

    /// Returns what follows from a message.
    fn take<L: Ledger>(
        &mut self,
        alloc: Global,
        defined: &Defined,
        kind: Kind,
        message: &Message<'_>,
        steps: &mut Steps<L>,
    ) -> Result<Reply, AllocError>
        requires kind { HasKind defined.now.language kind }
        requires fit { IsCommentOf (fixed_words defined.now.language) defined.now.comment }
        requires quiet_kind { IsDeclaringPhylum defined.now.language kind → ⊥ }
        ensures gets { IfOk result (λ r. Gets defined.now kind self.old (said_of message.now) self.new (out_of r)) }
        ensures memory { OnErr result (self.new ≡ self.old) }
    {
        let turn = turn_of(self.phase, is_known(message), message);
        match turn {
            Turn::Pass => Ok(Reply::Nothing),
            Turn::Refuse { id, fault } => {
                let reply = refused(alloc, id, fault)?;
                Ok(reply)
            }
            Turn::Serve => {
                let reply = self.serve(alloc, defined, kind, message, steps)?;
                self.phase = phase_after(self.phase, &turn, message);
                Ok(reply)
            }
        }
    }

    /// Takes the body of the next frame, and returns what follows from it. Documents are to be programs of the kind, and
    /// may have comments where the language has a token for them.
    /// Fails only when out of memory, and the server is then as before. A message with a text takes the time of a
    /// report of it, or of its printing, and all others take a step for each byte.
    pub fn answer<L: Ledger>(
        &mut self,
        alloc: Global,
        defined: &Defined,
        kind: Kind,
        body: &[u8],
        steps: &mut Steps<L>,
    ) -> Result<Reply, AllocError>
        requires kind { HasKind defined.now.language kind }
        requires fit { IsCommentOf (fixed_words defined.now.language) defined.now.comment }
        requires quiet_kind { IsDeclaringPhylum defined.now.language kind → ⊥ }
        ensures answered { IfOk result (λ r. Answers defined.now kind body.now self.old self.new (out_of r)) }
        ensures memory { OnErr result (self.new ≡ self.old) }
    {
        let found = parsed(alloc, body)?;
        match found {
            None => {
                let reply = refused(alloc, None, Fault::NoJson)?;
                Ok(reply)
            }
            Some(value) => {
                let message = message_of(&value);
                let reply = self.take(alloc, defined, kind, &message, steps)?;
                Ok(reply)
            }
        }
    }
}
