//! Requests about the names of a document.
ghost use Rattle.std.specs.Prelude.{ℕ, ◌≡◌, IfOk, List, Some};
ghost use Rattle.serde_json.specs.View.{view};
ghost use Rattle.psg_defcomment.specs.Reading.{IsCommentOf};
ghost use Rattle.psg_grammar.specs.WellFormed.{fixed_words};
ghost use Rattle.psg_grammar.specs.Kinds.{HasKind};
ghost use Rattle.psg_messages.specs.Messages.{given_of, request};
ghost use Rattle.psg_server.specs.declared.methods.Call.TheVariants as calls;
ghost use Rattle.psg_server.specs.Answering.{Serves, out_of};
ghost use Rattle.psg_server.specs.Answering as answering;
ghost use Rattle.psg_server.specs.Methods.{call_of};

use crate::fields::{naming_in, wants_declaring};
use crate::judging::Defined;
use crate::linking::document_reply;
use crate::methods::Ask;
use crate::renaming::{Unnamed, document_naming, words};
use crate::server::{Reply, Server, answered, refused};
use psg_grammar::Kind;
use psg_messages::{Fault, Params, refusal};
use psg_terms::Steps;
use serde_json::Value;
use std::alloc::{AllocError, Global};
use std::sync::ledger::Ledger;

/// Returns the answer to a request for a new name.
fn naming_reply(
    alloc: Global,
    id: &Value,
    named: Result<Value, Unnamed>,
) -> Result<Reply, AllocError>
    ensures { IfOk result (λ r. out_of r ≡ answering.naming_out (view id.now) named) }
{
    match named {
        Ok(value) => {
            let reply = answered(alloc, id, value)?;
            Ok(reply)
        }
        Err(why) => {
            let value = refusal(alloc, Some(id), Fault::WrongParams, words(why))?;
            Ok(Reply::Sent(value))
        }
    }
}

impl Server {
    /// Serves a question about the name at a position.
    pub(crate) fn ask<L: Ledger>(
        &self,
        alloc: Global,
        defined: &Defined,
        kind: Kind,
        ask: Ask,
        id: &Value,
        given: Params<'_>,
        steps: &mut Steps<L>,
    ) -> Result<Reply, AllocError>
        requires kind { HasKind defined.now.language kind }
        requires fit { IsCommentOf (fixed_words defined.now.language) defined.now.comment }
        ensures { IfOk result (λ r. (method : List ℕ) → call_of method ≡ Some (calls.Asking ask)
            → Serves defined.now kind self.now (request (view id.now) method (given_of given.entry))
            self.now.encoding self.now.documents (out_of r)) }
    {
        match self.place_in(given) {
            Some(place) => {
                let document = place.document;
                let position = place.position;
                let all = wants_declaring(given);
                let value = document_reply(
                    alloc,
                    defined,
                    kind,
                    self.encoding,
                    document,
                    ask,
                    all,
                    position,
                    steps,
                )?;
                let reply = answered(alloc, id, value)?;
                Ok(reply)
            }
            None => {
                let reply = refused(alloc, Some(id), Fault::WrongParams)?;
                Ok(reply)
            }
        }
    }

    /// Serves `textDocument/rename`.
    pub(crate) fn rename<L: Ledger>(
        &self,
        alloc: Global,
        defined: &Defined,
        kind: Kind,
        id: &Value,
        given: Params<'_>,
        steps: &mut Steps<L>,
    ) -> Result<Reply, AllocError>
        requires kind { HasKind defined.now.language kind }
        requires fit { IsCommentOf (fixed_words defined.now.language) defined.now.comment }
        ensures { IfOk result (λ r. (method : List ℕ) → call_of method ≡ Some calls.Renaming
            → Serves defined.now kind self.now (request (view id.now) method (given_of given.entry))
            self.now.encoding self.now.documents (out_of r)) }
    {
        let Some(document) = self.open_in(given) else {
            let reply = refused(alloc, Some(id), Fault::WrongParams)?;
            return Ok(reply);
        };
        match naming_in(given) {
            Some(naming) => {
                let named = document_naming(
                    alloc,
                    defined,
                    kind,
                    self.encoding,
                    document,
                    naming,
                    steps,
                )?;
                let reply = naming_reply(alloc, id, named)?;
                Ok(reply)
            }
            None => {
                let reply = refused(alloc, Some(id), Fault::WrongParams)?;
                Ok(reply)
            }
        }
    }
}
