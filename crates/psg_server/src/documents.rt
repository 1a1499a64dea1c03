//! The documents that a client has open.
ghost use Rattle.std.specs.Prelude.{◌≡◌, ◌<◌, [], IfSome, OnErr, OnOk, None, Some, is_some, length, position};
ghost use Rattle.std.specs.Option.{option_map};
ghost use Rattle.psg_server.specs.Documents.{Becomes, document_at, is_at};

use psg_terms::Txt;
use std::alloc::{AllocError, Global};
use std::marker::Model;

/// A text that a client has open.
#[derive(Drop)]
pub struct Document {
    /// The address.
    pub address: Txt,
    /// The version that the client gave it.
    pub version: i64,
    /// The text, where it is known.
    pub text: Option<Txt>,
}

/// The documents that a client has open. Contracts see them as a list.
#[derive(Drop)]
pub struct Documents {
    items: Vec<Document>,
}

impl Model for Documents {
    ghost use Rattle.std.specs.Prelude.{List};
    ghost use Rattle.psg_server.specs.declared.documents.Document.{Document as Plain};

    ghost Value = { List Plain };

    ghost view = { λ d. d.items.items };
}

impl Documents {
    /// Returns no documents. Takes no memory; `alloc` keeps the later documents.
    pub fn new(alloc: Global) -> Documents
        ensures { result ≡ [] }
    {
        Documents {
            items: Vec::new(alloc),
        }
    }

    /// Returns the document with the address, if there is one. It takes a walk over the documents.
    pub fn at(&self, address: &str) -> Option<&Document>
        ensures { option_map (λ d. d.now) result ≡ document_at address.now self.now }
    {
        found_in(self.items.as_slice(), address)
    }

    /// Says whether there is a document with the address. It takes a walk over the documents.
    pub fn has(&self, address: &str) -> bool
        ensures { result ≡ is_some (document_at address.now self.now) }
    {
        match self.at(address) {
            Some(_) => true,
            None => false,
        }
    }

    /// Puts the document in place of that with its address, or after all others where there is none. Fails only when
    /// out of memory, and the documents are then as before. It takes a walk over the documents.
    pub fn put(&mut self, document: Document) -> Result<(), AllocError>
        ensures ok { OnOk result (Becomes document.address (Some document) self.old self.new) }
        ensures err { OnErr result (self.new ≡ self.old) }
    {
        put_in(&mut self.items, document)
    }

    /// Takes away the document with the address, if there is one. It takes a walk over the documents.
    pub fn close(&mut self, address: &str)
        ensures { Becomes address.now None self.old self.new }
    {
        take_out(&mut self.items, address);
    }
}

/// Returns the place of the first document with the address, if there is one.
fn first_at(items: &[Document], address: &str) -> Option<usize>
    ensures { result ≡ position (is_at address.now) items.now }
{
    items
        .iter()
        .position(|document| document.address.as_str() == address)
}

/// Returns the place of the first document with the address, if there is one, which is within the documents.
fn place_of(items: &[Document], address: &str) -> Option<usize>
    ensures is { result ≡ position (is_at address.now) items.now }
    ensures within { IfSome result (λ place. place < length items.now) }
{
    let found = first_at(items, address);
    found
}

/// Returns the first document with the address, if there is one.
fn found_in<'a>(items: &'a [Document], address: &str) -> Option<&'a Document>
    ensures { option_map (λ d. d.now) result ≡ document_at address.now items.now }
{
    match place_of(items, address) {
        Some(place) => Some(&items[place]),
        None => None,
    }
}

/// Puts the document in place of that with its address, or after all others.
fn put_in(items: &mut Vec<Document>, document: Document) -> Result<(), AllocError>
    ensures ok { OnOk result (Becomes document.address (Some document) items.old.items items.new.items) }
    ensures err { OnErr result (items.new.items ≡ items.old.items) }
{
    match place_of(items.as_slice(), document.address.as_str()) {
        Some(place) => {
            items[place] = document;
            Ok(())
        }
        None => {
            items.push(document)?;
            Ok(())
        }
    }
}

/// Takes away all documents with the address.
fn take_out(items: &mut Vec<Document>, address: &str)
    ensures { Becomes address.now None items.old.items items.new.items }
{
    'rest: while let Some(place) = place_of(items.as_slice(), address) {
        let gone = items.remove(place);
        drop(gone);
    }
}
