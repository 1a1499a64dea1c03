//! The methods of the messages that the server has.
ghost use Rattle.std.specs.Prelude.{◌≡◌};
ghost use Rattle.psg_messages.specs.Messages.{said_of};
ghost use Rattle.psg_server.specs.Methods.{ask_of, call_of, is_known, notice_of};

use psg_messages::Message;

/// A question about the name at a position of a document.
#[derive(Clone, Copy, Debug, PartialEq, Eq)]
pub enum Ask {
    /// `textDocument/definition`
    Definition,
    /// `textDocument/references`
    References,
    /// `textDocument/documentHighlight`
    Highlights,
    /// `textDocument/prepareRename`
    Preparing,
}

/// A request that the server has.
#[derive(Clone, Copy, Debug, PartialEq, Eq)]
pub enum Call {
    /// `initialize`
    Initialize,
    /// `shutdown`
    Shutdown,
    /// `textDocument/formatting`
    Formatting,
    /// `textDocument/hover`
    Hover,
    /// `textDocument/completion`
    Completion,
    /// A question about the name at a position.
    Asking(Ask),
    /// `textDocument/rename`
    Renaming,
}

/// A note that the server has.
#[derive(Clone, Copy, Debug, PartialEq, Eq)]
pub enum Notice {
    /// `textDocument/didOpen`
    Opened,
    /// `textDocument/didChange`
    Changed,
    /// `textDocument/didClose`
    Closed,
    /// `exit`
    Exit,
}

/// Returns the question of the name, if the server has one.
fn ask_of(method: &str) -> Option<Ask>
    ensures { result ≡ ask_of method.now }
{
    if method == "textDocument/definition" {
        Some(Ask::Definition)
    } else if method == "textDocument/references" {
        Some(Ask::References)
    } else if method == "textDocument/documentHighlight" {
        Some(Ask::Highlights)
    } else if method == "textDocument/prepareRename" {
        Some(Ask::Preparing)
    } else {
        None
    }
}

/// Returns the request of the name, if the server has one.
pub(crate) fn call_of(method: &str) -> Option<Call>
    ensures { result ≡ call_of method.now }
{
    if method == "initialize" {
        Some(Call::Initialize)
    } else if method == "shutdown" {
        Some(Call::Shutdown)
    } else if method == "textDocument/formatting" {
        Some(Call::Formatting)
    } else if method == "textDocument/hover" {
        Some(Call::Hover)
    } else if method == "textDocument/completion" {
        Some(Call::Completion)
    } else if method == "textDocument/rename" {
        Some(Call::Renaming)
    } else {
        match ask_of(method) {
            Some(ask) => Some(Call::Asking(ask)),
            None => None,
        }
    }
}

/// Returns the note of the name, if the server has one.
pub(crate) fn notice_of(method: &str) -> Option<Notice>
    ensures { result ≡ notice_of method.now }
{
    if method == "textDocument/didOpen" {
        Some(Notice::Opened)
    } else if method == "textDocument/didChange" {
        Some(Notice::Changed)
    } else if method == "textDocument/didClose" {
        Some(Notice::Closed)
    } else if method == "exit" {
        Some(Notice::Exit)
    } else {
        None
    }
}

/// Says whether the server has the method of the message.
pub(crate) fn is_known(message: &Message<'_>) -> bool
    ensures { result ≡ is_known (said_of message.now) }
{
    match *message {
        Message::Request {
            id: _,
            method,
            given: _,
        } => call_of(method).is_some(),
        Message::Note { method, given: _ } => notice_of(method).is_some(),
        Message::Answer => false,
        Message::Wrong { id: _ } => false,
    }
}
