//! What a message gets, by where the conversation is.
ghost use Rattle.std.specs.Prelude.{◌≡◌};
ghost use Rattle.psg_messages.specs.Messages.{given_of, said_of};
ghost use Rattle.psg_messages.specs.Turns.{are_wrong, code_of, due, due_known, due_note, due_of, due_request, is_ready};
ghost use Rattle.psg_messages.specs.Turns.{phase_after, phase_by, phase_served, refused, status_of};
ghost use Rattle.std.specs.Prelude.{Some};
ghost use Rattle.serde_json.specs.View.{view};

use crate::message::{Message, Params};
use serde_json::Value;

/// Where the conversation is.
#[derive(Clone, Copy, Debug, PartialEq, Eq)]
pub enum Phase {
    /// Before `initialize`.
    Before,
    /// After `initialize`.
    Ready,
    /// After `shutdown`.
    After,
}

impl Phase {
    /// Returns the status that `exit` ends the server with: 0 after `shutdown`, and 1 without it.
    pub fn status(self) -> u8
        ensures { result ≡ status_of self }
    {
        match self {
            Phase::After => 0,
            Phase::Before => 1,
            Phase::Ready => 1,
        }
    }
}

/// Why a message is refused.
#[derive(Clone, Copy, Debug, PartialEq, Eq)]
pub enum Fault {
    /// The body is no JSON.
    NoJson,
    /// The value is no message, or is not allowed now.
    WrongShape,
    /// The server has no such method.
    UnknownMethod,
    /// The method is known, and these are no parameters.
    WrongParams,
    /// The request is before `initialize`.
    NotInitialized,
}

impl Fault {
    /// Returns the code that the protocol has for the fault.
    pub fn code(self) -> i64
        ensures { result ≡ code_of self }
    {
        match self {
            Fault::NoJson => -32700,
            Fault::WrongShape => -32600,
            Fault::UnknownMethod => -32601,
            Fault::WrongParams => -32602,
            Fault::NotInitialized => -32002,
        }
    }
}

/// What a message gets.
#[derive(Clone, Copy)]
pub enum Turn<'a> {
    /// It is served.
    Serve,
    /// It is passed over, with no answer.
    Pass,
    /// It is refused, and the answer has this id or null.
    Refuse { id: Option<&'a Value>, fault: Fault },
}

/// Returns what the message gets. `known` says whether the server has its method.
pub fn turn_of<'a>(phase: Phase, known: bool, message: &Message<'a>) -> Turn<'a>
    ensures { due_of result ≡ due phase known (said_of message.now) }
{
    match *message {
        Message::Request { id, method, given } => {
            turn_of_request(phase, id, method == "initialize", known, are_wrong(given))
        }
        Message::Note { method, given } => {
            turn_of_note(method == "exit", is_ready(phase), known, are_wrong(given))
        }
        Message::Answer => Turn::Pass,
        Message::Wrong { id } => Turn::Refuse {
            id,
            fault: Fault::WrongShape,
        },
    }
}

/// Returns where the conversation is after the message and what it got. Only what is served moves it.
pub fn phase_after(phase: Phase, turn: &Turn<'_>, message: &Message<'_>) -> Phase
    ensures { result ≡ phase_after phase (due_of turn.now) (said_of message.now) }
{
    match *turn {
        Turn::Serve => phase_served(phase, message),
        Turn::Pass => phase,
        Turn::Refuse { id: _, fault: _ } => phase,
    }
}

/// Returns where the conversation is after the message was served.
fn phase_served(phase: Phase, message: &Message<'_>) -> Phase
    ensures { result ≡ phase_served phase (said_of message.now) }
{
    match *message {
        Message::Request {
            id: _,
            method,
            given: _,
        } => { phase_by(phase, method == "initialize", method == "shutdown") }
        Message::Note {
            method: _,
            given: _,
        } => phase,
        Message::Answer => phase,
        Message::Wrong { id: _ } => phase,
    }
}

fn phase_by(phase: Phase, starts: bool, ends: bool) -> Phase
    ensures { result ≡ phase_by phase starts ends }
{
    if starts {
        Phase::Ready
    } else if ends {
        Phase::After
    } else {
        phase
    }
}

/// Returns what a request gets. `starts` says whether it is `initialize`, and `ill` whether its parameters are none.
fn turn_of_request(phase: Phase, id: &Value, starts: bool, known: bool, ill: bool) -> Turn<'_>
    ensures { due_of result ≡ due_request phase (view id.now) starts known ill }
{
    match phase {
        Phase::Before => {
            if starts {
                turn_of_known(id, known, ill)
            } else {
                refused(id, Fault::NotInitialized)
            }
        }
        Phase::Ready => {
            if starts {
                refused(id, Fault::WrongShape)
            } else {
                turn_of_known(id, known, ill)
            }
        }
        Phase::After => refused(id, Fault::WrongShape),
    }
}

/// Returns what a request gets that is allowed now.
fn turn_of_known(id: &Value, known: bool, ill: bool) -> Turn<'_>
    ensures { due_of result ≡ due_known (view id.now) known ill }
{
    if !known {
        refused(id, Fault::UnknownMethod)
    } else if ill {
        refused(id, Fault::WrongParams)
    } else {
        Turn::Serve
    }
}

fn refused(id: &Value, fault: Fault) -> Turn<'_>
    ensures { due_of result ≡ refused (Some (view id.now)) fault }
{
    Turn::Refuse {
        id: Some(id),
        fault,
    }
}

/// Returns what a note gets. `exits` says whether it is `exit`.
fn turn_of_note(exits: bool, ready: bool, known: bool, ill: bool) -> Turn<'static>
    ensures { due_of result ≡ due_note exits ready known ill }
{
    if exits || (ready && known && !ill) {
        Turn::Serve
    } else {
        Turn::Pass
    }
}

fn is_ready(phase: Phase) -> bool
    ensures { result ≡ is_ready phase }
{
    matches!(phase, Phase::Ready)
}

fn are_wrong(given: Params<'_>) -> bool
    ensures { result ≡ are_wrong (given_of given.entry) }
{
    matches!(given, Params::Wrong)
}
