//! Messages that were worked out by hand.
use psg_messages::{
    Fault, Message, Params, Phase, Turn, answer, message_of, note, parsed, phase_after, refusal,
    turn_of,
};
use serde_json::Value;
use std::alloc::{AllocError, Global};

/// Bodies, and what they say: the kind, the id, the method and the parameters.
const SAID: &[(&[u8], &str)] = &[
    (
        b"{\"jsonrpc\":\"2.0\",\"id\":1,\"method\":\"initialize\",\"params\":{\"a\":1}}",
        "request 1 initialize {\"a\":1}",
    ),
    (
        b"{\"id\":\"x\",\"method\":\"shutdown\"}",
        "request \"x\" shutdown -",
    ),
    (
        b"{\"id\":-7,\"method\":\"shutdown\",\"params\":null}",
        "request -7 shutdown -",
    ),
    (
        b"{\"id\":18446744073709551615,\"method\":\"m\",\"params\":[]}",
        "request 18446744073709551615 m -",
    ),
    (b"{\"method\":\"exit\"}", "note exit -"),
    (b"{\"method\":\"a/b\",\"params\":{}}", "note a/b {}"),
    (b"{\"method\":\"m\",\"params\":[1]}", "note m wrong"),
    (b"{\"method\":\"m\",\"params\":3}", "note m wrong"),
    (b"{\"method\":\"m\",\"params\":\"\"}", "note m wrong"),
    (b"{\"method\":\"m\",\"params\":false}", "note m wrong"),
    // of two members of one name the last counts
    (
        b"{\"id\":1,\"method\":\"m\",\"id\":2,\"method\":\"n\"}",
        "request 2 n -",
    ),
    // an id that is none
    (b"{\"id\":null,\"method\":\"m\"}", "wrong"),
    (b"{\"id\":1.5,\"method\":\"m\"}", "wrong"),
    (b"{\"id\":1.0,\"method\":\"m\"}", "wrong"),
    (b"{\"id\":[1],\"method\":\"m\"}", "wrong"),
    (b"{\"id\":{},\"method\":\"m\"}", "wrong"),
    (b"{\"id\":true,\"method\":\"m\"}", "wrong"),
    // no method
    (b"{\"id\":1,\"result\":null}", "answer"),
    (
        b"{\"id\":1,\"error\":{\"code\":1,\"message\":\"\"}}",
        "answer",
    ),
    (b"{\"result\":1}", "answer"),
    (b"{\"id\":1}", "wrong 1"),
    (b"{\"id\":4,\"method\":5}", "wrong 4"),
    (b"{\"id\":4,\"method\":null,\"result\":1}", "wrong 4"),
    (b"{}", "wrong"),
    // no object
    (b"[{\"id\":1,\"method\":\"m\"}]", "wrong"),
    (b"null", "wrong"),
    (b"\"method\"", "wrong"),
    (b"7", "wrong"),
    // no JSON
    (b"", "none"),
    (b"{\"id\":1", "none"),
    (b"{\"id\":1,}", "none"),
    (b"{'id':1}", "none"),
    (b"{\"method\":\"\\ud800\"}", "none"),
    (b"{\"method\":\"\xff\"}", "none"),
    (b"{} {}", "none"),
];

/// Writes a value after a space.
fn write_value(alloc: Global, out: &mut String, value: &Value) -> Result<(), AllocError> {
    let text = value.to_string(alloc)?;
    out.push(' ')?;
    out.push_str(text.as_str())
}

/// Writes the parameters after a space.
fn write_given(alloc: Global, out: &mut String, given: Params<'_>) -> Result<(), AllocError> {
    match given {
        Params::Nothing => out.push_str(" -"),
        Params::Fields(value) => write_value(alloc, out, value),
        Params::Wrong => out.push_str(" wrong"),
    }
}

/// Writes what a message says.
fn write_message(alloc: Global, out: &mut String, message: &Message<'_>) -> Result<(), AllocError> {
    match *message {
        Message::Request { id, method, given } => {
            out.push_str("request")?;
            write_value(alloc, out, id)?;
            out.push(' ')?;
            out.push_str(method)?;
            write_given(alloc, out, given)
        }
        Message::Note { method, given } => {
            out.push_str("note ")?;
            out.push_str(method)?;
            write_given(alloc, out, given)
        }
        Message::Answer => out.push_str("answer"),
        Message::Wrong { id } => {
            out.push_str("wrong")?;
            match id {
                Some(id) => write_value(alloc, out, id),
                None => Ok(()),
            }
        }
    }
}

/// Returns what a body says.
fn told(alloc: Global, body: &[u8]) -> Result<String, AllocError> {
    let mut out = String::new(alloc);
    match parsed(alloc, body)? {
        None => out.push_str("none")?,
        Some(value) => write_message(alloc, &mut out, &message_of(&value))?,
    }
    Ok(out)
}

/// Says whether all rows are right.
fn all_said(alloc: Global) -> Result<bool, AllocError> {
    let mut right = true;
    for (body, expected) in SAID {
        right = right && told(alloc, body)?.as_str() == *expected;
    }
    Ok(right)
}

/// Where the conversation is, whether the method is known, a body, and what it gets.
const TURNS: &[(Phase, bool, &[u8], &str)] = &[
    (
        Phase::Before,
        true,
        b"{\"id\":1,\"method\":\"initialize\",\"params\":{}}",
        "serve",
    ),
    (
        Phase::Before,
        true,
        b"{\"id\":1,\"method\":\"initialize\",\"params\":1}",
        "-32602 1",
    ),
    (
        Phase::Before,
        true,
        b"{\"id\":1,\"method\":\"textDocument/hover\"}",
        "-32002 1",
    ),
    (
        Phase::Before,
        false,
        b"{\"id\":1,\"method\":\"a\"}",
        "-32002 1",
    ),
    (
        Phase::Before,
        true,
        b"{\"id\":1,\"method\":\"shutdown\"}",
        "-32002 1",
    ),
    (
        Phase::Before,
        true,
        b"{\"method\":\"textDocument/didOpen\"}",
        "pass",
    ),
    (Phase::Before, true, b"{\"method\":\"exit\"}", "serve"),
    (
        Phase::Ready,
        true,
        b"{\"id\":1,\"method\":\"initialize\"}",
        "-32600 1",
    ),
    (
        Phase::Ready,
        true,
        b"{\"id\":\"a\",\"method\":\"shutdown\"}",
        "serve",
    ),
    (
        Phase::Ready,
        false,
        b"{\"id\":\"a\",\"method\":\"$/x\"}",
        "-32601 \"a\"",
    ),
    (
        Phase::Ready,
        false,
        b"{\"id\":2,\"method\":\"x\",\"params\":1}",
        "-32601 2",
    ),
    (
        Phase::Ready,
        true,
        b"{\"id\":2,\"method\":\"x\",\"params\":[1]}",
        "-32602 2",
    ),
    (
        Phase::Ready,
        false,
        b"{\"method\":\"$/cancelRequest\",\"params\":{\"id\":1}}",
        "pass",
    ),
    (
        Phase::Ready,
        true,
        b"{\"method\":\"textDocument/didOpen\",\"params\":{}}",
        "serve",
    ),
    (
        Phase::Ready,
        true,
        b"{\"method\":\"textDocument/didOpen\",\"params\":1}",
        "pass",
    ),
    (Phase::Ready, true, b"{\"id\":3}", "-32600 3"),
    (Phase::Ready, true, b"[]", "-32600"),
    (Phase::Ready, true, b"{\"id\":3,\"result\":null}", "pass"),
    (
        Phase::After,
        true,
        b"{\"id\":1,\"method\":\"textDocument/hover\",\"params\":{}}",
        "-32600 1",
    ),
    (
        Phase::After,
        false,
        b"{\"id\":1,\"method\":\"x\"}",
        "-32600 1",
    ),
    (
        Phase::After,
        true,
        b"{\"method\":\"textDocument/didOpen\",\"params\":{}}",
        "pass",
    ),
    (Phase::After, true, b"{\"method\":\"exit\"}", "serve"),
];

/// Returns what a body gets.
fn gets(alloc: Global, phase: Phase, known: bool, body: &[u8]) -> Result<String, AllocError> {
    let mut out = String::new(alloc);
    let Some(value) = parsed(alloc, body)? else {
        return Ok(out);
    };
    match turn_of(phase, known, &message_of(&value)) {
        Turn::Serve => out.push_str("serve")?,
        Turn::Pass => out.push_str("pass")?,
        Turn::Refuse { id, fault } => {
            write!(out, "{}", fault.code())?;
            if let Some(id) = id {
                write_value(alloc, &mut out, id)?;
            }
        }
    }
    Ok(out)
}

/// Says whether all rows are right.
fn all_gotten(alloc: Global) -> Result<bool, AllocError> {
    let mut right = true;
    for (phase, known, body, expected) in TURNS {
        right = right && gets(alloc, *phase, *known, body)?.as_str() == *expected;
    }
    Ok(right)
}

/// A conversation: each body, and where the conversation is after it.
const TALK: &[(&[u8], Phase)] = &[
    (b"{\"id\":1,\"method\":\"shutdown\"}", Phase::Before),
    (b"{\"method\":\"initialize\"}", Phase::Before),
    (
        b"{\"id\":2,\"method\":\"initialize\",\"params\":3}",
        Phase::Before,
    ),
    (
        b"{\"id\":3,\"method\":\"initialize\",\"params\":{}}",
        Phase::Ready,
    ),
    (
        b"{\"id\":4,\"method\":\"initialize\",\"params\":{}}",
        Phase::Ready,
    ),
    (b"{\"method\":\"shutdown\"}", Phase::Ready),
    (
        b"{\"id\":5,\"method\":\"textDocument/hover\"}",
        Phase::Ready,
    ),
    (b"{\"id\":6,\"method\":\"shutdown\"}", Phase::After),
    (
        b"{\"id\":7,\"method\":\"initialize\",\"params\":{}}",
        Phase::After,
    ),
];

/// Says whether the conversation goes as it should, where each method is known.
fn talk_goes(alloc: Global) -> Result<bool, AllocError> {
    let mut right = true;
    let mut phase = Phase::Before;
    for (body, expected) in TALK {
        if let Some(value) = parsed(alloc, body)? {
            let message = message_of(&value);
            phase = phase_after(phase, &turn_of(phase, true, &message), &message);
        }
        right = right && phase == *expected;
    }
    Ok(right && phase.status() == 0 && Phase::Ready.status() == 1)
}

/// Says whether a value has the text.
fn is_text(alloc: Global, value: &Value, expected: &str) -> Result<bool, AllocError> {
    Ok(value.to_string(alloc)?.as_str() == expected)
}

fn is_null_answered(alloc: Global) -> Result<bool, AllocError> {
    let sent = answer(alloc, &Value::from(3u64), Value::Null)?;
    let text = "{\"id\":3,\"jsonrpc\":\"2.0\",\"result\":null}";
    is_text(alloc, &sent, text)
}

fn is_method_refused(alloc: Global) -> Result<bool, AllocError> {
    let id = Value::from(3u64);
    let sent = refusal(alloc, Some(&id), Fault::UnknownMethod, "no such method")?;
    let text =
        "{\"error\":{\"code\":-32601,\"message\":\"no such method\"},\"id\":3,\"jsonrpc\":\"2.0\"}";
    is_text(alloc, &sent, text)
}

fn is_text_refused(alloc: Global) -> Result<bool, AllocError> {
    let sent = refusal(alloc, None, Fault::NoJson, "")?;
    let text = "{\"error\":{\"code\":-32700,\"message\":\"\"},\"id\":null,\"jsonrpc\":\"2.0\"}";
    is_text(alloc, &sent, text)
}

fn is_noted(alloc: Global) -> Result<bool, AllocError> {
    let sent = note(alloc, "m", Value::Bool(true))?;
    let text = "{\"jsonrpc\":\"2.0\",\"method\":\"m\",\"params\":true}";
    is_text(alloc, &sent, text)
}

/// Says whether each kind of message is sent as it is to be.
fn all_sent(alloc: Global) -> Result<bool, AllocError> {
    Ok(
        is_null_answered(alloc)?
            && is_method_refused(alloc)?
            && is_text_refused(alloc)?
            && is_noted(alloc)?,
    )
}

#[test]
fn bodies_say(rt: HostRuntime) {
    assert!(rt; all_said(rt.alloc()).expect(&rt, "memory"));
}

#[test]
fn messages_get(rt: HostRuntime) {
    assert!(rt; all_gotten(rt.alloc()).expect(&rt, "memory"));
}

#[test]
fn conversations_go_on(rt: HostRuntime) {
    assert!(rt; talk_goes(rt.alloc()).expect(&rt, "memory"));
}

#[test]
fn values_are_sent(rt: HostRuntime) {
    assert!(rt; all_sent(rt.alloc()).expect(&rt, "memory"));
}
