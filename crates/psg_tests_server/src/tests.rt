//! A conversation on MINI.
ghost use Rattle.std.specs.Prelude.{◌≡◌, ◌<◌, IfOk};
ghost use Rattle.psg_defcomment.specs.Reading.{IsCommentOf};
ghost use Rattle.psg_grammar.specs.WellFormed.{fixed_words};
ghost use Rattle.psg_grammar.specs.Kinds.{HasKind};
ghost use Rattle.psg_specimen.specs.Languages.{IsDeclaringPhylum};

use psg_defread::read_definition;
use psg_grammar::Kind;
use psg_langs::MINI;
use psg_server::{Defined, Reply, Server};
use psg_specimen::accept;
use psg_terms::Steps;
use std::alloc::{AllocError, Global};
use std::marker::Brand;
use std::sync::ledger::{Blank, Ledger};
use std::test::Fail;

/// The language that the text defines, without comments.
fn defined(alloc: Global, text: &str) -> Result<Defined, AllocError>
    ensures { IfOk result (λ d. IsCommentOf (fixed_words d.language) d.comment) }
{
    if text.len() >= 1_048_576 {
        return Err(AllocError);
    }
    let Ok(definition) = read_definition(alloc, text.as_bytes()) else {
        return Err(AllocError);
    };
    match accept(alloc, definition) {
        Ok(language) => Ok(Defined {
            language,
            comment: None,
        }),
        Err(_) => Err(AllocError),
    }
}

/// The bodies of a conversation.
const BODIES: &[&str] = &[
    "{\"id\":1,\"method\":\"textDocument/formatting\"}",
    "{\"id\":2,\"method\":\"initialize\"}",
    "{\"method\":\"textDocument/didOpen\",\"params\":{\"textDocument\":{\"uri\":\"a\",\"version\":1,\"text\":\"x := 1\"}}}",
    "{\"id\":3,\"method\":\"textDocument/formatting\",\"params\":{\"textDocument\":{\"uri\":\"a\"}}}",
    "{\"method\":\"textDocument/didChange\",\"params\":{\"textDocument\":{\"uri\":\"a\",\"version\":4},\"contentChanges\":[{\"text\":\"skip\"}]}}",
    "{\"id\":4,\"method\":\"textDocument/formatting\",\"params\":{\"textDocument\":{\"uri\":\"b\"}}}",
    "{\"method\":\"textDocument/didChange\",\"params\":{\"textDocument\":{\"uri\":\"a\",\"version\":5},\"contentChanges\":[{\"range\":{},\"text\":\"x\"}]}}",
    "{\"id\":7,\"method\":\"textDocument/formatting\",\"params\":{\"textDocument\":{\"uri\":\"a\"}}}",
    "{\"method\":\"textDocument/didChange\",\"params\":{\"textDocument\":{\"uri\":\"a\",\"version\":null},\"contentChanges\":[{\"range\":null,\"text\":\"x :=  1\"}]}}",
    "{\"method\":\"textDocument/didChange\",\"params\":{\"textDocument\":{\"uri\":\"a\",\"version\":6},\"contentChanges\":[]}}",
    "{\"id\":8,\"method\":\"textDocument/formatting\",\"params\":{\"textDocument\":{\"uri\":\"a\"}}}",
    "{\"method\":\"textDocument/didClose\",\"params\":{\"textDocument\":{\"uri\":\"a\"}}}",
    "{\"method\":\"textDocument/didClose\",\"params\":{\"textDocument\":{\"uri\":\"a\"}}}",
    "{\"id\":5,\"method\":\"nothing\"}",
    "{",
    "{\"id\":6,\"method\":\"shutdown\"}",
    "{\"method\":\"exit\"}",
];

/// What comes of them.
const COME: &str =
    "{\"error\":{\"code\":-32002,\"message\":\"the conversation has not begun\"},\"id\":1,\"jsonrpc\":\"2.0\"}
{\"id\":2,\"jsonrpc\":\"2.0\",\"result\":{\"capabilities\":{\"completionProvider\":{},\"definitionProvider\":true,\"documentFormattingProvider\":true,\"documentHighlightProvider\":true,\"hoverProvider\":true,\"referencesProvider\":true,\"renameProvider\":{\"prepareProvider\":true},\"textDocumentSync\":{\"change\":1,\"openClose\":true}},\"serverInfo\":{\"name\":\"psg\"}}}
{\"jsonrpc\":\"2.0\",\"method\":\"textDocument/publishDiagnostics\",\"params\":{\"diagnostics\":[{\"message\":\"x is not declared\",\"range\":{\"end\":{\"character\":1,\"line\":0},\"start\":{\"character\":0,\"line\":0}},\"severity\":2,\"source\":\"psg\"}],\"uri\":\"a\",\"version\":1}}
{\"id\":3,\"jsonrpc\":\"2.0\",\"result\":[{\"newText\":\"x := 1\\n\",\"range\":{\"end\":{\"character\":6,\"line\":0},\"start\":{\"character\":0,\"line\":0}}}]}
{\"jsonrpc\":\"2.0\",\"method\":\"textDocument/publishDiagnostics\",\"params\":{\"diagnostics\":[],\"uri\":\"a\",\"version\":4}}
{\"error\":{\"code\":-32602,\"message\":\"these are no parameters of the method\"},\"id\":4,\"jsonrpc\":\"2.0\"}
{\"jsonrpc\":\"2.0\",\"method\":\"textDocument/publishDiagnostics\",\"params\":{\"diagnostics\":[],\"uri\":\"a\"}}
{\"id\":7,\"jsonrpc\":\"2.0\",\"result\":null}
{\"jsonrpc\":\"2.0\",\"method\":\"textDocument/publishDiagnostics\",\"params\":{\"diagnostics\":[{\"message\":\"x is not declared\",\"range\":{\"end\":{\"character\":1,\"line\":0},\"start\":{\"character\":0,\"line\":0}},\"severity\":2,\"source\":\"psg\"}],\"uri\":\"a\",\"version\":5}}
{\"jsonrpc\":\"2.0\",\"method\":\"textDocument/publishDiagnostics\",\"params\":{\"diagnostics\":[{\"message\":\"x is not declared\",\"range\":{\"end\":{\"character\":1,\"line\":0},\"start\":{\"character\":0,\"line\":0}},\"severity\":2,\"source\":\"psg\"}],\"uri\":\"a\",\"version\":6}}
{\"id\":8,\"jsonrpc\":\"2.0\",\"result\":[{\"newText\":\"x := 1\\n\",\"range\":{\"end\":{\"character\":7,\"line\":0},\"start\":{\"character\":0,\"line\":0}}}]}
{\"jsonrpc\":\"2.0\",\"method\":\"textDocument/publishDiagnostics\",\"params\":{\"diagnostics\":[],\"uri\":\"a\"}}
-
{\"error\":{\"code\":-32601,\"message\":\"there is no such method\"},\"id\":5,\"jsonrpc\":\"2.0\"}
{\"error\":{\"code\":-32700,\"message\":\"this is no JSON\"},\"id\":null,\"jsonrpc\":\"2.0\"}
{\"id\":6,\"jsonrpc\":\"2.0\",\"result\":null}
end 0
";

/// Writes what came of a message, on a line.
fn write_reply(alloc: Global, out: &mut String, reply: Reply) -> Result<(), AllocError> {
    match reply {
        Reply::Nothing => out.push_str("-\n"),
        Reply::Sent(value) => {
            let text = value.to_string(alloc)?;
            out.push_str(text.as_str())?;
            out.push('\n')
        }
        Reply::Ended(status) => {
            let text = format!(in alloc; "end {status}\n")?;
            out.push_str(text.as_str())
        }
    }
}

/// What comes of the bodies.
fn counted<L: Ledger>(
    alloc: Global,
    defined: &Defined,
    kind: Kind,
    ledger: Blank,
) -> Result<String, AllocError>
    requires kind { HasKind defined.now.language kind }
    requires fit { IsCommentOf (fixed_words defined.now.language) defined.now.comment }
    requires quiet_kind { IsDeclaringPhylum defined.now.language kind → ⊥ }
    requires name { ledger.name ≡ L.name }
    requires parts { ledger.parts ≡ L.parts }
    requires some { 0 < L.parts }
{
    let mut steps = Steps::<L>::of(ledger);
    let mut server = Server::new(alloc);
    let mut out = String::new(alloc);
    for body in BODIES {
        let reply = server.answer(alloc, defined, kind, body.as_bytes(), &mut steps)?;
        write_reply(alloc, &mut out, reply)?;
    }
    Ok(out)
}

/// What comes of the bodies, where documents are trees of the phylum of the number.
fn played(alloc: Global, defined: &Defined, phylum: u32) -> Result<String, AllocError>
    requires fit { IsCommentOf (fixed_words defined.now.language) defined.now.comment }
{
    let language = &defined.language;
    if phylum as usize >= language.definition().phyla.as_slice().len() {
        return Err(AllocError);
    }
    let kind = Kind::Phylum(phylum);
    if language.is_declaring(kind) {
        return Err(AllocError);
    }
    counted::<Brand>(alloc, defined, kind, Blank::new(1))
}

#[test]
fn conversation(rt: HostRuntime) -> Result<(), Fail> {
    let alloc = rt.alloc();
    let mini = defined(alloc, MINI)?;
    let own = played(alloc, &mini, 0)?;
    assert_eq!(rt; own.as_str(), COME);
    Ok(())
}
