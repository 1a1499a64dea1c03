//! What the server says of itself.
ghost use Rattle.std.specs.Prelude.{◌≡◌, IfOk};
ghost use Rattle.serde_json.specs.View.{view};
ghost use Rattle.psg_server.specs.Capabilities.{can, capabilities_of, greeting_of, greeting_with};
ghost use Rattle.psg_server.specs.Capabilities.{named, preparing, sync};

use psg_documents::Encoding;
use serde_json::{Value, json};
use std::alloc::{AllocError, Global};

/// Returns how documents are announced.
fn sync_value(alloc: Global) -> Result<Value, AllocError>
    ensures { IfOk result (λ v. view v ≡ sync) }
{
    json!(in alloc; {"openClose": true, "change": 1u8})
}

/// Returns what the server can do with new names.
fn preparing_value(alloc: Global) -> Result<Value, AllocError>
    ensures { IfOk result (λ v. view v ≡ preparing) }
{
    json!(in alloc; {"prepareProvider": true})
}

/// Returns what the server can do, with the name of the encoding.
fn named_capabilities(alloc: Global, name: &str) -> Result<Value, AllocError>
    ensures { IfOk result (λ v. view v ≡ can (named name.now)) }
{
    let sync = sync_value(alloc)?;
    let preparing = preparing_value(alloc)?;
    json!(in alloc; {
        "textDocumentSync": sync,
        "positionEncoding": name,
        "documentFormattingProvider": true,
        "hoverProvider": true,
        "completionProvider": {},
        "definitionProvider": true,
        "referencesProvider": true,
        "documentHighlightProvider": true,
        "renameProvider": preparing
    })
}

/// Returns what the server can do, where columns are counted in utf-16.
fn plain_capabilities(alloc: Global) -> Result<Value, AllocError>
    ensures { IfOk result (λ v. view v ≡ capabilities_of Encoding.Utf16) }
{
    let sync = sync_value(alloc)?;
    let preparing = preparing_value(alloc)?;
    json!(in alloc; {
        "textDocumentSync": sync,
        "documentFormattingProvider": true,
        "hoverProvider": true,
        "completionProvider": {},
        "definitionProvider": true,
        "referencesProvider": true,
        "documentHighlightProvider": true,
        "renameProvider": preparing
    })
}

/// Returns what the server can do.
fn capabilities(alloc: Global, encoding: Encoding) -> Result<Value, AllocError>
    ensures { IfOk result (λ v. view v ≡ capabilities_of encoding) }
{
    match encoding {
        Encoding::Utf8 => named_capabilities(alloc, "utf-8"),
        Encoding::Utf16 => plain_capabilities(alloc),
        Encoding::Utf32 => named_capabilities(alloc, "utf-32"),
    }
}

/// Returns the answer to `initialize`, with what the server can do.
fn greeting_with(alloc: Global, capabilities: Value) -> Result<Value, AllocError>
    ensures { IfOk result (λ v. view v ≡ greeting_with (view capabilities)) }
{
    json!(in alloc; {"capabilities": capabilities, "serverInfo": {"name": "psg"}})
}

/// Returns the answer to `initialize`. Fails only when out of memory.
pub(crate) fn greeting(alloc: Global, encoding: Encoding) -> Result<Value, AllocError>
    ensures { IfOk result (λ v. view v ≡ greeting_of encoding) }
{
    let capabilities = capabilities(alloc, encoding)?;
    let greeting = greeting_with(alloc, capabilities)?;
    Ok(greeting)
}
