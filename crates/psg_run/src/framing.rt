//! How the reply to a line is written.
ghost use Rattle.std.specs.Prelude.{◌≡◌, IfOk, count_by, string_bytes};
ghost use Rattle.psg_session.specs.Views.{reply_of};
ghost use Rattle.psg_run.specs.Framed.{in_frame, written_by};
ghost use Rattle.psg_run.specs.Scripts.{is_feed};

use psg_session::{Reply, reply_lines};
use std::alloc::{AllocError, Global};

/// How replies are written.
#[derive(Clone, Copy, Drop)]
pub enum Framing {
    /// Each by itself.
    Plain,
    /// A line with the number of its lines before each.
    Framed,
}

/// Counts the line feeds.
fn count_feeds(bytes: &[u8]) -> usize
    ensures { result ≡ count_by is_feed bytes.now }
{
    bytes.iter().filter(|byte| **byte == b'\n').count()
}

/// Returns the text after a line with the number of its lines. It reads the text once.
fn framed(alloc: Global, text: &str) -> Result<String, AllocError>
    ensures { IfOk result (λ all. string_bytes all ≡ in_frame text.now) }
{
    let count = count_feeds(text.as_bytes());
    let all = format!(in alloc; "{count}\n{text}")?;
    Ok(all)
}

/// Returns what is written for the reply.
pub fn written(alloc: Global, framing: Framing, reply: &Reply) -> Result<String, AllocError>
    ensures { IfOk result (λ text. string_bytes text ≡ written_by framing (reply_of reply.now)) }
{
    let text = reply_lines(alloc, reply)?;
    match framing {
        Framing::Plain => Ok(text),
        Framing::Framed => {
            let all = framed(alloc, text.as_str())?;
            Ok(all)
        }
    }
}
