//! The texts of paths.
ghost use Rattle.std.specs.Prelude.{◌≡◌, ◌++◌, IfOk, string_bytes};
ghost use Rattle.psg_script.specs.Forms.{steps_text};
ghost use Rattle.psg_session.specs.Marked.{path_text};

use psg_tree::Path;
use std::alloc::AllocError;
use std::fmt::Write;

/// Writes each step after a slash.
fn push_steps(line: &mut String, steps: &[u32]) -> Result<(), AllocError>
    ensures { IfOk result (λ _. string_bytes line.new ≡ string_bytes line.old ++ steps_text steps.now) }
{
    for step in steps {
        write!(line, "/{step}")?;
    }
    Ok(())
}

/// Writes the path after the text.
pub fn push_path(line: &mut String, path: &Path) -> Result<(), AllocError>
    ensures { IfOk result (λ _. string_bytes line.new ≡ string_bytes line.old ++ path_text path.now) }
{
    let steps = path.steps();
    if steps.is_empty() {
        line.push_str("/")?;
        return Ok(());
    }
    push_steps(line, steps)?;
    Ok(())
}
