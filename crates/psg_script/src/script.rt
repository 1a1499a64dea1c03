//! A large script, made by rule.
ghost use Rattle.std.specs.Prelude.{◌≡◌, ◌++◌, ◌≤◌, IfOk, OnOk, string_bytes};
ghost use Rattle.std.specs.List.{flat_map};
ghost use Rattle.psg_script.specs.Script.{numbers_down, declare_lines, assign_lines, script_lines, with_feeds};

use std::alloc::{AllocError, Global};
use std::fmt::Write;

/// Writes the lines that declare the variables below a number, the greatest first.
fn push_declarations(script: &mut String, n: u32) -> Result<(), AllocError>
    ensures { OnOk result (string_bytes script.new
        ≡ string_bytes script.old ++ with_feeds (flat_map declare_lines (numbers_down n))) }
{
    for i in (0..n).rev() {
        write!(script, "insert /0 0 vardecl v{i}\nrefine /0/0/0 tint\n")?;
    }
    Ok(())
}

/// Writes the lines that assign to the variables below a number, the greatest first.
fn push_assignments(script: &mut String, n: u32) -> Result<(), AllocError>
    ensures { OnOk result (string_bytes script.new
        ≡ string_bytes script.old ++ with_feeds (flat_map assign_lines (numbers_down n))) }
{
    for i in (0..n).rev() {
        write!(
            script,
            "insert /1 0 assign v{i}\nrefine /1/0/0 plus\nrefine /1/0/0/0 ref v{i}\nrefine /1/0/0/1 num {i}\n"
        )?;
    }
    Ok(())
}

/// Makes a script of 6n + 6 lines for `n` variables, from 1 to 1,000, each line with a line feed. It makes a block,
/// declares the variables `v0`, `v1` and so on as `int`, closes the declarations, assigns to each variable the sum of
/// itself and its number, puts a loop before the assignments, and asks for the menu at its condition.
pub fn make_script(alloc: Global, n: u32) -> Result<Vec<u8>, AllocError>
    requires low { 1 ≤ n }
    requires high { n ≤ 1000 }
    ensures { IfOk result (λ bytes. bytes.items ≡ with_feeds (script_lines n)) }
{
    let mut script = String::from_str(alloc, "new Stat\nrefine / block\n")?;
    push_declarations(&mut script, n)?;
    script.push_str("close /0\n")?;
    push_assignments(&mut script, n)?;
    script.push_str("insert /1 0 while\nmenu /1/0/0\n")?;
    Ok(script.into_bytes())
}
