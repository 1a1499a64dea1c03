//! Texts that are read and written: those of programs, screens, scripts and definitions.
mod deflines;
mod deftext;
mod langs;
mod lexis;
mod screen;
mod script;

use std::alloc::{AllocError, Global};

/// The unit a number of times, between a beginning and an end.
fn repeated(
    alloc: Global,
    front: &str,
    unit: &str,
    times: usize,
    back: &str,
) -> Result<String, AllocError> {
    let mut out = String::from_str(alloc, front)?;
    for _ in 0..times {
        out.push_str(unit)?;
    }
    out.push_str(back)?;
    Ok(out)
}
