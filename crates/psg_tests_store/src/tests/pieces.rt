//! Inputs that come by pieces: where the bytes are cut, and that none is lost or given twice.
ghost use Rattle.std.specs.Prelude.{◌<◌};

use psg_world::{MemPieces, Pieces, ReadStop, ReaderPieces};
use std::alloc::Global;
use std::test::Fail;

/// Puts what an input gives up to its end, a bar after each piece, and an exclamation mark for a read that fails.
fn put_pieces<I: Pieces>(
    alloc: Global,
    input: &mut I,
    most: usize,
    answers: &mut Vec<u8>,
) -> Result<(), ReadStop>
    requires { 0 < most }
{
    for _ in 0..100 {
        match input.next_piece(alloc, most) {
            Ok(piece) => {
                if piece.is_empty() {
                    return Ok(());
                }
                answers.extend_from_slice(&piece)?;
                answers.push(b'|')?;
            }
            Err(ReadStop::Failed) => answers.push(b'!')?,
            Err(ReadStop::Memory) => return Err(ReadStop::Memory),
        }
    }
    Ok(())
}

/// What an input in memory answers.
fn answers_of(
    alloc: Global,
    sizes: &[usize],
    failing: &[u64],
    most: usize,
) -> Result<Vec<u8>, ReadStop>
    requires { 0 < most }
{
    let bytes = Vec::from_slice(alloc, b"abcdefgh")?;
    let sizes = Vec::from_slice(alloc, sizes)?;
    let failing = Vec::from_slice(alloc, failing)?;
    let mut input = MemPieces::new(alloc, bytes, sizes, failing);
    let mut answers = Vec::new(alloc);
    put_pieces(alloc, &mut input, most, &mut answers)?;
    Ok(answers)
}

// A size of 0 counts as 1, a read that fails has its size too, and no piece is longer than what is asked for.
#[test]
fn the_sizes_say_where_bytes_are_cut(rt: HostRuntime) -> Result<(), Fail> {
    let alloc = rt.alloc();
    let whole = answers_of(alloc, &[], &[], 9)?;
    assert!(rt; whole.as_slice() == b"abcdefgh|".as_slice());
    let even = answers_of(alloc, &[], &[], 3)?;
    assert!(rt; even.as_slice() == b"abc|def|gh|".as_slice());
    let cut = answers_of(alloc, &[1, 0, 5], &[], 3)?;
    assert!(rt; cut.as_slice() == b"a|b|cde|fgh|".as_slice());
    let failing = answers_of(alloc, &[2, 2], &[2], 4)?;
    assert!(rt; failing.as_slice() == b"ab|!cdef|gh|".as_slice());
    Ok(())
}

#[test]
fn a_reader_gives_what_is_there(rt: HostRuntime) -> Result<(), Fail> {
    let alloc = rt.alloc();
    let mut input = ReaderPieces::new(alloc, b"abcdefgh".as_slice());
    let mut answers = Vec::new(alloc);
    put_pieces(alloc, &mut input, 3, &mut answers)?;
    assert!(rt; answers.as_slice() == b"abc|def|gh|".as_slice());
    Ok(())
}
