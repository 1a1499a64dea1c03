//! Frames that were worked out by hand.
use psg_protocol::{Frame, FrameReader, framed};
use std::alloc::{AllocError, Global};

/// Pieces, and what is read of them: a body in brackets, `long` with its length, and `lost`.
const READ: &[(&[&[u8]], &str)] = &[
    (&[b"Content-Length: 2\r\n\r\n{}"], "[{}]"),
    (&[b"Content-Length: 2\n\n{}"], "[{}]"),
    (&[b"content-LENGTH:2\r\n\n{}"], "[{}]"),
    (&[b"Content-Length: \t2 \r\n\r\n{}"], "[{}]"),
    (&[b"Content-Length: 0\r\n\r\n"], "[]"),
    (&[b"Content-Length: 007\r\n\r\n1234567"], "[1234567]"),
    // other headers are passed over
    (
        &[b"Content-Type: x; charset=utf-8\r\nContent-Length: 1\r\nX:\r\nwords\r\n\r\na"],
        "[a]",
    ),
    // the last length counts
    (
        &[b"Content-Length: 1\r\nContent-Length: 3\r\n\r\nabc"],
        "[abc]",
    ),
    // two frames, and the beginning of a third one
    (
        &[b"Content-Length: 1\r\n\r\naContent-Length: 2\r\n\r\nbcContent-Len"],
        "[a][bc]",
    ),
    // a body has its bytes alone, whatever they are
    (
        &[b"Content-Length: 4\r\n\r\n\r\n\r\nContent-Length: 3\n\n\xE5\xA4\x89"],
        "[\r\n\r\n][変]",
    ),
    // cut at each place that may be thought of
    (
        &[
            b"C",
            b"ontent-Length:",
            b" 1",
            b"2\r",
            b"\n",
            b"\r",
            b"\n",
            b"abcdef",
            b"ghijkl",
        ],
        "[abcdefghijkl]",
    ),
    (
        &[
            b"Content-Length: 1\r\n\r\n",
            b"",
            b"aContent-Length: 1\n",
            b"\nb",
        ],
        "[a][b]",
    ),
    // not whole yet
    (&[b""], ""),
    (&[b"Content-Length: 3\r\n\r\nab"], ""),
    (&[b"Content-Length: 3\r\n"], ""),
    // a long body is passed over, and told at once
    (
        &[b"Content-Length: 16777217\r\n\r\nabc", b"def"],
        "long16777217",
    ),
    (
        &[b"Content-Length: 999999999999999\r\n\r\n"],
        "long999999999999999",
    ),
    // no length
    (&[b"\r\nContent-Length: 1\r\n\r\na"], "lost"),
    (&[b"\n"], "lost"),
    (
        &[
            b"Content-Type: x\r\n\r\nContent-Length: 1\r\n\r\na",
            b"Content-Length: 1\r\n\r\na",
        ],
        "lost",
    ),
    (&[b"Content-Length: 1\r\n\r\naX: 1\r\n\r\n"], "[a]lost"),
    (&[b"Content-Length: -1\r\n\r\n"], "lost"),
    (&[b"Content-Length: +1\r\n\r\na"], "lost"),
    (&[b"Content-Length: 1 1\r\n\r\na"], "lost"),
    (&[b"Content-Length:\r\n\r\n"], "lost"),
    (&[b"Content-Length: 1000000000000000\r\n\r\n"], "lost"),
    (
        &[b"Content-Length: 1\r\nContent-Length: x\r\n\r\na"],
        "lost",
    ),
    (&[b"Content-Length : 1\r\n\r\na"], "lost"),
    (&[b"Content-Length 1\r\n\r\na"], "lost"),
];

/// Writes what is read of a frame.
fn write_frame(out: &mut String, frame: &Frame) -> Result<(), AllocError> {
    match frame {
        Frame::Body(bytes) => {
            out.push('[')?;
            match str::from_utf8(bytes.as_slice()) {
                Ok(text) => out.push_str(text)?,
                Err(_) => out.push('?')?,
            }
            out.push(']')?;
        }
        Frame::TooLong(size) => write!(out, "long{size}")?,
        Frame::Lost => out.push_str("lost")?,
    }
    Ok(())
}

/// Returns what is read of the pieces.
fn frames(alloc: Global, pieces: &[&[u8]]) -> Result<String, AllocError> {
    let mut out = String::new(alloc);
    let mut reader = FrameReader::new(alloc);
    for piece in pieces {
        let found = reader.read(alloc, piece)?;
        for frame in &found {
            write_frame(&mut out, frame)?;
        }
    }
    Ok(out)
}

/// Says whether all rows are right.
fn all_read(alloc: Global) -> Result<bool, AllocError> {
    let mut right = true;
    for (pieces, expected) in READ {
        let found = frames(alloc, pieces)?;
        right = right && found.as_str() == *expected;
    }
    Ok(right)
}

/// Says whether a header with that many lines, and a line of that length, is read.
fn is_read(alloc: Global, lines: usize, long: usize) -> Result<bool, AllocError> {
    let mut text = String::from_str(alloc, "Content-Length: 1\n")?;
    for _ in 0..lines {
        text.push_str("X: 1\r\n")?;
    }
    for _ in 0..long {
        text.push('x')?;
    }
    text.push_str("\n\na")?;
    Ok(frames(alloc, &[text.as_bytes()])?.as_str() == "[a]")
}

/// Says whether what is framed is read back.
fn comes_back(alloc: Global) -> Result<bool, AllocError> {
    let bytes = framed(alloc, b"{\"id\":1}")?;
    let right = bytes.as_slice() == b"Content-Length: 8\r\n\r\n{\"id\":1}".as_slice();
    Ok(right && frames(alloc, &[bytes.as_slice()])?.as_str() == "[{\"id\":1}]")
}

#[test]
fn frames_of_pieces(rt: HostRuntime) {
    assert!(rt; all_read(rt.alloc()).expect(&rt, "memory"));
}

#[test]
fn headers_have_limits(rt: HostRuntime) {
    let alloc = rt.alloc();
    // with the length, a long line and the empty line 64 lines
    assert!(rt; is_read(alloc, 61, 1).expect(&rt, "memory"));
    assert!(rt; !is_read(alloc, 62, 1).expect(&rt, "memory"));
    assert!(rt; is_read(alloc, 1, 4095).expect(&rt, "memory"));
    assert!(rt; !is_read(alloc, 1, 4096).expect(&rt, "memory"));
}

#[test]
fn framed_bodies_come_back(rt: HostRuntime) {
    assert!(rt; comes_back(rt.alloc()).expect(&rt, "memory"));
}
