//! Sinks in memory, and one that takes a byte at a time.
ghost use Rattle.std.specs.Prelude.{Some};

use psg_world::{MemSink, Sink, SureSink, WriteStop, put_all};
use std::alloc::Global;
use std::test::Fail;

/// A sink that takes one byte a put, of which some puts are to fail.
#[derive(Drop)]
struct Narrow {
    sink: MemSink,
}

impl Sink for Narrow {
    ghost written = { λ narrow. Some narrow.sink.written };

    ghost faults = { λ narrow. narrow.sink.faults };

    fn put(&mut self, alloc: Global, bytes: &[u8]) -> Result<usize, WriteStop> {
        self.sink.put(alloc, &bytes[..1])
    }
}

#[test]
fn a_sink_fails_at_its_second_put(rt: HostRuntime) -> Result<(), Fail> {
    let alloc = rt.alloc();
    let mut sink = MemSink::new(alloc, vec![in alloc; 2]?);
    assert_eq!(rt; sink.put(alloc, b"one"), Ok(3));
    assert_eq!(rt; sink.put(alloc, b"two"), Err(WriteStop::Failed));
    assert!(rt; sink.written() == b"one".as_slice());
    assert_eq!(rt; sink.put(alloc, b"three"), Ok(5));
    assert!(rt; sink.written() == b"onethree".as_slice());
    let mut sure = SureSink::new(alloc);
    assert_eq!(rt; sure.put(alloc, b"one"), Ok(3));
    assert_eq!(rt; sure.put(alloc, b"two"), Ok(3));
    assert!(rt; sure.written() == b"onetwo".as_slice());
    Ok(())
}

#[test]
fn all_of_a_text_is_put(rt: HostRuntime) -> Result<(), Fail> {
    let alloc = rt.alloc();
    for (failing, result, taken) in [
        (6, Ok(()), "hello"),
        (5, Err(WriteStop::Failed), "hell"),
        (3, Err(WriteStop::Failed), "he"),
        (1, Err(WriteStop::Failed), ""),
    ] {
        let mut narrow = Narrow {
            sink: MemSink::new(alloc, vec![in alloc; failing]?),
        };
        assert_eq!(rt; put_all(alloc, &mut narrow, b"hello"), result);
        assert!(rt;
            narrow.sink.written() == taken.as_bytes(),
            "fails at {failing}"
        );
    }
    let mut sink = MemSink::new(alloc, vec![in alloc; 1]?);
    assert_eq!(rt; put_all(alloc, &mut sink, b""), Ok(()));
    assert_eq!(rt; put_all(alloc, &mut sink, b"a"), Err(WriteStop::Failed));
    Ok(())
}
