//! The first faults of definitions, and the fronts of one.
use psg_defread::{ReadFault, fault_text, read_definition};
use psg_langs::MINI;
use std::alloc::{AllocError, Global};
use std::test::Fail;

/// The first fault of the bytes as a text, or `none`.
fn fault(alloc: Global, bytes: &[u8]) -> Result<String, AllocError> {
    if bytes.len() >= 65_536 {
        return Err(AllocError);
    }
    let text = match read_definition(alloc, bytes) {
        Ok(_) => String::from_str(alloc, "none")?,
        Err(ReadFault::Def(fault)) => fault_text(alloc, &fault)?,
        Err(ReadFault::Memory) => return Err(AllocError),
    };
    Ok(text)
}

#[test]
fn each_front_of_mini_is_read(rt: HostRuntime) -> Result<(), Fail> {
    let bytes = MINI.as_bytes();
    for (i, byte) in bytes.iter().enumerate() {
        if *byte == b'\n' {
            let found = fault(rt.alloc(), &bytes[..i])?;
            assert_eq!(rt; found.as_str(), "none");
        }
    }
    let found = fault(rt.alloc(), &bytes[..0])?;
    assert_eq!(rt; found.as_str(), "line 1 code 3");
    Ok(())
}

#[test]
fn on_one_line_the_first_test_decides(rt: HostRuntime) -> Result<(), Fail> {
    for (text, expected) in [
        // a count before a sort
        (
            "psg 1\nsort T = a b\nsort U = c d\nphylum P : T\nop x : P = \"x\"\nrow a\nhole P c by x(x)\n",
            "line 7 code 7",
        ),
        // a count before the entity sort
        (
            "psg 1\nsort T = a b\nphylum P : T\nop x : P = \"x\"\nrow a\n\
            list L : T of P \",\" inline fixed\ndeclare L a : a by x(x)\n",
            "line 7 code 7",
        ),
        // a carriage return is dropped in front of a line feed alone
        ("psg 1\nsort T = a b\r", "line 2 code 2"),
        ("psg 1\nsort T = a b\r\n", "none"),
    ] {
        let found = fault(rt.alloc(), text.as_bytes())?;
        assert_eq!(rt; found.as_str(), expected);
    }
    Ok(())
}
