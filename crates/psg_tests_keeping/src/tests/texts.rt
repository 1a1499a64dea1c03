//! Texts with comments from `//` on, and what is written for new ones.
use psg_comments::is_fit;
use psg_keeping::{Keeping, Rule};
use psg_lexis::Lexis;
use psg_terms::Txt;
use psg_world::{Files, MemFiles};
use std::alloc::{AllocError, Global};
use std::test::Fail;

/// The rule of a language with these symbols.
fn rule(alloc: Global) -> Result<Rule, AllocError> {
    let mut words = Vec::new(alloc);
    for word in "+ < := ;".split(' ') {
        words.push(Txt::copy_of(alloc, word)?)?;
    }
    let token = Txt::copy_of(alloc, "//")?;
    if !is_fit(words.as_slice(), token.as_str()) {
        return Err(AllocError);
    }
    Ok(Rule::new(Lexis::new(alloc, words.as_slice())?, token))
}

/// Files with one file, which is opened.
fn opened(alloc: Global, text: &str) -> Result<Keeping<MemFiles>, Fail> {
    let mut held = Vec::new(alloc);
    held.push((
        String::from_str(alloc, "a")?,
        Vec::from_slice(alloc, text.as_bytes())?,
    ))?;
    let files = MemFiles::new(alloc, held, Vec::new(alloc));
    let mut keeping = Keeping::new(files, Some(rule(alloc)?));
    keeping.open(alloc, "a", 1000)?;
    Ok(keeping)
}

/// What the file holds after its replacements by these texts.
fn written(alloc: Global, text: &str, news: &[&str]) -> Result<Vec<u8>, Fail> {
    let mut keeping = opened(alloc, text)?;
    for new in news {
        keeping.replace(alloc, "a", new.as_bytes())?;
    }
    Ok(keeping.read(alloc, "a", 1000)?)
}

#[test]
fn comments_are_kept(rt: HostRuntime) -> Result<(), Fail> {
    let alloc = rt.alloc();
    let sums = "// cost\n2 + 3 + // apples\n  4;    // pears\n1 < 2   // cheap\n";
    for (text, new, expected) in [
        // the same program
        (
            sums,
            "2 + 3 + 4;\n1 < 2\n",
            "// cost\n2 + 3 + // apples\n  4; // pears\n1 < 2 // cheap\n",
        ),
        // a token in front of the comment at the end is another one
        (
            sums,
            "2 + 3 + 4;\n1 < 7\n",
            "// cost\n2 + 3 + // apples\n  4; // pears\n1 < 7 // cheap\n",
        ),
        // a token after a comment within a statement is another one
        (
            sums,
            "2 + 3 + 5;\n1 < 2\n",
            "// cost\n2 + 3 + // apples\n  5; // pears\n1 < 2 // cheap\n",
        ),
        // a statement less
        (
            sums,
            "1 < 2\n",
            "// cost\n// apples\n// pears\n1 < 2 // cheap\n",
        ),
        // a statement more
        (
            "// one\na := 1; // first\n// two\nb := 2; // second\n",
            "a := 1;\nc := 3;\nb := 2;\n",
            "// one\na := 1; // first\nc := 3;\n// two\nb := 2; // second\n",
        ),
        // another name after a comment
        (
            "a := 1\n// two\nb := 2\n",
            "a := 1\nc := 2\n",
            "a := 1\n// two\nc := 2\n",
        ),
        // the program is gone
        ("a // one\n", "b\n", "b // one\n"),
        ("// one\na\n", "b\n", "// one\nb\n"),
        // a statement without a separator is another one
        (
            "a // one\n// two\nb := 2 // second\n// three\nc\n",
            "a\n1 + 3\nc\n",
            "a // one\n// two\n1 + 3 // second\n// three\nc\n",
        ),
        // no comments
        ("a\n", "b\n", "b\n"),
        // after the last token
        ("a\n// end\n", "b + a\n", "b + a\n// end\n"),
    ] {
        let found = written(alloc, text, &[new])?;
        assert_eq!(rt; String::from_utf8(found)?.as_str(), expected);
    }
    Ok(())
}

#[test]
fn what_was_written_is_known(rt: HostRuntime) -> Result<(), Fail> {
    let alloc = rt.alloc();
    let found = written(alloc, "a // one\nb\n", &["a\nc\nb\n", "a\nc\n"])?;
    let expected = "a // one\nc\n";
    assert_eq!(rt; String::from_utf8(found)?.as_str(), expected);
    Ok(())
}
