//! Lines of text that are typed.
use psg_keys::{Key, Lines};
use std::alloc::{AllocError, Global};

/// Keys by letters, and the line after them, with `|` at the cursor. `<` and `>` are Left and Right, `[` and `]` Home
/// and End, `-` and `=` Backspace and Delete, `!` is Ctrl-U, `^` and `_` are Up and Down, `/` keeps the line, `~` is a
/// pasted line feed, `@` puts `xy` in place of the line; any other character is typed.
const TYPED: &[(&str, &str)] = &[
    ("", "|"),
    ("ab", "ab|"),
    ("ab<c", "ac|b"),
    ("ab<<<c", "c|ab"),
    ("ab[>c", "ac|b"),
    ("ab>c", "abc|"),
    ("ab[c]d", "cabd|"),
    ("ab-", "a|"),
    ("ab[-", "|ab"),
    ("ab[=", "|b"),
    ("ab=", "ab|"),
    ("abc<!", "|c"),
    ("a~b", "a b|"),
    // a mark is kept together with the character before it
    ("xe\u{301}\u{302}y<<", "x|e\u{301}\u{302}y"),
    ("xe\u{301}y<-", "x|y"),
    ("xe\u{301}y[>=", "x|y"),
    ("xe\u{301}y[>>", "xe\u{301}|y"),
    ("\u{301}a<-", "|a"),
    ("変数<-", "|数"),
    // earlier lines
    ("ab/", "|"),
    ("ab/^", "ab|"),
    ("ab/cd/^^", "ab|"),
    ("ab/cd/^^^", "ab|"),
    ("ab/cd/^^_", "cd|"),
    ("ab/cd/^^__", "|"),
    ("ab/^x", "abx|"),
    ("ab/^x/^^", "ab|"),
    ("//ab/^", "ab|"),
    ("^a", "a|"),
    // the new line is there again after the earlier ones
    ("ab/new^^", "ab|"),
    ("ab/new^_", "new|"),
    ("ab/cd/new<^^__x", "newx|"),
    ("ab/new_", "new|"),
    // a line that is put has its cursor at its end, and the earlier lines stay
    ("@", "xy|"),
    ("ab<@", "xy|"),
    ("ab<@c", "xyc|"),
    ("ab/cd@^", "ab|"),
    ("ab/cd@^_", "xy|"),
    ("ab/cd/^^@^", "cd|"),
    ("ab/^@/^", "xy|"),
];

/// Plays one letter.
fn play(alloc: Global, lines: &mut Lines, c: char) -> Result<(), AllocError> {
    let key = match c {
        '<' => Key::Left,
        '>' => Key::Right,
        '[' => Key::Home,
        ']' => Key::End,
        '-' => Key::Backspace,
        '=' => Key::Delete,
        '!' => Key::Control('u'),
        '^' => Key::Up,
        '_' => Key::Down,
        '~' => Key::Pasted('\n'),
        '/' => return lines.keep(alloc),
        '@' => {
            let mut own = Vec::new(alloc);
            own.push('x')?;
            own.push('y')?;
            lines.put(alloc, own);
            return Ok(());
        }
        c => Key::Char(c),
    };
    lines.press(alloc, key)?;
    Ok(())
}

/// Returns the line after the keys, with its cursor.
fn line_after(alloc: Global, keys: &str) -> Result<String, AllocError> {
    let mut lines = Lines::new(alloc);
    for c in keys.chars() {
        play(alloc, &mut lines, c)?;
    }
    let mut out = String::new(alloc);
    let line = lines.line();
    let place = line.place();
    let chars = line.chars();
    for i in 0..chars.len() {
        if i == place {
            out.push('|')?;
        }
        out.push(chars[i])?;
    }
    if place == chars.len() {
        out.push('|')?;
    }
    Ok(out)
}

/// Says whether all rows are right.
fn all_typed(alloc: Global) -> Result<bool, AllocError> {
    let mut right = true;
    for (keys, expected) in TYPED {
        let found = line_after(alloc, keys)?;
        right = right && found.as_str() == *expected;
    }
    Ok(right)
}

#[test]
fn lines_of_keys(rt: HostRuntime) {
    assert!(rt; all_typed(rt.alloc()).expect(&rt, "memory"));
}
