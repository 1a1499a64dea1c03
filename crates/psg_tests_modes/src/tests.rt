//! Keys and the faces that they make, worked by hand.
use psg_grammar::{Definition, Item, Level, Operator};
use psg_keymap::{Face, Leaf, Message, Mode, Spot, Why};
use psg_keys::{Key, KeyReader};
use psg_modes::{
    begin_names, browse_key, choose_key, choose_path, is_forward, key_page, leaf_at, led,
    led_by_lines, name_key, next_of, node_line, page_key, paths_of, place_of, say, say_unknown,
    show_offers, show_page, take_size, type_key, why_at,
};
use psg_places::Place;
use psg_terms::{Seq, Signature, Txt};
use psg_tree::{Part, Path, Shape, Tree};
use psg_unparse::{Printed, Span};
use std::alloc::{AllocError, Global};
use std::process::Abort;
use std::test::Fail;

/// A key, and the mode with the line, the number that is picked and the first line of the page after it.
type Row = (char, &'static str);

/// Of `bar`, `rest` and `round` those that begin with the line are shown.
const PICKED: &[Row] = &[
    ('v', "choosing  1 0"),
    ('v', "choosing  2 0"),
    ('v', "choosing  2 0"),
    ('^', "choosing  1 0"),
    ('r', "choosing r 0 0"),
    ('v', "choosing r 1 0"),
    ('v', "choosing r 1 0"),
    ('+', "choosing r 1 0"),
    ('o', "choosing ro 0 0"),
    ('v', "choosing ro 0 0"),
    ('#', "choosing r 0 0"),
    ('!', "browsing  0 0"),
];

/// A page of 18 lines on a screen of 12 rows, of which 7 are the page's.
const SCROLLED: &[Row] = &[
    ('v', "paging  0 1"),
    ('+', "paging  0 8"),
    ('+', "paging  0 11"),
    ('v', "paging  0 11"),
    ('^', "paging  0 10"),
    ('<', "paging  0 9"),
    ('>', "paging  0 10"),
    ('-', "paging  0 3"),
    ('-', "paging  0 0"),
    ('x', "browsing  0 0"),
];

/// A name and a number are typed; Enter at an empty line does nothing, and Tab puts the name that is picked into the
/// line.
const NAMED: &[Row] = &[
    ('\n', "naming  0 0"),
    ('v', "naming  1 0"),
    ('\t', "naming na 0 0"),
    ('\n', "naming  0 0"),
    ('7', "naming 7 0 0"),
];

/// A line is typed; Escape leaves it, and keeps it.
const TYPED: &[Row] = &[
    ('a', "typing a 0 0"),
    ('b', "typing ab 0 0"),
    ('#', "typing a 0 0"),
    ('!', "browsing  0 0"),
];

/// Where a key leads from `/1`.
const LED: &[(char, &str)] = &[
    ('^', "/"),
    ('v', "/1/0"),
    ('<', "/0"),
    ('>', "/1"),
    ('\t', "/1/1"),
    ('x', "-"),
];

/// A path, whether it is Page Down, and where it leads on a screen that has one row for the program.
const PAGED: &[(&str, bool, &str)] = &[("/", true, "/1"), ("/1", false, "/")];

/// Which of the wrong places `/`, `/1/1` and `/1`, which are listed so, is the next one after a path, or the one
/// before.
const NEXT: &[(&str, bool, &str)] = &[
    ("/", true, "/1"),
    ("/0", true, "/1"),
    ("/1", true, "/1/1"),
    ("/1/0", true, "/1/1"),
    ("/1/1", true, "/"),
    ("/", false, "/1/1"),
    ("/0", false, "/"),
    ("/1", false, "/"),
    ("/1/1", false, "/1"),
];

/// What the bytes of a key make of a face of which `/1` is chosen, and the last line of the screen.
const BROWSED: &[(&str, &str)] = &[
    ("e", "typing b c 0 0"),
    ("o", "typing  0 0"),
    ("?", "paging  0 0"),
    ("q", "leaving  0 0"),
    ("z", "no key browsing  0 0"),
    ("\x0c", "browsing  0 0"),
    ("\x01", "no key browsing  0 0"),
    ("\x1b[99z", "unknown browsing  0 0"),
];

fn key_of(c: char) -> Key {
    match c {
        '^' => Key::Up,
        'v' => Key::Down,
        '<' => Key::Left,
        '>' => Key::Right,
        '\t' => Key::Tab,
        '\n' => Key::Enter,
        '#' => Key::Backspace,
        '!' => Key::Escape,
        '+' => Key::PageDown,
        '-' => Key::PageUp,
        _ => Key::Char(c),
    }
}

fn mode_word(mode: Mode) -> &'static str {
    match mode {
        Mode::Browsing => "browsing",
        Mode::Typing => "typing",
        Mode::Choosing => "choosing",
        Mode::Naming => "naming",
        Mode::Paging => "paging",
        Mode::Leaving => "leaving",
        _ => "another mode",
    }
}

fn message_word(message: &Message) -> &'static str {
    match message {
        Message::NoKey => "no key ",
        Message::Unknown(_) => "unknown ",
        _ => "",
    }
}

/// Says what the face is.
fn told(alloc: Global, face: &Face) -> Result<String, AllocError> {
    let mut text = String::new(alloc);
    text.push_str(message_word(&face.message))?;
    let line = face.line_text(alloc)?;
    let mode = mode_word(face.mode);
    let words = line.as_str();
    let pick = face.pick;
    let top = face.page_top;
    write!(&mut text, "{mode} {words} {pick} {top}")?;
    Ok(text)
}

fn offers_of(alloc: Global, words: &[&str]) -> Result<Vec<String>, AllocError> {
    let mut offers = Vec::new(alloc);
    for word in words {
        offers.push(String::from_str(alloc, word)?)?;
    }
    Ok(offers)
}

/// Reads a path, as `/1/0`.
fn path_of(alloc: Global, text: &str) -> Result<Path, AllocError> {
    let mut steps = Vec::new(alloc);
    for word in text.split('/') {
        if let Ok(step) = word.parse::<u32>() {
            steps.push(step)?;
        }
    }
    Path::of(alloc, steps.as_slice())
}

/// Writes a path, as `/1/0`.
fn text_of(alloc: Global, path: &Path) -> Result<String, AllocError> {
    let mut text = String::new(alloc);
    if path.steps().is_empty() {
        text.push('/')?;
    }
    for step in path.steps() {
        write!(&mut text, "/{step}")?;
    }
    Ok(text)
}

fn operator(alloc: Global, parts: Vec<Part>) -> Result<Tree, AllocError> {
    let parts = Seq::of(parts);
    Tree::new(alloc, Shape::Op { op: 0, parts })
}

/// An operator with a name `x`, an operator `/0`, and an operator `/1` with an operator `/1/0` and a placeholder
/// `/1/1`.
fn worked_tree(alloc: Global) -> Result<Tree, AllocError> {
    let mut inner = Vec::new(alloc);
    inner.push(Part::Sub(operator(alloc, Vec::new(alloc))?))?;
    inner.push(Part::Sub(Tree::new(alloc, Shape::Hole { phylum: 0 })?))?;
    let mut parts = Vec::new(alloc);
    parts.push(Part::Name(Txt::copy_of(alloc, "x")?))?;
    parts.push(Part::Sub(operator(alloc, Vec::new(alloc))?))?;
    parts.push(Part::Sub(operator(alloc, inner)?))?;
    operator(alloc, parts)
}

fn span(alloc: Global, path: &str, start: usize, end: usize) -> Result<Span, AllocError> {
    let path = path_of(alloc, path)?;
    Ok(Span { path, start, end })
}

/// A text of two lines, with `a` at `/0` and `b` and `c` in `/1`.
fn worked_text(alloc: Global) -> Result<Printed, AllocError> {
    let mut spans = Vec::new(alloc);
    spans.push(span(alloc, "/", 0, 9)?)?;
    spans.push(span(alloc, "/0", 2, 3)?)?;
    spans.push(span(alloc, "/1", 4, 9)?)?;
    Ok(Printed {
        text: Txt::copy_of(alloc, "x a b\n  c\n")?,
        spans: Seq::of(spans),
    })
}

/// A signature without sorts.
fn no_signature(alloc: Global) -> Result<Signature, AllocError> {
    let none = Vec::new(alloc);
    match Signature::new(alloc, none) {
        Ok(signature) => Ok(signature),
        Err(_) => Err(AllocError),
    }
}

/// An operator `v` with a new name and a number.
fn worked_definition(alloc: Global) -> Result<Definition, AllocError> {
    let mut items = Vec::new(alloc);
    items.push(Item::Declares(0))?;
    items.push(Item::Number)?;
    let mut operators = Vec::new(alloc);
    operators.push(Operator {
        name: Txt::copy_of(alloc, "v")?,
        phylum: 0,
        level: Level::Plain,
        scope: false,
        items: Seq::of(items),
        rows: Seq::of(Vec::new(alloc)),
    })?;
    Ok(Definition {
        version: 1,
        signature: no_signature(alloc)?,
        spaces: Seq::of(Vec::new(alloc)),
        phyla: Seq::of(Vec::new(alloc)),
        lists: Seq::of(Vec::new(alloc)),
        operators: Seq::of(operators),
        hole_rows: Seq::of(Vec::new(alloc)),
        declare_rows: Seq::of(Vec::new(alloc)),
    })
}

/// Returns the name that is wrong.
fn why_word(why: &Why) -> &str {
    match why {
        Why::Name(name) => name.as_str(),
        _ => "",
    }
}

fn check(rt: &impl Abort, alloc: Global, face: &Face, key: &str, wanted: &str) -> Result<(), Fail> {
    let found = told(alloc, face)?;
    assert_eq!(rt; found.as_str(), wanted, "after {key:?}");
    Ok(())
}

/// Returns a face that offers three operators.
fn choosing_face(alloc: Global) -> Result<Face, AllocError> {
    let mut face = Face::new(alloc, 24, 80)?;
    let target = path_of(alloc, "/1")?;
    let place = Some(2);
    let offers = offers_of(alloc, &["bar", "rest", "round"])?;
    show_offers(alloc, &mut face, Spot { target, place }, offers);
    Ok(face)
}

#[test]
fn offers_are_picked(rt: HostRuntime) -> Result<(), Fail> {
    let alloc = rt.alloc();
    let mut face = choosing_face(alloc)?;
    for (key, wanted) in PICKED {
        choose_key(alloc, &mut face, key_of(*key))?;
        check(&rt, alloc, &face, "a key", wanted)?;
    }
    Ok(())
}

/// Returns a face of 12 rows that shows the page of keys.
fn paging_face(alloc: Global) -> Result<Face, AllocError> {
    let mut face = Face::new(alloc, 24, 80)?;
    take_size(&mut face, 12, 5000);
    let page = key_page(alloc)?;
    show_page(&mut face, page);
    Ok(face)
}

#[test]
fn pages_are_scrolled(rt: HostRuntime) -> Result<(), Fail> {
    let alloc = rt.alloc();
    let mut face = paging_face(alloc)?;
    assert_eq!(&rt; face.cols, 1000);
    for (key, wanted) in SCROLLED {
        page_key(alloc, &mut face, key_of(*key));
        check(&rt, alloc, &face, "a key", wanted)?;
    }
    assert!(&rt; face.page.is_empty());
    Ok(())
}

/// Returns a face in which the names and literals of the operator `v` are typed.
fn naming_face(alloc: Global) -> Result<Face, AllocError> {
    let mut face = Face::new(alloc, 24, 80)?;
    let op = Txt::copy_of(alloc, "v")?;
    let offers = offers_of(alloc, &["n", "na"])?;
    begin_names(alloc, &mut face, op, offers)?;
    Ok(face)
}

/// Does a key while the names and literals of the operator are typed.
fn type_name(alloc: Global, face: &mut Face, key: Key) -> Result<(), AllocError> {
    let definition = worked_definition(alloc)?;
    name_key(alloc, &definition, face, key)
}

#[test]
fn names_are_typed(rt: HostRuntime) -> Result<(), Fail> {
    let alloc = rt.alloc();
    let mut face = naming_face(alloc)?;
    for (key, wanted) in NAMED {
        type_name(alloc, &mut face, key_of(*key))?;
        check(&rt, alloc, &face, "a key", wanted)?;
    }
    assert_eq!(&rt; face.args.as_str(), "na");
    Ok(())
}

/// Returns what is typed after that many names and literals of the operator.
fn typed_after(alloc: Global, number: usize) -> Result<Option<Leaf>, AllocError> {
    let mut face = naming_face(alloc)?;
    face.leaf = number;
    let definition = worked_definition(alloc)?;
    leaf_at(alloc, &definition, &face)
}

#[test]
fn a_number_is_typed_last(rt: HostRuntime) -> Result<(), Fail> {
    let alloc = rt.alloc();
    let second = typed_after(alloc, 1)?;
    assert!(&rt; matches!(second, Some(Leaf::Number)));
    let third = typed_after(alloc, 2)?;
    assert!(&rt; third.is_none());
    Ok(())
}

#[test]
fn lines_are_typed(rt: HostRuntime) -> Result<(), Fail> {
    let alloc = rt.alloc();
    let mut face = Face::new(alloc, 24, 80)?;
    face.enter(alloc, Mode::Typing);
    for (key, wanted) in TYPED {
        type_key(alloc, &mut face, key_of(*key))?;
        check(&rt, alloc, &face, "a key", wanted)?;
    }
    face.enter(alloc, Mode::Typing);
    type_key(alloc, &mut face, Key::Up)?;
    check(&rt, alloc, &face, "up", "typing a 0 0")?;
    Ok(())
}

/// Writes the path, and `-` where there is none.
fn path_or_none(alloc: Global, path: Option<&Path>) -> Result<String, AllocError> {
    match path {
        Some(path) => text_of(alloc, path),
        None => String::from_str(alloc, "-"),
    }
}

/// Writes where the key leads from `/1`.
fn led_text(alloc: Global, tree: &Tree, key: Key) -> Result<String, AllocError> {
    let from = path_of(alloc, "/1")?;
    let path = led(alloc, tree, &from, key)?;
    path_or_none(alloc, path.as_ref())
}

#[test]
fn keys_lead(rt: HostRuntime) -> Result<(), Fail> {
    let alloc = rt.alloc();
    let tree = worked_tree(alloc)?;
    for (key, wanted) in LED {
        let found = led_text(alloc, &tree, key_of(*key))?;
        assert_eq!(&rt; found.as_str(), *wanted, "{key:?}");
    }
    Ok(())
}

/// Returns a face with that number of rows, of which this path is chosen.
fn face_at(alloc: Global, rows: u32, path: &str) -> Result<Face, AllocError> {
    let mut face = Face::new(alloc, rows, 80)?;
    let chosen = path_of(alloc, path)?;
    choose_path(&mut face, chosen);
    Ok(face)
}

/// Writes where a key of pages leads from the path on a screen that has one row for the program.
fn paged_text(alloc: Global, path: &str, down: bool) -> Result<String, AllocError> {
    let face = face_at(alloc, 7, path)?;
    let printed = worked_text(alloc)?;
    let found = led_by_lines(alloc, &printed, &face, down)?;
    text_of(alloc, &found)
}

#[test]
fn keys_of_pages_lead(rt: HostRuntime) -> Result<(), Fail> {
    let alloc = rt.alloc();
    for (path, down, wanted) in PAGED {
        let found = paged_text(alloc, path, *down)?;
        assert_eq!(&rt; found.as_str(), *wanted, "{path}");
    }
    Ok(())
}

/// Returns the face after these keys, of which `/1` is chosen and the program was changed.
fn browsed(alloc: Global, tree: &Tree, printed: &Printed, keys: &str) -> Result<Face, AllocError> {
    let mut face = face_at(alloc, 24, "/1")?;
    say(&mut face, Message::Kept);
    let mut reader = KeyReader::new(alloc);
    let strokes = reader.read(alloc, keys.as_bytes())?;
    for stroke in strokes.as_slice() {
        browse_key(alloc, tree, printed, true, &mut face, stroke)?;
    }
    Ok(face)
}

#[test]
fn letters_open_lines(rt: HostRuntime) -> Result<(), Fail> {
    let alloc = rt.alloc();
    let tree = worked_tree(alloc)?;
    let printed = worked_text(alloc)?;
    for (keys, wanted) in BROWSED {
        let face = browsed(alloc, &tree, &printed, keys)?;
        check(&rt, alloc, &face, keys, wanted)?;
    }
    Ok(())
}

#[test]
fn a_node_is_a_line(rt: HostRuntime) -> Result<(), Fail> {
    let alloc = rt.alloc();
    let tree = worked_tree(alloc)?;
    let printed = worked_text(alloc)?;
    let path = path_of(alloc, "/0")?;
    let line = node_line(alloc, &tree, &printed, &path)?;
    assert_eq!(&rt; line.as_slice(), ['a'].as_slice());
    Ok(())
}

/// Returns a face in which a line is typed, after bytes that are no key.
fn unknown_said(alloc: Global) -> Result<Face, AllocError> {
    let mut face = Face::new(alloc, 24, 80)?;
    face.enter(alloc, Mode::Typing);
    let mut reader = KeyReader::new(alloc);
    let strokes = reader.read(alloc, "\x1b[99z".as_bytes())?;
    for stroke in strokes.as_slice() {
        say_unknown(alloc, &mut face, stroke)?;
    }
    Ok(face)
}

#[test]
fn what_is_no_key_is_said(rt: HostRuntime) -> Result<(), Fail> {
    let alloc = rt.alloc();
    let face = unknown_said(alloc)?;
    check(&rt, alloc, &face, "no key", "unknown typing  0 0")?;
    Ok(())
}

/// Returns three wrong places, in an order that is not that of the text.
fn worked_places(alloc: Global) -> Result<Vec<Place>, AllocError> {
    let mut places = Vec::new(alloc);
    places.push(Place::Name(path_of(alloc, "/")?, 0))?;
    places.push(Place::Node(path_of(alloc, "/1/1")?))?;
    places.push(Place::End(path_of(alloc, "/1")?))?;
    Ok(places)
}

/// Writes which path is next.
fn next_text(
    alloc: Global,
    paths: &[Path],
    from: &str,
    forward: bool,
) -> Result<String, AllocError> {
    let path = path_of(alloc, from)?;
    path_or_none(alloc, next_of(paths, &path, forward))
}

#[test]
fn wrong_places_are_next(rt: HostRuntime) -> Result<(), Fail> {
    let alloc = rt.alloc();
    let places = worked_places(alloc)?;
    let paths = paths_of(alloc, places.as_slice())?;
    assert!(&rt; is_forward(Key::Char('n')));
    for (from, forward, wanted) in NEXT {
        let found = next_text(alloc, paths.as_slice(), from, *forward)?;
        assert_eq!(&rt; found.as_str(), *wanted, "{from}");
    }
    Ok(())
}

/// Writes the name that is wrong at the path of the tree.
fn why_text(
    alloc: Global,
    tree: &Tree,
    places: &[Place],
    path: &str,
) -> Result<String, AllocError> {
    let path = path_of(alloc, path)?;
    match place_of(places, &path) {
        Some(place) => {
            let why = why_at(alloc, tree, place)?;
            String::from_str(alloc, why_word(&why))
        }
        None => String::from_str(alloc, "-"),
    }
}

#[test]
fn a_name_is_wrong(rt: HostRuntime) -> Result<(), Fail> {
    let alloc = rt.alloc();
    let tree = worked_tree(alloc)?;
    let places = worked_places(alloc)?;
    let told = why_text(alloc, &tree, places.as_slice(), "/")?;
    assert_eq!(&rt; told.as_str(), "x");
    Ok(())
}
