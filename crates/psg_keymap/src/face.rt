//! What the editor on the screen keeps beside the program.
ghost use Rattle.std.specs.Prelude.{◌≡◌, ◌++◌, ◌∷◌, [], encode_utf8_all, eqb, map, string_bytes, IfOk, OnOk};
ghost use Rattle.std.specs.List.{filter, starts_with};
ghost use Rattle.psg_keymap.specs.Faces as faces;
ghost use Rattle.psg_keymap.specs.Views.{face_of};

use crate::ranges::longer;
use psg_keys::Lines;
use psg_terms::Txt;
use psg_tree::Path;
use std::alloc::{AllocError, Global};

/// What keys are for now.
#[derive(Clone, Copy, PartialEq, Eq)]
pub enum Mode {
    /// A place of the program is chosen, and letters are keys.
    Browsing,
    /// A line of text is open, which takes the chosen place.
    Typing,
    /// One of the operators that fit is picked; what is typed narrows them.
    Choosing,
    /// The names and literals of the operator that was picked are typed, one after the other.
    Naming,
    /// The name of the file is typed.
    Saving,
    /// It was asked whether to write over a file that is there.
    Replacing,
    /// A page of lines is shown.
    Paging,
    /// It was asked whether to end without writing.
    Leaving,
}

/// What is wrong at a place.
#[derive(Drop)]
pub enum Why {
    /// The node does not fit with what is before it.
    Node,
    /// The element does not fit with what is before it.
    Element,
    /// The list may not end here.
    End,
    /// The name does not fit with what is before it.
    Name(Txt),
    /// The parts of the node do not fit with each other.
    Parts,
}

/// What the last line of the screen says.
#[derive(Drop)]
pub enum Message {
    /// Nothing.
    Quiet,
    /// The last command was refused, with this number.
    Refused(u8),
    /// A letter that is no key.
    NoKey,
    /// These bytes are no key.
    Unknown(Vec<u8>),
    /// The key needed memory that is not there, and changed nothing.
    NoMemory,
    /// The node is kept as `it`.
    Kept,
    /// The program is in the file.
    Written,
    /// The file was not written, and has what it had.
    NotWritten,
    /// The program is not proved, and writes no files.
    Unproved,
    /// No place is wrong.
    NothingWrong,
    /// The chosen place is wrong.
    Wrong(Why),
}

/// What the editor on the screen keeps beside the program.
#[derive(Drop)]
pub struct Face {
    /// The rows of the screen.
    pub rows: u32,
    /// The columns of the screen.
    pub cols: u32,
    /// The way to the chosen node, or to the `...` of an unfinished list.
    pub chosen: Path,
    /// What the keys act on.
    pub mode: Mode,
    /// The line of text with the earlier ones. It is empty where none is open.
    pub lines: Lines,
    /// The operators that fit, or the names.
    pub offers: Vec<String>,
    /// The number of the offer that is picked, among those that begin with the line.
    pub pick: usize,
    /// Where an operator is put: at the path, which is a placeholder's, or before a place of the list there.
    pub target: Path,
    /// The place of the list before which the operator is put, if it is put into a list.
    pub place: Option<u32>,
    /// The operator that was picked.
    pub operator: Option<Txt>,
    /// Its names and literals that were typed already, and how many these are.
    pub args: Txt,
    /// How many names and literals of it were typed already.
    pub leaf: usize,
    /// The lines of the page that is shown.
    pub page: Vec<String>,
    /// The number of the first line of the page that is shown.
    pub page_top: u32,
    /// The number of the first line of the program that is shown, from 0.
    pub top: u32,
    /// The number of the first column that is shown, from 0.
    pub left: u32,
    /// What the last line of the screen says.
    pub message: Message,
    /// The editor is at its end.
    pub ended: bool,
}

impl Face {
    /// Makes the face with which an editor begins on a screen of that many rows and columns: the top of the program is
    /// chosen. It fails where memory runs out.
    pub fn new(alloc: Global, rows: u32, cols: u32) -> Result<Face, AllocError>
        ensures { IfOk result (λ face. face_of face ≡ faces.at_first rows cols) }
    {
        let chosen = Path::of(alloc, &[])?;
        let target = Path::of(alloc, &[])?;
        let args = Txt::copy_of(alloc, "")?;
        Ok(Face {
            rows,
            cols,
            chosen,
            mode: Mode::Browsing,
            lines: Lines::new(alloc),
            offers: Vec::new(alloc),
            pick: 0,
            target,
            place: None,
            operator: None,
            args,
            leaf: 0,
            page: Vec::new(alloc),
            page_top: 0,
            top: 0,
            left: 0,
            message: Message::Quiet,
            ended: false,
        })
    }

    /// Goes to a mode with an empty line. It takes no memory.
    pub fn enter(&mut self, alloc: Global, mode: Mode)
        ensures { face_of self.new ≡ faces.in_mode mode (face_of self.old) }
    {
        self.mode = mode;
        self.lines.put(alloc, Vec::new(alloc));
        self.message = Message::Quiet;
    }

    /// Opens a line of text with these characters. It takes no memory.
    pub fn open_line(&mut self, alloc: Global, mode: Mode, text: Vec<char>)
        ensures { face_of self.new ≡ faces.with_line mode text.items (face_of self.old) }
    {
        self.mode = mode;
        self.lines.put(alloc, text);
        self.message = Message::Quiet;
    }

    /// Returns the characters of the line as a text.
    pub fn line_text(&self, alloc: Global) -> Result<Txt, AllocError>
        ensures { IfOk result (λ text. text ≡ faces.typed_text (face_of self.now)) }
    {
        let line = self.lines.line();
        let text = text_of(alloc, line.chars())?;
        Ok(text)
    }

    /// Returns the offers that begin with the characters of the line, in order.
    pub fn shown_offers(&self, alloc: Global) -> Result<Vec<&str>, AllocError>
        ensures { IfOk result (λ shown. map (λ t. t.now) shown.items ≡ faces.shown_offers (face_of self.now)) }
    {
        let front = self.line_text(alloc)?;
        let offers = self.offers.as_slice();
        let text = front.as_str();
        let shown = offers_with(alloc, offers, text)?;
        Ok(shown)
    }

    /// Returns the offer that is picked among those that begin with the characters of the line.
    pub fn picked(&self, alloc: Global) -> Result<Option<Txt>, AllocError>
        ensures { IfOk result (λ picked. picked ≡ faces.picked_offer (face_of self.now)) }
    {
        let shown = self.shown_offers(alloc)?;
        let offers = shown.as_slice();
        match offers.get(self.pick) {
            Some(offer) => {
                let name = Txt::copy_of(alloc, offer)?;
                Ok(Some(name))
            }
            None => Ok(None),
        }
    }

    /// Returns the path of what is put at the target.
    pub fn put_path(&self, alloc: Global) -> Result<Path, AllocError>
        ensures { IfOk result (λ path. path ≡ faces.with_place self.now.target self.now.place) }
    {
        let path = with_place(alloc, &self.target, self.place)?;
        Ok(path)
    }
}

/// Says whether the text begins with the other one.
fn begins_with(text: &str, front: &str) -> bool
    ensures { result ≡ starts_with eqb text.now front.now }
{
    text.starts_with(front)
}

/// Adds the offer, if it begins with the text.
#[tactic(auto, using(crate::proofs::OfferLaws::pushed, crate::proofs::OfferLaws::not_pushed))]
fn push_offer<'a>(shown: &mut Vec<&'a str>, offer: &'a str, front: &str) -> Result<(), AllocError>
    ensures { OnOk result (map (λ t. t.now) shown.new.items
        ≡ map (λ t. t.now) shown.old.items ++ filter (λ o. starts_with eqb o front.now) (offer.now ∷ [])) }
{
    let fits = begins_with(offer, front);
    if fits {
        shown.push(offer)?;
        return Ok(());
    }
    Ok(())
}

/// Returns those of the offers that begin with the text, in order.
fn offers_with<'a>(
    alloc: Global,
    offers: &'a [String],
    front: &str,
) -> Result<Vec<&'a str>, AllocError>
    ensures { IfOk result (λ shown. map (λ t. t.now) shown.items
        ≡ filter (λ o. starts_with eqb o front.now) (map string_bytes offers.now)) }
{
    let mut shown = Vec::new(alloc);
    for offer in offers {
        let text = offer.as_str();
        push_offer(&mut shown, text, front)?;
    }
    Ok(shown)
}

/// Returns the text of the characters.
fn text_of(alloc: Global, chars: &[char]) -> Result<Txt, AllocError>
    ensures { IfOk result (λ text. text ≡ encode_utf8_all chars.now) }
{
    let mut text = String::new(alloc);
    for i in 0..chars.len() {
        text.push(chars[i])?;
    }
    let made = Txt::of(alloc, text)?;
    Ok(made)
}

/// Returns the path of a place of a list, or of the node itself.
pub fn with_place(alloc: Global, path: &Path, place: Option<u32>) -> Result<Path, AllocError>
    ensures { IfOk result (λ led. led ≡ faces.with_place path.now place) }
{
    match place {
        Some(place) => {
            let led = longer(alloc, path, place)?;
            Ok(led)
        }
        None => {
            let same = copied(alloc, path)?;
            Ok(same)
        }
    }
}

/// Returns one more path of the same steps.
pub fn copied(alloc: Global, path: &Path) -> Result<Path, AllocError>
    ensures { IfOk result (λ same. same ≡ path.now) }
{
    let same = Path::of(alloc, path.steps())?;
    Ok(same)
}
