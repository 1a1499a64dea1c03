//! The word around a byte of a text.
ghost use Rattle.std.specs.Prelude.{ℕ, ◌≡◌, ◌<◌, ◌≤◌, IfNone, IfSome, MatchOption, false, length, suc, true};
ghost use Rattle.psg_completing.specs.Around as around;
ghost use Rattle.psg_completing.specs.Around.{IsWordAround};

/// A word of a text by its bytes; it may be empty.
#[derive(Clone, Copy, PartialEq, Eq)]
pub struct Word {
    /// Where it begins, with a `?` in front of it.
    pub from: usize,
    /// Where it begins, without that.
    pub inner: usize,
    /// The byte after its last one.
    pub to: usize,
}

/// Says whether the byte is one of a word.
pub(crate) fn is_word(byte: u8) -> bool
    ensures { result ≡ around.is_word byte }
{
    (48 <= byte && byte <= 57)
        || (65 <= byte && byte <= 90)
        || (97 <= byte && byte <= 122)
        || byte == 95
        || 128 <= byte
}

/// Says whether the byte at the place is one of a word.
fn is_word_at(text: &[u8], place: usize) -> bool
    ensures { result ≡ around.is_word_at text.now place }
{
    match text.get(place) {
        Some(byte) => is_word(*byte),
        None => false,
    }
}

/// Says whether the byte at the place is a `?`.
fn is_mark_at(text: &[u8], place: usize) -> bool
    ensures { result ≡ around.is_mark_at text.now place }
{
    match text.get(place) {
        Some(byte) => *byte == 63,
        None => false,
    }
}

/// Returns the place before, if a byte of a word is there.
fn word_before(text: &[u8], place: usize) -> Option<usize>
    ensures some { IfSome result (λ last. (place ≡ suc last) × (around.is_word_at text.now last ≡ true)) }
    ensures none { IfNone result (around.is_word_before text.now place ≡ false) }
{
    let last = before(place)?;
    let word = is_word_at(text, last);
    if word {
        return Some(last);
    }
    None
}

/// Returns the place before, if a `?` is there.
fn mark_before(text: &[u8], place: usize) -> Option<usize>
    ensures some { IfSome result (λ last. (place ≡ suc last) × (around.is_mark_at text.now last ≡ true)) }
    ensures none { IfNone result (around.is_mark_before text.now place ≡ false) }
{
    let last = before(place)?;
    let mark = is_mark_at(text, last);
    if mark {
        return Some(last);
    }
    None
}

/// Returns the number before, if there is one.
fn before(place: usize) -> Option<usize>
    ensures { MatchOption result (place ≡ 0) (λ last. place ≡ suc last) }
{
    place.checked_sub(1)
}

/// Returns the place after, if a byte of a word is at this one.
fn word_at(text: &[u8], place: usize) -> Option<usize>
    ensures some { IfSome result (λ next. (next ≡ suc place) × (around.is_word_at text.now place ≡ true)
        × (next ≤ length text.now)) }
    ensures none { IfNone result (around.is_word_at text.now place ≡ false) }
{
    let within = place < text.len();
    if within {
        let word = is_word_at(text, place);
        if word {
            return Some(place + 1);
        }
        return None;
    }
    None
}

/// Returns where the word begins that ends at the place.
fn run_start(text: &[u8], place: usize) -> usize
    ensures order { result ≤ place }
    ensures words { (k : ℕ) → result ≤ k → k < place → around.is_word_at text.now k ≡ true }
    ensures before { around.is_word_before text.now result ≡ false }
{
    let mut from = place;
    'bytes: while let Some(last) = word_before(text, from) {
        from = last;
    }
    from
}

/// Returns where the word ends that begins at the place.
fn run_end(text: &[u8], place: usize) -> usize
    requires { place ≤ length text.now }
    ensures order { place ≤ result }
    ensures within { result ≤ length text.now }
    ensures words { (k : ℕ) → place ≤ k → k < result → around.is_word_at text.now k ≡ true }
    ensures behind { around.is_word_at text.now result ≡ false }
{
    let mut to = place;
    'bytes: while let Some(next) = word_at(text, to) {
        to = next;
    }
    to
}

/// Returns the place after, if a `?` is at the byte and no word ends there.
fn mark_here(text: &[u8], start: usize, byte: usize) -> Option<usize>
    requires { byte ≤ length text.now }
    ensures some { IfSome result (λ inner. (start ≡ byte) × (around.is_mark_at text.now byte ≡ true)
        × (inner ≡ suc byte) × (inner ≤ length text.now)) }
    ensures none { IfNone result (start ≡ byte → around.is_mark_at text.now byte ≡ false) }
{
    let here = start == byte && byte < text.len();
    if here {
        let mark = is_mark_at(text, byte);
        if mark {
            return Some(byte + 1);
        }
        return None;
    }
    None
}

/// Returns the word around the byte: the longest one that the byte is in or beside, with a `?` in front of it. At a `?`
/// with no word before it, it is the word after that. It passes the bytes of the word.
pub(crate) fn word_around(text: &[u8], byte: usize) -> Word
    requires { byte ≤ length text.now }
    ensures around { IsWordAround text.now byte result }
    ensures order { result.from ≤ result.to }
    ensures within { result.to ≤ length text.now }
{
    let start = run_start(text, byte);
    match mark_before(text, start) {
        Some(from) => {
            let to = run_end(text, byte);
            let inner = start;
            Word { from, inner, to }
        }
        None => unmarked_word(text, start, byte),
    }
}

/// Returns the word around the byte that begins there, where no `?` is in front of it.
fn unmarked_word(text: &[u8], start: usize, byte: usize) -> Word
    requires within { byte ≤ length text.now }
    requires order { start ≤ byte }
    requires words { (k : ℕ) → start ≤ k → k < byte → around.is_word_at text.now k ≡ true }
    requires before { around.is_word_before text.now start ≡ false }
    requires mark { around.is_mark_before text.now start ≡ false }
    ensures around { IsWordAround text.now byte result }
    ensures order { result.from ≤ result.to }
    ensures within { result.to ≤ length text.now }
{
    match mark_here(text, start, byte) {
        Some(inner) => {
            let to = run_end(text, inner);
            let from = byte;
            Word { from, inner, to }
        }
        None => {
            let end = run_end(text, byte);
            Word {
                from: start,
                inner: start,
                to: end,
            }
        }
    }
}
