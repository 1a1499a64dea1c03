//! Cutting a text between its characters.
ghost use Rattle.std.specs.Prelude.{◌≡◌, ◌==◌, [], IfNone, IfSome, chars};
ghost use Rattle.psg_lexis.specs.Classes.{begins_by};
ghost use Rattle.psg_lexis.specs.Splits.{IsFirst};
ghost use Rattle.psg_comments.specs.Finding.{is_end};
ghost use Rattle.psg_comments.specs.Fitting.{begins_with as begins_with_of};

/// Returns the first character of the text, and the text after it.
pub(crate) fn split_first(text: &str) -> Option<(char, &str)>
    ensures none { IfNone result (chars text.now ≡ []) }
    ensures first { IfSome result (λ parts. IsFirst text.now parts.0 parts.1.now) }
{
    let mut characters = text.chars();
    match characters.next() {
        Some(first) => Some((first, characters.as_str())),
        None => None,
    }
}

/// Says whether the text begins with the characters of the other one.
pub(crate) fn begins_with(text: &str, front: &str) -> bool
    ensures { result ≡ begins_with_of (chars text.now) (chars front.now) }
{
    let mut rest = text;
    let mut left = front;
    while let Some((wanted, more)) = split_first(left) {
        let Some((first, after)) = split_first(rest) else {
            return false;
        };
        if first != wanted {
            return false;
        }
        rest = after;
        left = more;
    }
    true
}

/// Says whether the text begins with a line feed.
fn begins_feed(text: &str) -> bool
    ensures { result ≡ begins_by (λ c. c == 10) (chars text.now) }
{
    match split_first(text) {
        Some((first, _)) => first == '\n',
        None => false,
    }
}

/// Says whether a line ends at the beginning of the text.
pub(crate) fn is_end(text: &str) -> bool
    ensures { result ≡ is_end (chars text.now) }
{
    match split_first(text) {
        Some((first, after)) => first == '\n' || (first == '\r' && begins_feed(after)),
        None => true,
    }
}
