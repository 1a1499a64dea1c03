//! How a cell is written.
ghost use Rattle.std.specs.Prelude.{◌≡◌, ◌↔◌, IsTrue};
ghost use Rattle.psg_canvas.specs.Cells.{plain};

/// A color of the characters of a cell.
#[derive(Clone, Copy, PartialEq, Eq)]
pub enum Color {
    /// The terminal's own color.
    Own,
    /// The terminal's red.
    Red,
    /// The terminal's green.
    Green,
    /// The terminal's yellow.
    Yellow,
    /// The terminal's blue.
    Blue,
    /// The terminal's magenta.
    Magenta,
    /// The terminal's cyan.
    Cyan,
}

/// How a cell is written.
#[derive(Clone, Copy, PartialEq, Eq)]
pub struct Style {
    /// The color of the characters.
    pub color: Color,
    /// Whether the characters are bold.
    pub bold: bool,
    /// Whether the characters are underlined.
    pub underlined: bool,
    /// The colors of the characters and of what is around them are exchanged.
    pub reversed: bool,
}

impl Style {
    /// Returns the style in which nothing is special.
    pub fn plain() -> Style
        ensures { result ≡ plain }
    {
        Style {
            color: Color::Own,
            bold: false,
            underlined: false,
            reversed: false,
        }
    }
}
