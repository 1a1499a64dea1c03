//! Pictures of a screen, and the bytes that turn one into another one.
//!
//! ```text
//! let mut sketch = Sketch::new(alloc, 24, 80)?;
//! sketch.write(alloc, 'a', Style::plain())?;
//! let picture = sketch.finish(alloc, None)?;
//! let bytes = draw(alloc, Some(&shown), &picture)?;
//! ```
//!
//! A picture is rows of columns, full of cells. A cell is a character of width 1 or 2 and the characters of width 0
//! after it; characters that turn the direction of writing, or that change how wide others are, are left out. What is
//! drawn makes any terminal that shows the old picture show the new one.
#![tactic(auto)]

mod drawing;
mod pen;
mod picture;
mod sketch;
mod slot;
mod style;

pub use drawing::{draw, enter, leave};
pub use picture::Picture;
pub use sketch::Sketch;
pub use slot::Slot;
pub use style::{Color, Style};
