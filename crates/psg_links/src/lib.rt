//! Which declaration each name of a program is linked to, which names are together, and when they may get a new name.
//!
//! ```text
//! let page = Page::of(alloc, &language, kind, text, &mut steps)?;
//! let linked = page.link_at(alloc, byte)?;
//! let spots = rename(alloc, &language, kind, text, &page, byte, "total", &mut steps)?;
//! ```
//!
//! A name is linked to the first declaration of its key in the innermost region around it that declares the key, or to
//! the outside, where no region around does. Names of one key that are linked to the same declaration are together.
//! Bytes count after a byte order mark, and a name covers the bytes at both its ends. Nothing is evaluated.
#![tactic(auto)]

mod around;
pub mod laws;
pub mod link;
pub mod linked;
mod names;
pub mod page;
pub mod refusal;
pub mod renaming;
pub mod spot;

pub use link::Link;
pub use linked::Linked;
pub use page::Page;
pub use refusal::Refusal;
pub use renaming::rename;
pub use spot::Spot;
