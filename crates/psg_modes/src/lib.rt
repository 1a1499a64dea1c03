//! What a key makes of the face of the editor on the screen, where it is no command and asks nothing of the plain
//! editor.
//!
//! ```text
//! if let Some(path) = led(alloc, tree, &face.chosen, key)? { .. }
//! type_key(alloc, &mut face, key)?;
//! ```
//!
//! There is a call for each mode of the face: a place is chosen, a line of text is typed, one of the operators or names
//! is picked, a page is shown. In each of them what is no key (`say_unknown`) and the size of the screen (`take_size`)
//! are taken first. Each call fails only where memory runs out, and the face is then as before.
#![tactic(auto)]

mod browsing;
pub mod laws;
mod leading;
mod naming;
mod node_text;
mod paging;
mod picking;
mod typing;
mod wrong;

pub use browsing::{browse_key, choose_path, say, say_unknown, take_size};
pub use leading::{led, led_by_lines};
pub use naming::{begin_names, leaf_at, name_key};
pub use node_text::node_line;
pub use paging::{key_page, page_key, show_page};
pub use picking::{choose_key, show_offers};
pub use typing::type_key;
pub use wrong::{is_forward, next_of, paths_of, place_of, why_at};
