//! Pictures of the editor.
ghost use Rattle.std.specs.Prelude.{◌≡◌, ◌-◌, [], ◌∷◌, false, IfOk, codes, map, string_bytes};
ghost use Rattle.std.specs.Option.{option_copied};
ghost use Rattle.psg_canvas.specs.Sketching.{empty_sketch};
ghost use Rattle.psg_picture.specs.Marked.{page_rows, program_rows};
ghost use Rattle.psg_picture.specs.Pictures as pictured;
ghost use Rattle.psg_picture.specs.Rows.{with_row};

use crate::around::{Around, cursor_of, write_below, write_title};
use crate::marks::Marks;
use crate::page::write_page;
use crate::program::write_program;
use psg_canvas::{Picture, Sketch};
use psg_keys::Line;
use psg_screen::View;
use std::alloc::{AllocError, Global};

/// The rows that are not the program's: the title, a rule, and three lines below it.
const OTHER_ROWS: u32 = 5;

const LEAST_ROWS: u32 = 6;

const LEAST_COLS: u32 = 20;

/// Returns the picture of a program. `rows` and `cols` of the view are those of the screen. `top` and `left` are the
/// first line and column of the text that are shown, as `scrolled` returns them. A line of text is shown in the last
/// row, with the cursor, where one is open. In a window of fewer than 6 rows or 20 columns one line says that it is too
/// small.
///
/// Fails only when out of memory. Reads the text up to the last line that is shown.
pub fn program_picture(
    alloc: Global,
    view: View,
    around: &Around,
    text: &str,
    marks: &Marks,
    line: Option<&Line>,
) -> Result<Picture, AllocError>
    ensures { IfOk result (λ picture. picture
        ≡ pictured.picture_of view around.now (program_rows view (view.rows - 5) text.now marks.now)
        (option_copied line.entry)) }
{
    if is_small(view) {
        let small = small_picture(alloc, view)?;
        return Ok(small);
    }
    let mut sketch = begun(alloc, view, around)?;
    write_program(
        alloc,
        &mut sketch,
        view,
        text,
        marks,
        view.rows - OTHER_ROWS,
    )?;
    let picture = ended(alloc, sketch, view, around, line)?;
    Ok(picture)
}

/// Returns the picture of a page of lines, of which `page_top` is the first one that is shown. Else as
/// `program_picture`.
///
/// Fails only when out of memory.
pub fn page_picture(
    alloc: Global,
    view: View,
    around: &Around,
    lines: &[String],
    page_top: u32,
    line: Option<&Line>,
) -> Result<Picture, AllocError>
    ensures { IfOk result (λ picture. picture
        ≡ pictured.picture_of view around.now
        (page_rows view.cols (map string_bytes lines.now) page_top (view.rows - 5))
        (option_copied line.entry)) }
{
    if is_small(view) {
        let small = small_picture(alloc, view)?;
        return Ok(small);
    }
    let mut sketch = begun(alloc, view, around)?;
    write_page(
        alloc,
        &mut sketch,
        view.cols,
        lines,
        page_top,
        view.rows - OTHER_ROWS,
    )?;
    let picture = ended(alloc, sketch, view, around, line)?;
    Ok(picture)
}

/// Says whether the window is too small for an editor.
fn is_small(view: View) -> bool
    ensures { result ≡ pictured.is_small view }
{
    view.rows < LEAST_ROWS || view.cols < LEAST_COLS
}

/// Returns the picture of a window that is too small.
fn small_picture(alloc: Global, view: View) -> Result<Picture, AllocError>
    ensures { IfOk result (λ picture. picture ≡ pictured.small_picture view) }
{
    let mut sketch = Sketch::new(alloc, view.rows, view.cols)?;
    let lines = small_lines(alloc)?;
    write_page(
        alloc,
        &mut sketch,
        view.cols,
        lines.as_slice(),
        0,
        view.rows,
    )?;
    let picture = sketch.finish(alloc, None)?;
    Ok(picture)
}

/// Returns the page of one line that says that the window is too small.
fn small_lines(alloc: Global) -> Result<Vec<String>, AllocError>
    ensures { IfOk result (λ lines. map string_bytes lines.items ≡ codes "the window is too small" ∷ []) }
{
    let mut lines = Vec::new(alloc);
    let line = String::from_str(alloc, "the window is too small")?;
    lines.push(line)?;
    Ok(lines)
}

/// Begins a picture with its title.
fn begun(alloc: Global, view: View, around: &Around) -> Result<Sketch, AllocError>
    ensures { IfOk result (λ sketch. sketch
        ≡ with_row (pictured.title_row view.cols around.now) (empty_sketch view.rows view.cols)) }
{
    let mut sketch = Sketch::new(alloc, view.rows, view.cols)?;
    write_title(alloc, &mut sketch, view.cols, around)?;
    Ok(sketch)
}

/// Ends a picture with the rows below the program.
fn ended(
    alloc: Global,
    sketch: Sketch,
    view: View,
    around: &Around,
    line: Option<&Line>,
) -> Result<Picture, AllocError>
    requires { pictured.is_small view ≡ false }
    ensures { IfOk result (λ picture. picture
        ≡ pictured.ended view around.now (option_copied line.entry) sketch) }
{
    let mut sketch = sketch;
    write_below(alloc, &mut sketch, view.cols, around, line)?;
    let cursor = cursor_of(view.rows, view.cols, line);
    let picture = sketch.finish(alloc, cursor)?;
    Ok(picture)
}
