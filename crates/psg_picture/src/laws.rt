//! The law of the program's rows, as the contract of a call that does nothing.
ghost use Rattle.psg_picture.specs.Marked.{ShowsWindow};

/// Shows that the rows of a program have the characters of the window of its text.
pub fn rows_are_the_window()
    ensures { ShowsWindow }
{}
