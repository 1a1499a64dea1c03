//! Where the cursors of the windows are after commands.
mod commands;
mod moving;
mod resolving;
