//! The cursors of the windows.
ghost use Rattle.std.specs.Prelude.{◌≡◌, ◌<◌, ◌↔◌, IfOk, IsTrue};
ghost use Rattle.psg_windows.specs.Resolving.{resolved, IsResolved};
ghost use Rattle.psg_windows.specs.Moving.{moved, cursor_of, start_cursors, HasRoom, windows};

use crate::moving::{may_be_raised, others_moved, own_moved};
use crate::resolving::resolve;
use psg_script::Command;
use psg_terms::Seq;
use psg_tree::Path;
use std::alloc::{AllocError, Global};
use std::marker::Model;

/// How many windows there are.
const WINDOWS: usize = 8;

/// The cursors of eight windows, numbered from 0. A contract sees them as the list of their paths.
#[derive(Drop)]
pub struct Cursors {
    paths: Seq<Path>,
}

impl Model for Cursors {
    ghost use Rattle.std.specs.Prelude.{◌≡◌, List, ℕ, length};
    ghost use Rattle.psg_windows.specs.Moving.{windows};

    ghost Value = { List (List ℕ) };

    ghost view = { λ c. c.paths };

    ghost invariant = { λ c. length c.paths ≡ windows };
}

impl Cursors {
    /// Makes the cursors of a program that is not opened yet: each is at the top. Fails only when out of memory.
    pub fn new(alloc: Global) -> Result<Cursors, AllocError>
        ensures { IfOk result (λ c. c ≡ start_cursors) }
    {
        let mut paths = Vec::with_capacity(alloc, WINDOWS)?;
        'filling: while paths.len() < WINDOWS {
            paths.push(Path::of(alloc, &[])?)?;
        }
        Ok(Cursors {
            paths: Seq::of(paths),
        })
    }

    /// Returns the window's cursor. It takes no memory, and constant time.
    pub fn cursor(&self, window: u32) -> &Path
        requires { window < windows }
        ensures { result.now ≡ cursor_of self.now window }
    {
        &self.paths.as_slice()[window as usize]
    }

    /// Returns the command with the window's cursor in place of `.`. A command that names a path, or no place at all,
    /// is returned as it is.
    ///
    /// Fails only when out of memory. The texts of the command are shared, and its path is copied.
    pub fn resolved(
        &self,
        alloc: Global,
        window: u32,
        command: &Command,
    ) -> Result<Command, AllocError>
        requires { window < windows }
        ensures resolved { IfOk result (λ c. c ≡ resolved (cursor_of self.now window) command.now) }
        ensures none { IfOk result (λ c. IsResolved c) }
    {
        resolve(alloc, self.cursor(window), command)
    }

    /// Says whether each step of each cursor can be raised by one. It can where each cursor leads to a node of a
    /// program of fewer nodes. It reads all paths once.
    pub fn has_room(&self) -> bool
        ensures { IsTrue result ↔ HasRoom self.now }
    {
        self.paths
            .as_slice()
            .iter()
            .all(|path| may_be_raised(path.steps()))
    }

    /// Returns the cursors after a resolved command of the window that was accepted. `own` is the editor's cursor after
    /// the command, which becomes that of the window after a change of the program and after `goto`.
    ///
    /// Another window's cursor is set to the top if the whole program is replaced by another. Below a list to which an
    /// element was added, or from which one was taken, its step is counted again, and a cursor in the element that went
    /// is set to the list. Below a node that was replaced it is set to that node. Else it stays.
    ///
    /// Fails only when out of memory, and these cursors stay as they are. The time is that of reading all paths once.
    pub fn moved(
        &self,
        alloc: Global,
        window: u32,
        command: &Command,
        own: &Path,
    ) -> Result<Cursors, AllocError>
        requires window { window < windows }
        requires resolved { IsResolved command.now }
        requires room { HasRoom self.now }
        ensures { IfOk result (λ c. c ≡ moved window command.now own.now self.now) }
    {
        let cursor = self.cursor(window);
        let path = own_moved(alloc, command, own.steps(), cursor.steps())?;
        let mut paths = others_moved(alloc, command, self.paths.as_slice())?;
        paths[window as usize] = path;
        Ok(Cursors {
            paths: Seq::of(paths),
        })
    }
}
