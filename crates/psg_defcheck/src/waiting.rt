//! Constructors that wait for the sorts of their arguments.

use psg_deflines::Line;
use psg_terms::{ConDecl, SortDecl};
use std::alloc::{AllocError, Global};
use std::collections::HashMap;

/// The end of a chain of arguments.
const NO_ARGUMENT: usize = usize::MAX;

/// A constructor of a line.
#[derive(Clone, Copy)]
struct Constructor<'a> {
    sort: &'a str,
    /// How many of its arguments are of sorts that are not released yet.
    missing: usize,
}

/// An argument of a constructor.
#[derive(Clone, Copy)]
struct Argument {
    constructor: usize,
    /// The argument of the same sort that was met before, or `NO_ARGUMENT`.
    before: usize,
}

/// The constructors of a file, each with the number of its arguments whose sorts are not released yet, and the sorts of
/// those constructors that miss none. It only says in which order sorts are best tried: no promise rests on it.
#[derive(Drop)]
pub(crate) struct Waiting<'a> {
    constructors: Vec<Constructor<'a>>,
    arguments: Vec<Argument>,
    /// The last argument of each sort.
    last: HashMap<&'a str, usize>,
    ready: Vec<&'a str>,
}

impl<'a> Waiting<'a> {
    /// Lists the constructors of the lines of sorts. Takes memory for each constructor and each argument.
    pub(crate) fn of(
        alloc: Global,
        entries: &'a [Option<Line>],
    ) -> Result<Waiting<'a>, AllocError> {
        let mut waiting = Waiting {
            constructors: Vec::new(alloc),
            arguments: Vec::new(alloc),
            last: HashMap::new(alloc),
            ready: Vec::new(alloc),
        };
        for entry in entries {
            if let Some(line) = entry {
                waiting.add_line(line)?;
            }
        }
        Ok(waiting)
    }

    /// Adds the constructors of a line, if it is a sort's.
    fn add_line(&mut self, line: &'a Line) -> Result<(), AllocError> {
        match line {
            Line::Sort(sort) => self.add_sort(sort),
            _ => Ok(()),
        }
    }

    /// Adds the constructors of a sort.
    fn add_sort(&mut self, sort: &'a SortDecl) -> Result<(), AllocError> {
        for constructor in sort.constructors.as_slice() {
            self.add(sort.name.as_str(), constructor)?;
        }
        Ok(())
    }

    /// Adds a constructor.
    fn add(&mut self, sort: &'a str, constructor: &'a ConDecl) -> Result<(), AllocError> {
        let args = constructor.args.as_slice();
        let number = self.constructors.len();
        let missing = args.len();
        self.constructors.push(Constructor { sort, missing })?;
        if missing == 0 {
            self.ready.push(sort)?;
        }
        for arg in args {
            self.add_argument(arg.as_str(), number)?;
        }
        Ok(())
    }

    /// Adds an argument of a constructor.
    fn add_argument(&mut self, sort: &'a str, constructor: usize) -> Result<(), AllocError> {
        let before = match self.last.get(sort) {
            Some(place) => *place,
            None => NO_ARGUMENT,
        };
        self.last.insert(sort, self.arguments.len())?;
        self.arguments.push(Argument {
            constructor,
            before,
        })?;
        Ok(())
    }

    /// Returns how many constructors there are.
    pub(crate) fn constructors(&self) -> usize {
        self.constructors.len()
    }

    /// Takes out a sort of which a constructor misses no argument.
    pub(crate) fn next(&mut self) -> Option<&'a str> {
        self.ready.pop()
    }

    /// Releases a sort: the constructors with arguments of it miss them no more.
    pub(crate) fn release(&mut self, sort: &str) -> Result<(), AllocError> {
        let mut place = match self.last.get(sort) {
            Some(place) => *place,
            None => NO_ARGUMENT,
        };
        for _ in 0..self.arguments.len() {
            let Some(argument) = self.arguments.get(place).copied() else {
                break;
            };
            self.find_argument(argument.constructor)?;
            place = argument.before;
        }
        Ok(())
    }

    /// Counts one missing argument less; where none is left, the constructor's sort is ready.
    fn find_argument(&mut self, constructor: usize) -> Result<(), AllocError> {
        let Some(entry) = self.constructors.get_mut(constructor) else {
            return Ok(());
        };
        let sort = entry.sort;
        let missing = entry.missing.saturating_sub(1);
        entry.missing = missing;
        if missing == 0 {
            self.ready.push(sort)?;
        }
        Ok(())
    }
}
