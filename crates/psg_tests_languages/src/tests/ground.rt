//! Terms without variables up to a depth, and the instances of rows with them.
use psg_terms::matching::same;
use psg_terms::{ConId, Node, Signature, SortId, Term};
use std::alloc::{AllocError, Global};

/// A term without variables, with its sort.
#[derive(Drop)]
pub(super) struct Ground {
    pub(super) sort: SortId,
    pub(super) term: Term,
}

/// Rows of a definition are less deep.
const MOST_DEEP: u32 = 64;

fn shared(alloc: Global, terms: &[Term]) -> Result<Vec<Term>, AllocError> {
    let mut shared = Vec::new(alloc);
    for term in terms {
        shared.push(term.share()?)?;
    }
    Ok(shared)
}

/// Each way to choose a term of each of the sorts, in order.
pub(super) fn choices(
    alloc: Global,
    sorts: &[SortId],
    terms: &[Ground],
) -> Result<Vec<Vec<Term>>, AllocError> {
    let mut chosen = vec![in alloc; Vec::new(alloc)]?;
    for sort in sorts {
        let mut longer = Vec::new(alloc);
        for start in chosen.as_slice() {
            for ground in terms {
                if ground.sort.0 == sort.0 {
                    let mut choice = shared(alloc, start.as_slice())?;
                    choice.push(ground.term.share()?)?;
                    longer.push(choice)?;
                }
            }
        }
        chosen = longer;
    }
    Ok(chosen)
}

/// The terms whose arguments are among the terms.
fn applied(alloc: Global, sig: &Signature, terms: &[Ground]) -> Result<Vec<Ground>, AllocError> {
    let mut made = Vec::new(alloc);
    for number in 0..sig.constructors() {
        let con = ConId(number);
        let sort = sig.sort_of(con);
        let sorts = sig.constructor(con).args.as_slice();
        for args in choices(alloc, sorts, terms)? {
            let term = Term::apply(alloc, con, args)?;
            made.push(Ground { sort, term })?;
        }
    }
    Ok(made)
}

/// All terms without variables that are at most so deep, each once.
pub(super) fn ground_terms(
    alloc: Global,
    sig: &Signature,
    depth: u32,
) -> Result<Vec<Ground>, AllocError> {
    let mut terms = Vec::new(alloc);
    for _ in 0..depth {
        terms = applied(alloc, sig, terms.as_slice())?;
    }
    Ok(terms)
}

/// A variable of a row, and the term in its place.
#[derive(Drop)]
struct Binding {
    variable: Variable,
    term: Term,
}

/// A variable of a row.
#[derive(Clone, Copy, PartialEq, Eq)]
struct Variable {
    sort: u32,
    number: u32,
}

/// Puts the variables of the term after the others, each once.
fn put_variables(term: &Term, variables: &mut Vec<Variable>, deep: u32) -> Result<(), AllocError> {
    if deep == 0 {
        return Err(AllocError);
    }
    match term.node() {
        Node::Var { sort, number } => {
            let variable = Variable {
                sort: sort.0,
                number: *number,
            };
            if !variables.contains(&variable) {
                variables.push(variable)?;
            }
        }
        Node::Con { args, .. } => {
            for arg in args.as_slice() {
                put_variables(arg, variables, deep - 1)?;
            }
        }
    }
    Ok(())
}

fn term_for(bindings: &[Binding], variable: Variable) -> Option<&Term> {
    for binding in bindings {
        if binding.variable == variable {
            return Some(&binding.term);
        }
    }
    None
}

/// Whether the value is the term with some terms for its variables. It binds those that are not bound yet.
#[cycle(fits)]
fn fits(
    term: &Term,
    value: &Term,
    bindings: &mut Vec<Binding>,
    deep: u32,
) -> Result<bool, AllocError> {
    match (term.node(), value.node()) {
        (Node::Var { sort, number }, _) => bind(bindings, sort.0, *number, value),
        (
            Node::Con { con, args },
            Node::Con {
                con: made_by,
                args: values,
            },
        ) => {
            if con.0 != made_by.0 {
                return Ok(false);
            }
            if deep == 0 {
                return Err(AllocError);
            }
            all_fit(args.as_slice(), values.as_slice(), bindings, deep - 1)
        }
        _ => Ok(false),
    }
}

#[cycle(fits)]
fn all_fit(
    terms: &[Term],
    values: &[Term],
    bindings: &mut Vec<Binding>,
    deep: u32,
) -> Result<bool, AllocError> {
    for (term, value) in terms.iter().zip(values) {
        if !fits(term, value, bindings, deep)? {
            return Ok(false);
        }
    }
    Ok(true)
}

/// Binds the variable to the value; whether it is bound to no other.
fn bind(
    bindings: &mut Vec<Binding>,
    sort: u32,
    number: u32,
    value: &Term,
) -> Result<bool, AllocError> {
    let variable = Variable { sort, number };
    if let Some(bound) = term_for(bindings.as_slice(), variable) {
        return Ok(same(bound, value));
    }
    let term = value.share()?;
    bindings.push(Binding { variable, term })?;
    Ok(true)
}

/// The term with the bound terms for its variables.
fn instance(
    alloc: Global,
    term: &Term,
    bindings: &[Binding],
    deep: u32,
) -> Result<Term, AllocError> {
    if deep == 0 {
        return Err(AllocError);
    }
    match term.node() {
        Node::Var { sort, number } => {
            let variable = Variable {
                sort: sort.0,
                number: *number,
            };
            match term_for(bindings, variable) {
                Some(term) => term.share(),
                None => Err(AllocError),
            }
        }
        Node::Con { con, args } => {
            let mut made = Vec::new(alloc);
            for arg in args.as_slice() {
                made.push(instance(alloc, arg, bindings, deep - 1)?)?;
            }
            Term::apply(alloc, *con, made)
        }
    }
}

/// A row: the value of a node, and those of its columns.
#[derive(Drop)]
pub(super) struct Pattern {
    head: Term,
    columns: Vec<Term>,
}

impl Pattern {
    pub(super) fn new(alloc: Global, head: &Term, columns: &[Term]) -> Result<Pattern, AllocError> {
        Ok(Pattern {
            head: head.share()?,
            columns: shared(alloc, columns)?,
        })
    }

    /// The variables that the columns have and the head has not.
    fn free(&self, alloc: Global, bindings: &[Binding]) -> Result<Vec<Variable>, AllocError> {
        let mut variables = Vec::new(alloc);
        for column in self.columns.as_slice() {
            put_variables(column, &mut variables, MOST_DEEP)?;
        }
        let mut free = Vec::new(alloc);
        for variable in variables.as_slice() {
            if term_for(bindings, *variable).is_none() {
                free.push(*variable)?;
            }
        }
        Ok(free)
    }

    fn columns_with(&self, alloc: Global, bindings: &[Binding]) -> Result<Vec<Term>, AllocError> {
        let mut made = Vec::new(alloc);
        for column in self.columns.as_slice() {
            made.push(instance(alloc, column, bindings, MOST_DEEP)?)?;
        }
        Ok(made)
    }

    /// The columns of all instances whose head is the value. Each variable that the head has not is each of the terms.
    pub(super) fn columns_at(
        &self,
        alloc: Global,
        value: &Term,
        terms: &[Ground],
    ) -> Result<Vec<Vec<Term>>, AllocError> {
        let mut found = Vec::new(alloc);
        let mut bindings = Vec::new(alloc);
        if !fits(&self.head, value, &mut bindings, MOST_DEEP)? {
            return Ok(found);
        }
        let free = self.free(alloc, bindings.as_slice())?;
        let mut sorts = Vec::new(alloc);
        for variable in free.as_slice() {
            sorts.push(SortId(variable.sort))?;
        }
        let bound = bindings.len();
        for chosen in choices(alloc, sorts.as_slice(), terms)? {
            bindings.truncate(bound);
            for (variable, term) in free.as_slice().iter().zip(chosen) {
                bindings.push(Binding {
                    variable: *variable,
                    term,
                })?;
            }
            found.push(self.columns_with(alloc, bindings.as_slice())?)?;
        }
        Ok(found)
    }
}
