//! Equations solved from the front, with the rules that derive each one on the way.
ghost use Rattle.std.specs.Prelude.{◌≡◌, ◌<◌, ◌∷◌, ◌++◌, [], ℕ, true, IfOk, IfSome, OnOk, List, None, Some, map};
ghost use Rattle.std.specs.Prelude.{slice_get};
ghost use Rattle.psg_relation.specs.Heads.{head_of};
ghost use Rattle.psg_terms.specs.Terms.{variable as plain_variable};
ghost use Rattle.psg_explain.specs.declared.solver.Work.{Work as PlainWork};
ghost use Rattle.psg_explain.specs.Equations.{Equation, Gives, rewritten};
ghost use Rattle.psg_explain.specs.Reasons.{paired};
ghost use Rattle.psg_explain.specs.Solutions.{Extends, HasArguments, IfBound, IsApartFrom, IsAt, IsBoundBy, IsBoundIn};
ghost use Rattle.psg_explain.specs.Solutions.{Yields, IsFoundIn, IsNextIn, IsSolution, IsWithin, IsWork, Proceeds};
ghost use Rattle.psg_explain.specs.Solutions.{equation_in, IsPut, IsWorking, tasks_of, variable_in, weigh};

use crate::derived::{Derived, counted};
use crate::putting::{Variable, alike, bounded, occurs, occurs_in, put_in, shared};
use crate::refutation::{Reason, Rule};
use psg_terms::{Node, Term};
use std::alloc::{AllocError, Global};

/// The derived equation of the number cannot be solved.
#[derive(Drop)]
pub(crate) struct Failure {
    pub(crate) number: u32,
    pub(crate) reason: Reason,
}

/// The derived equations, and the result of solving.
#[derive(Drop)]
pub(crate) struct Solution {
    pub(crate) derived: Derived,
    /// The numbers of the derived equations by which a variable was replaced, in order.
    pub(crate) bindings: Vec<u32>,
    /// The equation that cannot be solved; none where the equations have a solution.
    pub(crate) failure: Option<Failure>,
}

/// An equation that is still to be solved, with its number among the derived ones.
#[derive(Drop)]
pub(crate) struct Task {
    pub(crate) number: u32,
    pub(crate) equation: (Term, Term),
}

/// The derived equations, those that are still to be solved, the first one last, and the one that cannot be solved.
#[derive(Drop)]
pub(crate) struct Work {
    pub(crate) derived: Derived,
    pub(crate) left: Vec<Task>,
    pub(crate) failure: Option<Failure>,
}

/// A term for a variable, by the derived equation of the number.
#[derive(Drop)]
pub(crate) struct Bound {
    pub(crate) number: u32,
    pub(crate) variable: Variable,
    pub(crate) by: Term,
}

/// The result of solving an equation.
#[derive(Drop)]
pub(crate) enum Found {
    /// It holds, or its parts are put in its place.
    Solved,
    /// It cannot be solved.
    Failed(Failure),
    /// A variable is to be replaced everywhere.
    Bound(Bound),
}

impl Work {
    /// Adds a rule with its equation, which is to be solved before all others.
    fn add(&mut self, rule: Rule, equation: (Term, Term)) -> Result<(), AllocError>
        ensures tasks { OnOk result (tasks_of self.new ≡ equation ∷ tasks_of self.old) }
        ensures work { OnOk result ((given : List Equation) → IsWork given self.old
            → Gives given self.old.derived.all.items rule equation → IsWork given self.new) }
        ensures extends { OnOk result (Extends self.old.derived.all.items self.new.derived.all.items) }
        ensures failure { OnOk result (self.new.failure ≡ self.old.failure) }
    {
        let copy = shared(&equation)?;
        let number = self.derived.add(rule, copy)?;
        self.left.push(Task { number, equation })?;
        Ok(())
    }
}

/// Returns the given equations as they are to be solved.
fn begun(alloc: Global, given: &[(Term, Term)]) -> Result<Work, AllocError>
    ensures tasks { IfOk result (λ w. tasks_of w ≡ given.now) }
    ensures work { IfOk result (IsWork given.now) }
    ensures failure { IfOk result (λ w. w.failure ≡ None) }
{
    let mut work = Work {
        derived: Derived::none(alloc),
        left: Vec::new(alloc),
        failure: None,
    };
    let mut place = given.len();
    while place > 0 {
        place -= 1;
        let number = counted(place)?;
        let equation = shared(&given[place])?;
        work.add(Rule::Given(number), equation)?;
    }
    Ok(work)
}

/// Puts the equations of the arguments before all others. The equation of the number has these arguments on its sides.
fn add_parts(work: &mut Work, number: u32, left: &[Term], right: &[Term]) -> Result<(), AllocError>
    ensures tasks { OnOk result (tasks_of work.new ≡ paired left.now right.now ++ tasks_of work.old) }
    ensures work { OnOk result ((given : List Equation) → IsWork given work.old
        → HasArguments work.old.derived.all.items number left.now right.now → IsWork given work.new) }
    ensures extends { OnOk result (Extends work.old.derived.all.items work.new.derived.all.items) }
    ensures failure { OnOk result (work.new.failure ≡ work.old.failure) }
{
    let mut place = left.len().min(right.len());
    while place > 0 {
        place -= 1;
        let part = counted(place)?;
        let one = left[place].share()?;
        let two = right[place].share()?;
        let equation = (one, two);
        work.add(Rule::Part(number, part), equation)?;
    }
    Ok(())
}

/// Returns the result of solving an equation whose left side is the variable, and whose right side is another term.
fn met_left(number: u32, variable: Variable, side: &Term, by: &Term) -> Result<Found, AllocError>
    requires side { side.now ≡ plain_variable variable.sort.0 variable.number }
    requires differ { side.now ≡ by.now → ⊥ }
    ensures comes { IfOk result (λ f. (w : PlainWork) → Yields (side.now, by.now) w f w) }
    ensures found { IfOk result (λ f. (w : PlainWork) → slice_get w.derived.all.items number ≡ Some (side.now, by.now)
        → IsApartFrom number w.left.items → IsFoundIn w f) }
    ensures bound { IfOk result (IfBound ((side.now, by.now) ∷ [])) }
{
    if occurs(variable, by) {
        let one = side.share()?;
        let other = by.share()?;
        let reason = Reason::Circle(one, other);
        return Ok(Found::Failed(Failure { number, reason }));
    }
    let term = by.share()?;
    Ok(Found::Bound(Bound {
        number,
        variable,
        by: term,
    }))
}

/// Returns the result of solving an equation whose right side is the variable, and whose left side is no variable.
/// Where the variable is to be replaced, the equation is turned around.
fn met_right(
    work: &mut Work,
    number: u32,
    variable: Variable,
    side: &Term,
    by: &Term,
) -> Result<Found, AllocError>
    requires side { side.now ≡ plain_variable variable.sort.0 variable.number }
    requires head { (c : ℕ) × (head_of by.now ≡ Some c) }
    ensures comes { IfOk result (λ f. Yields (by.now, side.now) work.old f work.new) }
    ensures found { IfOk result (λ f. (given : List Equation) → IsWork given work.old
        → slice_get work.old.derived.all.items number ≡ Some (by.now, side.now)
        → IsWork given work.new × IsFoundIn work.new f) }
    ensures bound { IfOk result (IfBound ((by.now, side.now) ∷ [])) }
    ensures tasks { IfOk result (λ _. tasks_of work.new ≡ tasks_of work.old) }
    ensures extends { IfOk result (λ _. Extends work.old.derived.all.items work.new.derived.all.items) }
    ensures failure { IfOk result (λ _. work.new.failure ≡ work.old.failure) }
{
    if occurs(variable, by) {
        let one = side.share()?;
        let other = by.share()?;
        let reason = Reason::Circle(one, other);
        return Ok(Found::Failed(Failure { number, reason }));
    }
    let new_left = side.share()?;
    let new_right = by.share()?;
    let equation = (new_left, new_right);
    let turned = work.derived.add(Rule::Flip(number), equation)?;
    let term = by.share()?;
    Ok(Found::Bound(Bound {
        number: turned,
        variable,
        by: term,
    }))
}

/// Takes the equation, which is the first one.
fn taken(work: &mut Work, task: Task) -> Result<Found, AllocError>
    ensures takes { IfOk result (λ f. Yields task.equation work.old f work.new) }
    ensures work { IfOk result (λ f. (given : List Equation) → IsWork given work.old
        → IsAt work.old.derived.all.items task → IsApartFrom task.number work.old.left.items
        → IsWork given work.new × IsFoundIn work.new f) }
    ensures bound { IfOk result (IfBound (task.equation ∷ [])) }
    ensures within { IfOk result (λ _. IsWithin (task.equation ∷ tasks_of work.old) (tasks_of work.new)) }
    ensures smaller { IfOk result (λ _. weigh (tasks_of work.new) < weigh (task.equation ∷ tasks_of work.old)) }
    ensures extends { IfOk result (λ _. Extends work.old.derived.all.items work.new.derived.all.items) }
    ensures failure { IfOk result (λ _. work.new.failure ≡ work.old.failure) }
{
    let Task { number, equation } = task;
    let (left, right) = equation;
    if alike(&left, &right)? {
        return Ok(Found::Solved);
    }
    match left.node() {
        Node::Var { sort, number: own } => {
            let variable = Variable {
                sort: *sort,
                number: *own,
            };
            let found = met_left(number, variable, &left, &right)?;
            Ok(found)
        }
        Node::Con { con, args } => match right.node() {
            Node::Var { sort, number: own } => {
                let variable = Variable {
                    sort: *sort,
                    number: *own,
                };
                let found = met_right(work, number, variable, &right, &left)?;
                Ok(found)
            }
            Node::Con {
                con: other,
                args: parts,
            } => {
                if con.0 != other.0 {
                    let one = left.share()?;
                    let two = right.share()?;
                    let reason = Reason::Clash(one, two);
                    return Ok(Found::Failed(Failure { number, reason }));
                }
                let xs = args.as_slice();
                let ys = parts.as_slice();
                add_parts(work, number, xs, ys)?;
                Ok(Found::Solved)
            }
        },
    }
}

/// Solves the equations up to the first one that binds a variable. There is none where all are solved, and where one
/// cannot be solved, which is kept.
fn next(work: &mut Work) -> Result<Option<Bound>, AllocError>
    ensures proceeds { IfOk result (λ o. Proceeds work.old o work.new) }
    ensures work { IfOk result (λ o. (given : List Equation) → IsWork given work.old → work.old.failure ≡ None
        → IsWork given work.new × IsNextIn work.new o) }
    ensures bound { IfOk result (λ o. IfSome o (IsBoundIn (tasks_of work.old))) }
    ensures within { IfOk result (λ _. IsWithin (tasks_of work.old) (tasks_of work.new)) }
    ensures extends { IfOk result (λ _. Extends work.old.derived.all.items work.new.derived.all.items) }
{
    while let Some(task) = work.left.pop() {
        let found = taken(work, task)?;
        match found {
            Found::Solved => {}
            Found::Failed(failure) => {
                work.failure = Some(failure);
                return Ok(None);
            }
            Found::Bound(bound) => return Ok(Some(bound)),
        }
    }
    Ok(None)
}

/// Returns the task with the term in place of the variable. One without it is as it was.
fn put_in_task(
    alloc: Global,
    derived: &mut Derived,
    bound: &Bound,
    task: &Task,
) -> Result<Task, AllocError>
    ensures equation { IfOk result (λ t. t.equation
        ≡ rewritten (variable_in bound.now.variable) bound.now.by task.now.equation) }
    ensures derives { IfOk result (λ t. (given : List Equation)
        → IsPut given derived.old derived.new bound.now task.now t) }
{
    let equation = &task.equation;
    bounded(&equation.0)?;
    bounded(&equation.1)?;
    if !occurs_in(bound.variable, equation) {
        let same = shared(equation)?;
        return Ok(Task {
            number: task.number,
            equation: same,
        });
    }
    let made = put_in(alloc, bound.variable, &bound.by, equation)?;
    let copy = shared(&made)?;
    let number = derived.add(Rule::Replace(task.number, bound.number), copy)?;
    Ok(Task {
        number,
        equation: made,
    })
}

/// The derived equations, and the tasks in which a variable is replaced.
#[derive(Drop)]
pub(crate) struct Replaced {
    pub(crate) derived: Derived,
    pub(crate) made: Vec<Task>,
}

/// Replaces the variable in all tasks.
fn put_in_all(
    alloc: Global,
    derived: Derived,
    tasks: &[Task],
    bound: &Bound,
) -> Result<Replaced, AllocError>
    ensures tasks { IfOk result (λ r. map equation_in r.made.items
        ≡ map (rewritten (variable_in bound.now.variable) bound.now.by) (map equation_in tasks.now)) }
    ensures work { IfOk result (λ r. (given : List Equation)
        → IsWorking given derived.rules.items derived.all.items tasks.now
        → IsBoundBy derived.all.items bound.now → IsApartFrom bound.now.number tasks.now
        → IsWorking given r.derived.rules.items r.derived.all.items r.made.items) }
    ensures extends { IfOk result (λ r. Extends derived.all.items r.derived.all.items) }
{
    let mut all = derived;
    let mut made = Vec::with_capacity(alloc, tasks.len())?;
    for i in 0..tasks.len() {
        let task = put_in_task(alloc, &mut all, bound, &tasks[i])?;
        made.push(task)?;
    }
    Ok(Replaced { derived: all, made })
}

/// Replaces the variable in all equations that are left.
fn replace(alloc: Global, work: Work, bound: &Bound) -> Result<Work, AllocError>
    ensures tasks { IfOk result (λ w. tasks_of w ≡ map (rewritten (variable_in bound.now.variable) bound.now.by)
        (tasks_of work)) }
    ensures work { IfOk result (λ w. (given : List Equation) → IsWork given work
        → IsBoundBy work.derived.all.items bound.now → IsApartFrom bound.now.number work.left.items
        → IsWork given w) }
    ensures extends { IfOk result (λ w. Extends work.derived.all.items w.derived.all.items) }
    ensures failure { IfOk result (λ w. w.failure ≡ work.failure) }
{
    let Work {
        derived,
        left,
        failure,
    } = work;
    let tasks = left.as_slice();
    let all_new = put_in_all(alloc, derived, tasks, bound)?;
    let Replaced { derived: all, made } = all_new;
    Ok(Work {
        derived: all,
        left: made,
        failure,
    })
}

/// Solves the equations from the front, and derives each one on the way. It looks at each equation that is left once
/// for each variable that is replaced.
pub(crate) fn derive(alloc: Global, given: &[(Term, Term)]) -> Result<Solution, AllocError>
    ensures { IfOk result (IsSolution given.now) }
{
    let mut work = begun(alloc, given)?;
    let mut bindings = Vec::new(alloc);
    while let Some(bound) = next(&mut work)? {
        bindings.push(bound.number)?;
        work = replace(alloc, work, &bound)?;
    }
    let Work {
        derived,
        failure,
        ..
    } = work;
    Ok(Solution {
        derived,
        bindings,
        failure,
    })
}
