//! The claims on the steps of a tree.
ghost use Rattle.std.specs.Prelude.{◌≡◌, [], IfOk, List, map};
ghost use Rattle.std.specs.List.{AllByRecursion};
ghost use Rattle.psg_explain.specs.Claiming.{AreClaims, AreCoverable, MayClaim, MayClaimAll};
ghost use Rattle.psg_explain.specs.Plans.{AreCanonical, Step, at_of, rows_claimed};
ghost use Rattle.psg_explain.specs.Refutations.{AreRight, IsClaim};
ghost use Rattle.psg_explain.specs.Sources.{AreStages, IsStage};

use crate::casing::cases_after;
use crate::derived::counted;
use crate::fitting::verdict;
use crate::given::Case;
use crate::indexing::Index;
use crate::refutation::{Claim, Verdict};
use crate::relating::Rows;
use crate::stages::Stage;
use psg_grammar::Definition;
use psg_terms::{Seq, Term};
use psg_tree::Path;
use std::alloc::{AllocError, Global};

/// Makes the verdicts on the cases of a step with these rows.
fn verdicts_on(
    alloc: Global,
    rows: &[Seq<Term>],
    cases: &[Case],
) -> Result<Vec<Verdict>, AllocError>
    requires canonical { AreCanonical rows.now }
    requires covered { AreCoverable rows.now cases.now }
    ensures { IfOk result (λ v. AreRight rows.now cases.now v.items) }
{
    let index = Index::of(alloc, rows)?;
    let mut verdicts = Vec::new(alloc);
    for i in 0..cases.len() {
        let told = verdict(alloc, rows, &index, &cases[i])?;
        verdicts.push(told)?;
    }
    Ok(verdicts)
}

/// Makes the claim on the step, which has these rows.
fn claim_of(
    alloc: Global,
    definition: &Definition,
    stage: &Stage,
    before: &[Claim],
    rows: Rows,
) -> Result<Claim, AllocError>
    requires canonical { AllByRecursion AreCanonical (map rows_claimed before.now) }
    requires step { (s : Step) × IsStage definition.now stage.now s
        × MayClaim definition.now (map rows_claimed before.now) s rows }
    ensures claim { IfOk result (λ c. (s : Step) → IsStage definition.now stage.now s
        → MayClaim definition.now (map rows_claimed before.now) s rows
        → IsClaim definition.now (at_of definition.now (map rows_claimed before.now) s) c) }
    ensures rows { IfOk result (λ c. c.rows ≡ rows) }
{
    let cases = cases_after(alloc, definition, stage, before)?;
    let all = cases.as_slice();
    let own = rows.as_slice();
    let told = verdicts_on(alloc, own, all)?;
    let path = Path::of(alloc, stage.path.as_slice())?;
    let step = counted(stage.step)?;
    let verdicts = Seq::of(told);
    Ok(Claim {
        path,
        cell: stage.cell,
        step,
        rows,
        verdicts,
    })
}

/// Makes the claims on the steps, which have these rows.
pub(crate) fn claims_of(
    alloc: Global,
    definition: &Definition,
    stages: &[Stage],
    rows: Vec<Rows>,
) -> Result<Vec<Claim>, AllocError>
    requires { (steps : List Step) × AreStages definition.now stages.now steps
        × MayClaimAll definition.now [] steps rows.items }
    ensures claims { IfOk result (λ v. (steps : List Step) → AreStages definition.now stages.now steps
        → MayClaimAll definition.now [] steps rows.items → AreClaims definition.now [] steps v.items) }
    ensures rows { IfOk result (λ v. map rows_claimed v.items ≡ rows.items) }
{
    let mut claims = Vec::new(alloc);
    for own in rows {
        let place = claims.len();
        let claim = claim_of(alloc, definition, &stages[place], claims.as_slice(), own)?;
        claims.push(claim)?;
    }
    Ok(claims)
}
