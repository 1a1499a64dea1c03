//! Laws of refutations, as contracts of calls that do nothing.
ghost use Rattle.std.specs.Prelude.{◌≡◌, ◌↔◌, [], ℕ, List, Option};
ghost use Rattle.psg_grammar.specs.declared.types.Definition.{Definition as PlainDefinition};
ghost use Rattle.psg_grammar.specs.declared.types.Kind.{Kind as PlainKind};
ghost use Rattle.psg_grammar.specs.Fragments.{Fragment};
ghost use Rattle.psg_grammar.specs.Legal.{IsCompletable};
ghost use Rattle.psg_grammar.specs.Open.{IsOpen};
ghost use Rattle.psg_grammar.specs.Sound.{IsSound};
ghost use Rattle.psg_grammar.specs.WellFormed.{WellFormed};
ghost use Rattle.psg_cache.specs.Notes.{IsFormed};
ghost use Rattle.psg_explain.specs.declared.refutation.Reason.{Reason as PlainReason};
ghost use Rattle.psg_explain.specs.declared.refutation.Refutation.{Refutation as PlainRefutation};
ghost use Rattle.psg_explain.specs.Equations.{Equation};
ghost use Rattle.psg_explain.specs.Reasons.{IsReason};
ghost use Rattle.psg_explain.specs.declared.refutation.Claim.{Claim as PlainClaim};
ghost use Rattle.psg_explain.specs.Explanations.{IsFirstCulprit};
ghost use Rattle.psg_explain.specs.Orders.{AreFirstSteps};
ghost use Rattle.psg_explain.specs.Plans.{Flows, halted, planned, rows_claimed};
ghost use Rattle.psg_explain.specs.Refutations.{ClaimTo, IsClaim, Refutes};
ghost use Rattle.psg_explain.specs.Walks.{At};

/// Shows that a tree with a right refutation is not open: no rows of its nodes agree. The definition need not be
/// accepted. The call has no cost.
pub fn refuted_trees()
    ensures { (def : PlainDefinition) (f : Fragment) (r : PlainRefutation) → IsSound def → IsFormed def f
        → Refutes def f r → IsOpen def f → ⊥ }
{}

/// Shows that equations have one reason, or none. The call has no cost.
pub fn one_reason()
    ensures { (equations : List Equation) (r s : Option PlainReason) → IsReason equations r → IsReason equations s
        → r ≡ s }
{}

/// Shows that claims up to a step without rows are those of the steps of the tree's plan, one after the other. The call
/// has no cost.
pub fn planned_claims()
    ensures { (def : PlainDefinition) (path : List ℕ) (f : Fragment) (claims : List PlainClaim) (last : At)
        → IsFormed def f → ClaimTo def path f claims last
        ↔ Flows def rows_claimed (IsClaim def) [] (planned def 0 path f) claims (halted last) }
{}

/// Shows that the claims of a right refutation are those of the first steps of its node, in the order of the steps. The
/// call has no cost.
pub fn claims_in_order()
    ensures { (def : PlainDefinition) (path : List ℕ) (f : Fragment) (claims : List PlainClaim) (last : At)
        → IsFormed def f → ClaimTo def path f claims last → AreFirstSteps def path f claims last }
{}

/// Shows that the claims on the first culprit of a tree end at a step of the culprit itself, and not of a node below
/// it. The call has no cost.
pub fn ends_at_culprit()
    ensures { (def : PlainDefinition) (f : Fragment) (path : List ℕ) (node : Fragment) (claims : List PlainClaim)
        (last : At) → IsSound def
        → ((g : Fragment) (kind : PlainKind) → WellFormed def g kind → IsOpen def g ↔ IsCompletable def g)
        → IsFormed def f → IsFirstCulprit def f path node → ClaimTo def path node claims last → last.path ≡ path }
{}
