//! Laws of cursors, as contracts of calls that do nothing.
ghost use Rattle.std.specs.Prelude.{◌≡◌, ◌≤◌, ℕ, Bool, Some, length};
ghost use Rattle.psg_grammar.specs.Fragments.{Fragment, children_of};
ghost use Rattle.psg_grammar.specs.Paths.{Path, node_at, change_at, replaced, inserted, removed, ended};
ghost use Rattle.psg_script.specs.declared.command.Command.{Command};
ghost use Rattle.psg_windows.specs.Moving.{raised, lowered, lifted};
ghost use Rattle.psg_windows.specs.Resolving.{resolved, IsResolved};
ghost use Rattle.psg_windows.specs.Standing.{Leads, IsChain};

/// States that a command without a cursor stays as it is where it is resolved, and that no cursor is left in a resolved
/// command. It does nothing at run time.
pub fn resolved_once()
    ensures stays { (c : Path) (command : Command) → IsResolved command → resolved c command ≡ command }
    ensures none { (c : Path) (command : Command) → IsResolved (resolved c command) }
{}

/// States that another window's cursor which leads to a node leads to one again after each change of the fragment: a
/// node was replaced, an element was put into a list or taken out of it, or a list was finished or went on. It does
/// nothing at run time.
pub fn cursors_stay_at_nodes()
    ensures after_a_replaced_node { (at c : Path) (f old new : Fragment) → node_at f at ≡ Some old → Leads f c
        → Leads (replaced at new f) (lifted at c) }
    ensures after_a_new_element { (at c : Path) (k : ℕ) (f old new : Fragment) → node_at f at ≡ Some old → IsChain old
        → k ≤ length (children_of old) → Leads f c → Leads (change_at (inserted k new) at f) (raised at k c) }
    ensures after_an_element_went { (at c : Path) (k : ℕ) (f old : Fragment) → node_at f at ≡ Some old → IsChain old
        → Leads f c → Leads (change_at (removed k) at f) (lowered at k c) }
    ensures after_another_end { (u : Bool) (at c : Path) (f old : Fragment) → node_at f at ≡ Some old → Leads f c
        → Leads (change_at (ended u) at f) c }
{}
