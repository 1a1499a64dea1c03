//! Laws of the table of keys: functions that do nothing, and whose contracts say what always holds.
ghost use Rattle.psg_grammar.specs.declared.types.Definition.{Definition};
ghost use Rattle.psg_grammar.specs.Fragments.{Fragment};
ghost use Rattle.psg_keys.specs.declared.key.Key.{Key};
ghost use Rattle.psg_keymap.specs.Faces.{Face};
ghost use Rattle.psg_keymap.specs.OfKeys.{AreOfKeys};

/// Shows what a key can be in each mode and at each place: a change of the program, undo, redo or save, with its path
/// written out. So no key moves a cursor, asks, or touches a file, and what is put into a list takes no bytes away.
/// What a key puts has the path that is written in its command.
pub fn keys_are_changes()
    ensures { (def : Definition) (tree : Fragment) (f : Face) (key : Key) → AreOfKeys def tree f key }
{}
