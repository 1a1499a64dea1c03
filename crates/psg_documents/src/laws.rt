//! The laws of positions, as the contracts of calls that do nothing.
ghost use Rattle.std.specs.Prelude.{◌≡◌, ◌≤◌, ℕ, List};
ghost use Rattle.std.specs.List.{sum_by};
ghost use Rattle.std.specs.Str.{encode_utf8_all};
ghost use Rattle.psg_documents.specs.declared.encoding.Encoding.{Encoding};
ghost use Rattle.psg_documents.specs.Positions.{IsStop, IsPosition, IsPositionOf, IsByteOf, IsUpTo, units, units_of};

/// Shows that the two calls of `Lines` take each other back at a place where a person may be, that a place has one
/// position, and that a later position has no earlier byte.
pub fn positions_are_bytes()
    ensures bytes { (encoding : Encoding) (text : List ℕ) (byte line column found : ℕ) → IsStop text byte
        → IsPositionOf encoding text byte line column → IsByteOf encoding text line column found → found ≡ byte }
    ensures positions { (encoding : Encoding) (text : List ℕ) (byte line column found other_line other_column : ℕ)
        → IsStop text byte → IsPosition encoding text byte line column → IsByteOf encoding text line column found
        → IsPositionOf encoding text found other_line other_column
        → (other_line ≡ line) × (other_column ≡ column) }
    ensures places { (encoding : Encoding) (text : List ℕ) (byte line column found : ℕ) → IsStop text byte
        → IsPosition encoding text byte line column → IsByteOf encoding text line column found → found ≡ byte }
    ensures one { (encoding : Encoding) (text : List ℕ) (byte line column other_line other_column : ℕ)
        → IsPosition encoding text byte line column → IsPosition encoding text byte other_line other_column
        → (line ≡ other_line) × (column ≡ other_column) }
    ensures order { (encoding : Encoding) (text : List ℕ) (line column byte other_line other_column other : ℕ)
        → IsUpTo line column other_line other_column → IsByteOf encoding text line column byte
        → IsByteOf encoding text other_line other_column other → byte ≤ other }
{}

/// Shows that a text has the units of its characters.
pub fn columns_are_characters()
    ensures { (encoding : Encoding) (characters : List ℕ)
        → units encoding (encode_utf8_all characters) ≡ sum_by (units_of encoding) characters }
{}
