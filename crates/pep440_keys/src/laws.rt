//! Laws of sort keys and of intervals of them, as contracts of functions that do nothing.
ghost use Rattle.std.specs.Prelude.{◌≡◌, ◌↔◌, ◌++◌, ℕ, List, Bool, map};
ghost use Rattle.std.specs.Cmp.Lexicographic.{slice_cmp};
ghost use Rattle.std.specs.Ordering.{nat_cmp, ordering_then};
ghost use Rattle.std.specs.declared.cmp.Ordering.TheVariants.{Equal};
ghost use Rattle.pep440_ranges.specs.RangeSegments.{Segment, lies_in};
ghost use Rattle.pep440_version.specs.Grammar.{Derives};
ghost use Rattle.pep440_version.specs.Key.{record_cmp};
ghost use Rattle.pep440_version.specs.Patterns.{DerivesPattern};
ghost use Rattle.pep440_version.specs.Record.{Record};
ghost use Rattle.pep440_keys.specs.RangeKeys.{HasKeys, HoldsKeys, IsKeyedSegment, is_within, segment_interval};
ghost use Rattle.pep440_keys.specs.SortKeys.{IsKeyed, key_bytes};

/// Sort keys, compared byte by byte, are in the order of the versions, whose local segments must have no zero byte;
/// and they are the same bytes exactly if the versions are equal. Bytes that follow the keys count only if the keys
/// are the same: so a key may be the prefix of a longer one.
pub fn keys_are_ordered()
    ensures ordered { (r q : Record) → IsKeyed r → IsKeyed q → slice_cmp nat_cmp (key_bytes r) (key_bytes q) ≡ record_cmp r q }
    ensures same { (r q : Record) → IsKeyed r → IsKeyed q → (key_bytes r ≡ key_bytes q) ↔ (record_cmp r q ≡ Equal) }
    ensures followed { (r q : Record) → IsKeyed r → IsKeyed q → (u v : List ℕ)
        → slice_cmp nat_cmp (key_bytes r ++ u) (key_bytes q ++ v) ≡ ordering_then (record_cmp r q) (slice_cmp nat_cmp u v) }
{}

/// Each version that a string parses to, as a version or as a pattern, has local segments without a zero byte: so the
/// sort keys of all parsed versions are in the order of the versions.
pub fn texts_are_ordered()
    ensures keyed { (text : List ℕ) (r : Record) → Derives text r → IsKeyed r }
    ensures keyed_pattern { (text : List ℕ) (r : Record) (star : Bool) → DerivesPattern text r star → IsKeyed r }
    ensures ordered { (s t : List ℕ) (r q : Record) → Derives s r → Derives t q
        → slice_cmp nat_cmp (key_bytes r) (key_bytes q) ≡ record_cmp r q }
{}

/// A version lies in a segment exactly if its sort key lies in the segment's interval; the same holds for a list of segments. The
/// local segments of the versions must have no zero byte, and no parsed version has one (`texts_are_ordered`).
pub fn keys_tell_membership()
    ensures segment { (s : Segment Record) (v : Record) → IsKeyedSegment s → IsKeyed v
        → is_within (segment_interval s) (key_bytes v) ≡ lies_in record_cmp s v }
    ensures range { (range : List (Segment Record)) → HasKeys range → HoldsKeys range (map segment_interval range) }
{}
