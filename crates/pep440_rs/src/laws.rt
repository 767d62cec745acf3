//! What holds of matching and of ranges, each as the contract of a function that does nothing.
ghost use Rattle.std.specs.Prelude.{◌≡◌, ◌⊎◌, ℕ, Some, List, not};
ghost use Rattle.std.specs.List.{All};
ghost use Rattle.std.specs.List.Sorted.{IsPermutation};
ghost use Rattle.pep440_rs.specs.Agreement.{Agrees, HasOperand, HoldsOnlyMatches, HoldsAllMatches, IsCandidate, IsReleaseComparable, ListAgrees, HoldsInEach, HasFewSegments, FailsByAMember, ConversionsAreRanges, ConversionsHaveFewSegments};
ghost use Rattle.pep440_rs.specs.Arrangement.{Arranges};
ghost use Rattle.pep440_rs.specs.BoundsAgreement.{HoldsOnlyWithin, HoldsWithin, IsOrdered, IsReleasePair, KnowsGaps, MatchesWithin};
ghost use Rattle.pep440_rs.specs.Bounds.{Segments, range_of, release_range_of, list_range};
ghost use Rattle.pep440_rs.specs.Denoted.{IsDenotable};
ghost use Rattle.pep440_rs.specs.Lists.ListGrammar.{DerivesList, PieceRejection, RejectsList};
ghost use Rattle.pep440_rs.specs.Matching.{matches};
ghost use Rattle.pep440_rs.specs.Members.{list_members, pair_members};
ghost use Rattle.pep440_rs.specs.Specifiers.SpecifierGrammar.{DerivesSpecifier, IsDenotedSpecifier, RejectsSpecifier, SpecifierRejection};
ghost use Rattle.pep440_rs.specs.Specifiers.{Spec};
ghost use Rattle.pep440_ranges.specs.RangeSegments.{Segment};
ghost use Rattle.pep440_version.specs.Record.{Record};
ghost use Rattle.pep440_rs.specs.RaisedNumbers.{FailsAtMax, raised_number, raised_release_number};

use crate::specifier::operator::Operator;

/// A string denotes at most one specifier and at most one list.
pub fn means_one()
    ensures specifier { (text : List ℕ) (s t : Spec) → DerivesSpecifier text s → DerivesSpecifier text t → s ≡ t }
    ensures list { (text : List ℕ) (l m : List Spec) → DerivesList text l → DerivesList text m → l ≡ m }
{}

/// A string either denotes a specifier or is rejected with exactly one error, never both; likewise for lists.
pub fn refused_once()
    ensures specifier { (text : List ℕ) (f g : SpecifierRejection) → RejectsSpecifier text f → RejectsSpecifier text g → f ≡ g }
    ensures either { (text : List ℕ) → ((s : Spec) × DerivesSpecifier text s) ⊎ ((f : SpecifierRejection) × RejectsSpecifier text f) }
    ensures derived { (text : List ℕ) (s : Spec) (f : SpecifierRejection) → DerivesSpecifier text s → RejectsSpecifier text f → ⊥ }
    ensures list { (text : List ℕ) (f g : PieceRejection) → RejectsList text f → RejectsList text g → f ≡ g }
    ensures either_list { (text : List ℕ) → ((l : List Spec) × DerivesList text l) ⊎ ((f : PieceRejection) × RejectsList text f) }
    ensures derived_list { (text : List ℕ) (l : List Spec) (f : PieceRejection) → DerivesList text l → RejectsList text f → ⊥ }
{}

/// Members have exactly one arrangement.
pub fn arranged_once()
    ensures some { (members : List Spec) → (l : List Spec) × Arranges members l }
    ensures one { (members l m : List Spec) → Arranges members l → Arranges members m → l ≡ m }
{}

/// `!=` contains exactly what `==` doesn't, and `!=` star exactly what `==` star doesn't.
pub fn exclusions()
    ensures whole { (s v : Record) → matches Operator.NotEqual s v ≡ not (matches Operator.Equal s v) }
    ensures star { (s v : Record) → matches Operator.NotEqualStar s v ≡ not (matches Operator.EqualStar s v) }
{}

/// The version of a specifier that some string denotes is one for which range and matching can be compared: beside a
/// star a release with its epoch, beside `==`, `!=` and `===` any version, beside the others one without local part
/// (PEP 440, "Version specifiers"). Each member of a list that some string denotes is itself denoted by some string.
pub fn texts_give_operands()
    ensures single { (s : Spec) → IsDenotedSpecifier s → HasOperand s }
    ensures members { (text : List ℕ) (list : List Spec) → DerivesList text list → All IsDenotedSpecifier list }
    ensures list { (text : List ℕ) (list : List Spec) → DerivesList text list → All HasOperand list }
    ensures given { (s : Spec) → IsDenotedSpecifier s → IsDenotable s }
{}

/// If the version is one that a string can have beside the operator, the range holds exactly what the specifier
/// contains, as far as the two can be compared; whatever the suffixes, the range of `<` holds only what matches, and
/// the range of `>` all that matches. Each specifier that some string denotes is of this kind (`texts_give_operands`).
pub fn range_agrees()
    ensures agrees { (s : Spec) (range : Segments) → range_of s.operator s.version ≡ Some range → HasOperand s
        → Agrees IsCandidate s range }
    ensures within { (s : Spec) (range : Segments) → range_of s.operator s.version ≡ Some range → HasOperand s → HoldsOnlyMatches s range }
    ensures around { (s : Spec) (range : Segments) → range_of s.operator s.version ≡ Some range → HasOperand s → HoldsAllMatches s range }
{}

/// What `range_agrees` and `list_agrees` state, of specifiers that strings denote, alone or as members of any list, in one step.
pub fn range_of_text_agrees()
    ensures single { (s : Spec) (range : Segments) → range_of s.operator s.version ≡ Some range → IsDenotedSpecifier s → Agrees IsCandidate s range }
    ensures list { (members : List Spec) (range : Segments) → list_range range_of members ≡ Some range
        → All IsDenotedSpecifier members → ListAgrees IsCandidate members range }
    ensures within { (s : Spec) (range : Segments) → range_of s.operator s.version ≡ Some range → IsDenotedSpecifier s → HoldsOnlyMatches s range }
    ensures around { (s : Spec) (range : Segments) → range_of s.operator s.version ≡ Some range → IsDenotedSpecifier s → HoldsAllMatches s range }
{}

/// The release-only range holds exactly the releases that the specifier contains.
pub fn release_range_agrees()
    ensures { (s : Spec) (range : Segments) → release_range_of s.operator s.version ≡ Some range → Agrees IsReleaseComparable s range }
{}

/// The range of a list, by either conversion, holds exactly what the list contains, as far as the two can be compared.
pub fn list_agrees()
    ensures whole { (members : List Spec) (range : Segments) → list_range range_of members ≡ Some range
        → All HasOperand members → ListAgrees IsCandidate members range }
    ensures release { (members : List Spec) (range : Segments) → list_range release_range_of members ≡ Some range
        → ListAgrees IsReleaseComparable members range }
{}

/// The range of a list is the intersection of its members' ranges, and there is none exactly if one of them has
/// none.
pub fn list_is_intersection()
    ensures whole { (members : List Spec) (range : Segments) → list_range range_of members ≡ Some range
        → HoldsInEach range_of members range }
    ensures release { (members : List Spec) (range : Segments) → list_range release_range_of members ≡ Some range
        → HoldsInEach release_range_of members range }
    ensures refused { (members : List Spec) → FailsByAMember range_of members }
    ensures release_refused { (members : List Spec) → FailsByAMember release_range_of members }
{}

/// Each conversion gives a range, and ranges stay small.
pub fn ranges_stay_small()
    ensures apart { ConversionsAreRanges range_of }
    ensures few { ConversionsHaveFewSegments range_of }
    ensures release_apart { ConversionsAreRanges release_range_of }
    ensures release_few { ConversionsHaveFewSegments release_range_of }
    ensures whole { (members : List Spec) (range : Segments) → list_range range_of members ≡ Some range → HasFewSegments members range }
    ensures release { (members : List Spec) (range : Segments) → list_range release_range_of members ≡ Some range
        → HasFewSegments members range }
{}

/// A conversion is rejected exactly if a number to be raised is the greatest there is.
pub fn refused_at_max()
    ensures whole { FailsAtMax range_of raised_number }
    ensures release { FailsAtMax release_range_of raised_release_number }
{}

/// The members made of bounds contain the releases within the bounds: one pair gives exactly these,
/// a list of pairs all of these, and no other if each gap is known.
pub fn bounds_agree()
    ensures pair { (p : Segment Record) → IsReleasePair p → MatchesWithin p (pair_members p.0 p.1) }
    // Of a list of pairs, however its members are arranged.
    ensures all { (pairs : List (Segment Record)) (members : List Spec) → IsOrdered pairs → All IsReleasePair pairs
        → IsPermutation (list_members pairs) members → HoldsWithin pairs members }
    ensures only { (pairs : List (Segment Record)) (members : List Spec) → IsOrdered pairs → All IsReleasePair pairs
        → KnowsGaps pairs → IsPermutation (list_members pairs) members → HoldsOnlyWithin pairs members }
{}
