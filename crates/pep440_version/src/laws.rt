//! Laws of strings, records, normalized forms, words and orders, each as the contract of a function that does nothing; and the word
//! of a version.
ghost use Rattle.std.specs.Prelude.{Ok, Err, Some, None, ◌≡◌, ◌⊎◌, ℕ, List, Bool, true, if◌then◌else◌};
ghost use Rattle.pep440_version.specs.Grammar.{Derives};
ghost use Rattle.pep440_version.specs.Patterns.{DerivesPattern};
ghost use Rattle.pep440_version.specs.Print.{print};
ghost use Rattle.pep440_version.specs.Record.{Record, IsRecord};
ghost use Rattle.pep440_version.specs.Rejections.{PatternRejection, Rejection, Rejects, RejectsPattern};
ghost use Rattle.pep440_version.specs.RoundTrip.{RoundTrips};
ghost use Rattle.pep440_version.specs.Key.{kind_rank, prerelease_cmp, record_cmp, segment_cmp};
ghost use Rattle.pep440_version.specs.Segments.{segment};
ghost use Rattle.pep440_version.specs.contracts.prerelease.PrereleaseKindOrd.TheImpl.{cmp-value as cmp_kinds};
ghost use Rattle.pep440_version.specs.contracts.prerelease.PrereleaseOrd.TheImpl.{cmp-value as cmp_prereleases};
ghost use Rattle.pep440_version.specs.contracts.segment.LocalSegmentOrd.TheImpl.{cmp-value as cmp_segments};
ghost use Rattle.pep440_version.specs.declared.prerelease.Prerelease.{Prerelease};
ghost use Rattle.pep440_version.specs.declared.prerelease.PrereleaseKind.{PrereleaseKind};
ghost use Rattle.pep440_version.specs.declared.segment.LocalSegment.{LocalSegment};
ghost use Rattle.pep440_version.specs.Whole.{read_version, read_pattern};
ghost use Rattle.pep440_version.specs.Word.{is_packed, word};
ghost use Rattle.std.specs.Option.{option_copied};
ghost use Rattle.std.specs.Ordering.{nat_cmp};

use crate::version::Version;

/// The word of a packed version, borrowed from it; `None` for any other version.
///
/// Never allocates.
pub fn word(version: &Version) -> Option<&u64>
    ensures { option_copied result ≡ (if is_packed version.now then Some (word version.now) else None) }
{
    version.word()
}

/// The words of packed records are in the order of the keys, and equal exactly if the keys are.
pub fn words_are_ordered()
    ensures { (r q : Record) → is_packed r ≡ true → is_packed q ≡ true → nat_cmp (word r) (word q) ≡ record_cmp r q }
{}

/// A string denotes at most one version, and at most one pattern.
pub fn means_one()
    ensures version { (text : List ℕ) (r q : Record) → Derives text r → Derives text q → r ≡ q }
    ensures pattern { (text : List ℕ) (r q : Record) (s t : Bool) → DerivesPattern text r s → DerivesPattern text q t → (r ≡ q) × (s ≡ t) }
{}

/// A string either denotes a version or is rejected with exactly one error; so it is with patterns.
pub fn refused_once()
    ensures version { (text : List ℕ) (f g : Rejection) → Rejects text f → Rejects text g → f ≡ g }
    ensures either { (text : List ℕ) → ((r : Record) × Derives text r) ⊎ ((f : Rejection) × Rejects text f) }
    ensures derived { (text : List ℕ) (r : Record) (f : Rejection) → Derives text r → Rejects text f → ⊥ }
    ensures pattern { (text : List ℕ) (f g : PatternRejection) → RejectsPattern text f → RejectsPattern text g → f ≡ g }
    ensures either_pattern { (text : List ℕ) → ((r : Record) × (s : Bool) × DerivesPattern text r s)
        ⊎ ((f : PatternRejection) × RejectsPattern text f) }
    ensures derived_pattern { (text : List ℕ) (r : Record) (s : Bool) (f : PatternRejection) → DerivesPattern text r s
        → RejectsPattern text f → ⊥ }
{}

/// The version that a string denotes is a record of the crate, and its normalized form parses back to it.
pub fn meaning_is_printed()
    ensures bounded { (text : List ℕ) (r : Record) → Derives text r → IsRecord r }
    ensures rereads { (text : List ℕ) (r : Record) → Derives text r → RoundTrips r }
    ensures again { (r : Record) → IsRecord r → RoundTrips r → Derives (print r) r }
{}

/// Parsing from left to right, which computes, returns the version that a string denotes, or why it is rejected.
pub fn reading_agrees()
    ensures version { (text : List ℕ) (r : Record) → Derives text r → read_version text ≡ Ok r }
    ensures refused { (text : List ℕ) (f : Rejection) → Rejects text f → read_version text ≡ Err f }
    ensures pattern { (text : List ℕ) (r : Record) (s : Bool) → DerivesPattern text r s → read_pattern text ≡ Ok (r, s) }
    ensures refused_pattern { (text : List ℕ) (f : PatternRejection) → RejectsPattern text f → read_pattern text ≡ Err f }
{}

/// `cmp` of kinds, pre-releases and segments, which are derived, is the stated order.
pub fn parts_are_ordered()
    ensures kind { (j k : PrereleaseKind) → cmp_kinds.it j k ≡ nat_cmp (kind_rank j) (kind_rank k) }
    ensures prerelease { (p q : Prerelease) → cmp_prereleases.it p q ≡ prerelease_cmp p q }
    ensures segment { (s t : LocalSegment) → cmp_segments.it s t ≡ segment_cmp (segment s) (segment t) }
{}
