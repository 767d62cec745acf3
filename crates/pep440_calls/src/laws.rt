//! What holds of the bytes of a caller, as contracts of functions that do nothing.
ghost use Rattle.std.specs.List.{All, list_any};
ghost use Rattle.std.specs.Ordering.{nat_cmp};
ghost use Rattle.std.specs.Prelude.{length, ◌≤◌, ◌+◌, ◌*◌, ◌/◌, Bool, IsTrue, List, None, Some, [], ℕ, ◌↔◌, ◌≡◌, ◌⊎◌};
ghost use Rattle.pep440_compiled.specs.Lists.{HasListFormat};
ghost use Rattle.pep440_compiled.specs.Version.{HasVersionFormat, compiled_bytes};
ghost use Rattle.pep440_keys.specs.RangeKeys.{is_within, segment_interval};
ghost use Rattle.pep440_keys.specs.SortKeys.{key_bytes};
ghost use Rattle.pep440_rs.specs.Bounds.{Segments, range_of};
ghost use Rattle.pep440_rs.specs.Denoted.{IsDenotable, IsDenoted};
ghost use Rattle.pep440_rs.specs.LiteralMatching.{list_matches_literally};
ghost use Rattle.pep440_rs.specs.Specifiers.{Spec};
ghost use Rattle.pep440_version.specs.Grammar.{Derives};
ghost use Rattle.pep440_version.specs.Key.{record_cmp};
ghost use Rattle.pep440_version.specs.Print.{print};
ghost use Rattle.pep440_version.specs.Record.{Record};
ghost use Rattle.pep440_sets.specs.Common.{common_version};
ghost use Rattle.pep440_sets.specs.Emptiness.{IsUnsatisfiable};
ghost use Rattle.pep440_calls.specs.CallResults.{BytesDenoteSpecifier, ExplainsSpecifier, HasListSet, IsCompiled, IsCompiledList, IsPackedWord, IsRangeLines, IsSpecifier, IsVersionIn, LacksRange, RejectsOperand, RejectsOperator, RejectsPatternBytes, RejectsSpecifierBytes, StringDenotesPattern};
ghost use Rattle.pep440_calls.specs.CallerBytes.{BytesDenote, BytesDenoteList, StringDenotes, RejectsBytes, RejectsListBytes, ExplainsBytes, ExplainsListBytes};

/// Bytes denote one version, or are invalid with one error, and never both; a string does one of
/// these. No string of a version begins as a compiled one.
pub fn versions_once()
    ensures one { (bytes : List ℕ) (r q : Record) → BytesDenote bytes r → BytesDenote bytes q → r ≡ q }
    ensures why { (bytes words others : List ℕ) → ExplainsBytes bytes words → ExplainsBytes bytes others → words ≡ others }
    ensures either { (bytes : List ℕ) → (¬ HasVersionFormat bytes) → ((r : Record) × BytesDenote bytes r) ⊎ RejectsBytes bytes }
    ensures never_both { (bytes : List ℕ) (r : Record) → BytesDenote bytes r → RejectsBytes bytes → ⊥ }
    ensures format { (bytes : List ℕ) (r : Record) → Derives bytes r → HasVersionFormat bytes → ⊥ }
{}

/// Bytes denote one list, or are invalid with one error, and never both; a string does one of these.
pub fn lists_once()
    ensures one { (bytes : List ℕ) (l m : List Spec) → BytesDenoteList bytes l → BytesDenoteList bytes m → l ≡ m }
    ensures why { (bytes words others : List ℕ) → ExplainsListBytes bytes words → ExplainsListBytes bytes others → words ≡ others }
    ensures either { (bytes : List ℕ) → (¬ HasListFormat bytes) → ((l : List Spec) × BytesDenoteList bytes l) ⊎ RejectsListBytes bytes }
    ensures never_both { (bytes : List ℕ) (l : List Spec) → BytesDenoteList bytes l → RejectsListBytes bytes → ⊥ }
{}

/// Bytes denote one specifier, or are invalid with one error, and never both.
pub fn one_specifier_once()
    ensures one { (bytes : List ℕ) (s t : Spec) → BytesDenoteSpecifier bytes s → BytesDenoteSpecifier bytes t → s ≡ t }
    ensures why { (bytes words others : List ℕ) → ExplainsSpecifier bytes words → ExplainsSpecifier bytes others → words ≡ others }
    ensures either { (bytes : List ℕ) → ((s : Spec) × BytesDenoteSpecifier bytes s) ⊎ RejectsSpecifierBytes bytes }
    ensures never_both { (bytes : List ℕ) (s : Spec) → BytesDenoteSpecifier bytes s → RejectsSpecifierBytes bytes → ⊥ }
{}

/// Bytes have one range, or are no list, or are a list without a range, and never two of these: so of the statuses 0, 2
/// and 5 a call on a string has one.
pub fn ranges_once()
    ensures one { (bytes words others : List ℕ) → IsRangeLines bytes words → IsRangeLines bytes others → words ≡ others }
    ensures either { (bytes : List ℕ) → (¬ HasListFormat bytes)
        → ((words : List ℕ) × IsRangeLines bytes words) ⊎ (RejectsListBytes bytes ⊎ LacksRange range_of bytes) }
    ensures never_both { (bytes words : List ℕ) → IsRangeLines bytes words → RejectsListBytes bytes → ⊥ }
    ensures never_at_max { (bytes words : List ℕ) → IsRangeLines bytes words → LacksRange range_of bytes → ⊥ }
    ensures one_error { (bytes : List ℕ) → LacksRange range_of bytes → RejectsListBytes bytes → ⊥ }
{}

/// What `pep440_version_in` writes of a list that some string denotes is nothing or a version that the list matches literally; it writes
/// nothing only if the list matches no version that a string denotes.
pub fn versions_in_lists()
    ensures matched { (bytes words : List ℕ) (l : List Spec) → All IsDenotable l → IsVersionIn bytes words → BytesDenoteList bytes l
        → (words ≡ []) ⊎ ((v : Record) × (words ≡ print v) × IsDenoted v × IsTrue (list_matches_literally l v)) }
    ensures none { (l : List Spec) → All IsDenotable l → common_version l ≡ None → IsUnsatisfiable l }
{}

/// The words of strings, as numbers, are in the order of the versions, and equal exactly if these are; a string has at most one word.
pub fn words_are_ordered()
    ensures one { (bytes : List ℕ) (m n : ℕ) → IsPackedWord bytes (Some m) → IsPackedWord bytes (Some n) → m ≡ n }
    ensures ordered { (a b : List ℕ) (m n : ℕ) (r q : Record) → IsPackedWord a (Some m) → IsPackedWord b (Some n)
        → BytesDenote a r → BytesDenote b q → nat_cmp m n ≡ record_cmp r q }
{}

/// The sort key of a version lies in an interval of a list's set exactly if the list, which some string denotes, matches the version literally.
pub fn keys_tell_membership()
    ensures { (bytes text : List ℕ) (set : Segments) (list : List Spec) (r : Record) → All IsDenotable list → HasListSet bytes set → BytesDenoteList bytes list
        → BytesDenote text r → list_any (λ s. is_within (segment_interval s) (key_bytes r)) set ≡ list_matches_literally list r }
{}

/// Bytes denote one pattern, or are invalid, and never both.
pub fn patterns_once()
    ensures one { (bytes : List ℕ) (r q : Record) (s t : Bool) → StringDenotesPattern bytes r s → StringDenotesPattern bytes q t → (r ≡ q) × (s ≡ t) }
    ensures either { (bytes : List ℕ) → ((r : Record) × (s : Bool) × StringDenotesPattern bytes r s) ⊎ RejectsPatternBytes bytes }
    ensures never_both { (bytes : List ℕ) (r : Record) (s : Bool) → StringDenotesPattern bytes r s → RejectsPatternBytes bytes → ⊥ }
{}

/// An operator and a pattern make one specifier, or the operator is rejected, or the pattern is, and never two of these.
pub fn specifiers_once()
    ensures one { (operator version a b : List ℕ) → IsSpecifier operator version a → IsSpecifier operator version b → a ≡ b }
    ensures either { (operator version : List ℕ) → ((bytes : List ℕ) × IsSpecifier operator version bytes)
        ⊎ (RejectsOperator operator version ⊎ RejectsOperand operator version) }
    ensures never_both { (operator version bytes : List ℕ) → IsSpecifier operator version bytes → RejectsOperator operator version → ⊥ }
    ensures never_without { (operator version bytes : List ℕ) → IsSpecifier operator version bytes → RejectsOperand operator version → ⊥ }
    ensures one_error { (operator version : List ℕ) → RejectsOperator operator version → RejectsOperand operator version → ⊥ }
{}

/// Bytes compile to one form, which denotes what they denote; two have the same exactly if they denote the same version, all its
/// parts, or the same list. So each call returns of a compiled form what it returns of the string.
pub fn compiled_once()
    ensures one { (text a b : List ℕ) → IsCompiled text a → IsCompiled text b → a ≡ b }
    ensures same { (s t a b : List ℕ) (r q : Record) → IsCompiled s a → IsCompiled t b → BytesDenote s r
        → BytesDenote t q → (a ≡ b) ↔ (r ≡ q) }
    ensures version { (text compiled : List ℕ) (r : Record) → IsCompiled text compiled → BytesDenote text r ↔ BytesDenote compiled r }
    ensures one_list { (text a b : List ℕ) → IsCompiledList text a → IsCompiledList text b → a ≡ b }
    ensures same_list { (s t a b : List ℕ) (l m : List Spec) → IsCompiledList s a → IsCompiledList t b
        → BytesDenoteList s l → BytesDenoteList t m → (a ≡ b) ↔ (l ≡ m) }
    ensures list { (text compiled : List ℕ) (l : List Spec) → IsCompiledList text compiled
        → BytesDenoteList text l ↔ BytesDenoteList compiled l }
{}

/// How many bytes suffice for the forms of a version, by the length of a string that denotes it: the bounds of `callers/c/pep440.h`, or less.
pub fn forms_are_bounded()
    ensures normal { (bytes : List ℕ) (r : Record) → StringDenotes bytes r → length (print r) ≤ 9 + length bytes }
    ensures key { (bytes : List ℕ) (r : Record) → StringDenotes bytes r → length (key_bytes r) ≤ 7 + 3 * length bytes / 2 }
    ensures compiled { (bytes : List ℕ) (r : Record) → StringDenotes bytes r → length (compiled_bytes r) ≤ 8 + 3 * length bytes / 2 }
{}
