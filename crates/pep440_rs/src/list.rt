//! Lists of specifiers: how one is made and read, its members, its forms as a string and as JSON, its order and hash.
ghost use Rattle.std.specs.Prelude.{◌≡◌, ◌≢◌, ◌==◌, ◌∷◌, ◌++◌, not, [], ℕ, List, codes, length, IfOk, IfErr, IfSome, IsOk, IsTrue, Some, Ok, Err, refl, ◌↔◌, IsErrOf, IsSomeAnd, None};
ghost use Rattle.std.specs.List.{All};
ghost use Rattle.std.specs.Slice.Iter.{iter_rest};
ghost use Rattle.std.specs.Vec.Iter.{into_iter_items};
ghost use Rattle.pep440_rs.specs.Agreement.{HasOperand};
ghost use Rattle.pep440_rs.specs.Arrangement.{Arranges, IsArranged, version_cmp};
ghost use Rattle.pep440_rs.specs.Denoted.{IsDenotable};
ghost use Rattle.pep440_rs.specs.Lists.ListResults.{ReturnsList, ListReads, line_for, line_of, list_kind_of};
ghost use Rattle.pep440_rs.specs.Lists.ListErrors.{IsListLifted, list_rejection_of};
ghost use Rattle.pep440_rs.specs.Lists.ListErrorTexts.{list_rejection_text, list_text_of};
ghost use Rattle.pep440_rs.specs.Lists.ListGrammar.{DerivesList, PieceRejection, RejectsList};
ghost use Rattle.pep440_rs.specs.Lists.ListReading.{read_members};
ghost use Rattle.pep440_rs.specs.Matching.{list_matches};
ghost use Rattle.pep440_rs.specs.Lists.{joined, print_list, list_cmp};
ghost use Rattle.pep440_rs.specs.Specifiers.{Spec, feed_spec};
ghost use Rattle.pep440_version.specs.Feed.{feed_items};
ghost use Rattle.std.specs.Cmp.{partial_equiv_from_equiv};
ghost use Rattle.std.specs.Ordering.{as_partial_cmp, eq_by_cmp};
ghost use Rattle.pep440_rs.specs.Lists.ListLaws.{list_equiv, list_po, list_total, lists_feed_alike};
ghost use Rattle.pep440_rs.specs.Json.{text_of, IsString, IfParserError, ReturnsFromJson};
ghost use Rattle.pep440_rs.specs.declared.specifier.operator.Operator.TheVariants.{ExactEqual};
ghost use Rattle.pep440_rs.specs.declared.json.error.JsonError.TheVariants.{NotAString};
ghost use Rattle.pep440_rs.specs.BoundsAgreement.{IsReleasePair, IsOrdered, KnowsGaps, HoldsWithin, HoldsOnlyWithin};
ghost use Rattle.pep440_rs.specs.Members.{list_members};

pub(crate) mod error;
mod literal;
mod prereleases;
pub(crate) mod print;
pub(crate) mod read;

use crate::bounds::members::convert_pairs;
use crate::json::error::JsonError;
use crate::json::{expect_string, from_list_error, join_members};
use crate::list::error::VersionSpecifiersParseError;
use crate::list::print::write_list;
use crate::specifier::VersionSpecifier;
use pep440_version::Version;
use serde_json::Value;
use std::alloc::{AllocError, Global};
use std::cmp::Ordering;
use std::hash::{Hash, Hasher};
use std::marker::Model;
use std::ops::Bound;
use std::{fmt, vec};

/// A list of specifiers, as `>=1.0, <2.0` (PEP 440, "Version specifiers"). The list contains a version if each
/// member does; so the empty list contains every version.
///
/// The members stand by version, and members with equal versions in the order in which they were given.
#[derive(Debug, Drop)]
pub struct VersionSpecifiers {
    members: Vec<VersionSpecifier>,
}

impl Model for VersionSpecifiers {
    ghost use Rattle.std.specs.Prelude.{List};
    ghost use Rattle.pep440_rs.specs.Arrangement.{IsArranged};
    ghost use Rattle.pep440_rs.specs.Specifiers.{Spec};

    ghost Value = { List Spec };

    ghost view = { λ l. l.members.items };

    ghost invariant = { λ l. IsArranged l.members.items };
}

// By version alone.
fn cmp_versions(a: &VersionSpecifier, b: &VersionSpecifier) -> Ordering
    ensures { result ≡ version_cmp a.now b.now }
{
    a.version().cmp(b.version())
}

// Whether no member's version is below that of the one before it.
fn is_arranged(members: &[VersionSpecifier]) -> bool
    ensures rise { IsTrue result → IsArranged members.now }
    ensures fall { IsArranged members.now → IsTrue result }
{
    for i in 1..members.len() {
        if cmp_versions(&members[i], &members[i - 1]).is_lt() {
            return false;
        }
    }
    true
}

impl VersionSpecifiers {
    /// The list without members.
    ///
    /// Allocates nothing.
    pub fn empty(alloc: Global) -> VersionSpecifiers
        ensures { result ≡ [] }
    {
        VersionSpecifiers {
            members: Vec::new(alloc),
        }
    }

    /// The list of these members: by version, and members with equal versions in the order given.
    ///
    /// Allocates only if they are not in this order already.
    pub fn from_specifiers(
        alloc: Global,
        specifiers: Vec<VersionSpecifier>,
    ) -> Result<VersionSpecifiers, AllocError>
        ensures value { IfOk result (λ list. Arranges specifiers.items list) }
        ensures memory { IsArranged specifiers.items → IsOk result }
    {
        if is_arranged(&specifiers) {
            return Ok(VersionSpecifiers {
                members: specifiers,
            });
        }
        VersionSpecifiers::arrange(specifiers)
    }

    // The list of these members, sorted by version; members with equal versions stay in the order given.
    fn arrange(specifiers: Vec<VersionSpecifier>) -> Result<VersionSpecifiers, AllocError>
        ensures { IfOk result (λ list. Arranges specifiers.items list) }
    {
        let mut members = specifiers;
        members.sort_by(|a, b| cmp_versions(a, b))?;
        Ok(VersionSpecifiers { members })
    }

    /// The list of this one member.
    ///
    /// Allocates.
    pub fn from_specifier(
        alloc: Global,
        specifier: VersionSpecifier,
    ) -> Result<VersionSpecifiers, AllocError>
        ensures { IfOk result (λ list. list ≡ specifier ∷ []) }
    {
        let mut members = Vec::new(alloc);
        members.push(specifier)?;
        Ok(VersionSpecifiers { members })
    }

    /// The list of pairs of bounds: for each gap between an upper bound and the next lower one `!=` of the one
    /// version that is left out, or `!=a.b.*` from `a.b` on to below `a.c`, c being b plus 1, and nothing for
    /// every other gap; then the specifiers of the first lower and the last upper bound, as by
    /// `VersionSpecifier::from_release_only_bounds`; by version, and those with equal versions in this order. No
    /// pair gives the empty list (PEP 440, "Version specifiers"). Each version must be only a release;
    /// `Version::is_release_only` is its test.
    ///
    /// Allocates.
    pub fn from_release_only_bounds(
        alloc: Global,
        pairs: &[(Bound<Version>, Bound<Version>)],
    ) -> Result<VersionSpecifiers, AllocError>
        requires { All IsReleasePair pairs.now }
        ensures value { IfOk result (λ list. Arranges (list_members pairs.now) list) }
        // It contains each release within the pairs, where these are valid and ascend.
        ensures within { IfOk result (λ list. IsOrdered pairs.now → HoldsWithin pairs.now list) }
        // It contains no other release, where moreover each gap is empty or gives a member.
        ensures only { IfOk result (λ list. IsOrdered pairs.now → KnowsGaps pairs.now → HoldsOnlyWithin pairs.now list) }
    {
        VersionSpecifiers::from_specifiers(alloc, convert_pairs(alloc, pairs)?)
    }

    // What the reading from the left gives.
    fn read(alloc: Global, text: &str) -> Result<VersionSpecifiers, VersionSpecifiersParseError>
        ensures value { ListReads result (read_members text.now) }
        ensures lifted { IfErr result (λ e. IsListLifted (list_kind_of e)) }
        ensures line { IfErr result (λ e. line_of e ≡ line_for text.now (list_kind_of e)) }
    {
        let members = match read::parse_members(alloc, text) {
            Ok(members) => members,
            Err(kind) => return Err(VersionSpecifiersParseError::from_text(alloc, text, kind)),
        };
        match VersionSpecifiers::from_specifiers(alloc, members) {
            Ok(list) => Ok(list),
            Err(_) => Err(VersionSpecifiersParseError::out_of_memory(alloc)),
        }
    }

    /// The list that the string denotes: specifiers with commas between them, by version, and those with equal
    /// versions in the order of the string; the empty string is the empty list (PEP 440, "Version specifiers").
    ///
    /// Allocates. Every string that is no list is rejected with its first piece that is no specifier, and where in
    /// the string that piece lies; only if an allocation failed the kind may be `OutOfMemory` instead.
    pub fn from_str(
        alloc: Global,
        text: &str,
    ) -> Result<VersionSpecifiers, VersionSpecifiersParseError>
        // What is returned is what the string denotes.
        ensures found { IfOk result (λ list. DerivesList text.now list) }
        // The version of each member is one that a string can have beside the operator, as the agreement of ranges
        // requires.
        ensures operand { IfOk result (λ list. All HasOperand list) }
        // It is one that a string denotes, too, as sets require.
        ensures denotable { IfOk result (λ list. All IsDenotable list) }
        // What the string denotes is returned, unless an allocation fails.
        ensures only { (list : List Spec) → DerivesList text.now list → ReturnsList result (Ok list) }
        // The error is that of the first invalid piece.
        ensures refused { IfErr result (λ e. IfSome (list_rejection_of (list_kind_of e)) (RejectsList text.now)) }
        // The error of the string is returned, unless an allocation fails.
        ensures decided { (f : PieceRejection) → RejectsList text.now f → ReturnsList result (Err f) }
        // The error's message is the stated one, with the whole string and a line that marks the piece.
        ensures message { IfErr result (λ e. IfSome (list_rejection_of (list_kind_of e))
            (λ f. list_text_of (list_kind_of e) (line_of e) ≡ Some (list_rejection_text f text.now))) }
        // The error holds the whole string, and nothing when out of memory.
        ensures line { IfErr result (λ e. line_of e ≡ line_for text.now (list_kind_of e)) }
        // Out of memory is the last kind, and stands in no other.
        ensures lifted { IfErr result (λ e. IsListLifted (list_kind_of e)) }
        // The printed form of what some string denotes round-trips, unless an allocation fails.
        ensures again { (t : List ℕ) (list : List Spec) → DerivesList t list → text.now ≡ print_list list → ReturnsList result (Ok list) }
        // So does its form with only commas between the members.
        ensures joined { (t : List ℕ) (list : List Spec) → DerivesList t list → text.now ≡ joined (codes ",") list
            → ReturnsList result (Ok list) }
    {
        VersionSpecifiers::read(alloc, text)
    }

    // The members, taken out of the list.
    pub(crate) fn into_members(self) -> Vec<VersionSpecifier>
        ensures { result.items ≡ self }
    {
        let VersionSpecifiers { members } = self;
        members
    }

    /// Whether there is no member.
    pub fn is_empty(&self) -> bool
        ensures { result ≡ (length self.now == 0) }
    {
        self.members.is_empty()
    }

    /// The members in order: their versions never fall.
    pub fn as_slice(&self) -> &[VersionSpecifier]
        ensures value { result.now ≡ self.now }
        // Versions never fall.
        ensures valid { IsArranged self.now }
    {
        self.members.as_slice()
    }

    /// The members in order, one by one.
    pub fn iter(&self) -> std::slice::Iter<'_, VersionSpecifier>
        ensures { iter_rest result ≡ self.now }
    {
        self.members.iter()
    }

    /// Whether each member contains the version; so the empty list contains every version. The first member that
    /// does not, or whose allocation fails, decides (PEP 440, "Version specifiers").
    ///
    /// Allocates only for members with `===`, and for none after the first member that does not contain the version;
    /// if no `===` is reached it always succeeds.
    #[tactic(auto, using(crate::proofs::Arranging::InOrder::told_step, crate::proofs::Arranging::InOrder::told_open))]
    pub fn contains(&self, alloc: Global, version: &Version) -> Result<bool, AllocError>
        ensures value { IfOk result (λ b. b ≡ list_matches self.now version.now) }
        ensures answered { All (λ m. m.operator ≢ ExactEqual) self.now → IsOk result }
        // So it does where a member before the first `===` does not contain the version.
        ensures in_order { (before after : List Spec) → self.now ≡ before ++ after
            → All (λ m. m.operator ≢ ExactEqual) before → IsTrue (not (list_matches before version.now)) → IsOk result }
    {
        for member in self.as_slice() {
            if !member.contains(alloc, version)? {
                return Ok(false);
            }
        }
        Ok(true)
    }

    /// The list as JSON: the string of its members, with a comma and no space between them.
    ///
    /// Allocates.
    pub fn to_json(&self, alloc: Global) -> Result<Value, AllocError>
        ensures { IfOk result (λ value. IsString value (joined (codes ",") self.now)) }
    {
        Ok(Value::from(join_members(alloc, self.as_slice())?))
    }

    /// The list that a JSON string denotes, as by `VersionSpecifiers::from_str`.
    ///
    /// Allocates. Every other value is rejected as `NotAString`, and a string that is no list as `Text` of the error
    /// of `VersionSpecifiers::from_str`; only if an allocation failed the error of a string may be `OutOfMemory`
    /// instead.
    pub fn from_json(
        alloc: Global,
        value: &Value,
    ) -> Result<VersionSpecifiers, JsonError<VersionSpecifiersParseError>>
        // `NotAString` is the error of what is no string, and of nothing else.
        ensures no_string { IsErrOf result NotAString ↔ (text_of value.now ≡ None) }
        // What is returned is what the string denotes.
        ensures found { IfOk result (λ list. (t : List ℕ) × IsString value.now t × DerivesList t list) }
        // What the string denotes is returned, unless an allocation fails.
        ensures only { (t : List ℕ) (list : List Spec) → IsString value.now t → DerivesList t list
            → ReturnsFromJson (λ e. list_rejection_of (list_kind_of e)) result (Ok list) }
        // The error of the string is that of its first invalid piece, and not out of memory.
        ensures refused { IfErr result (λ e. IfParserError e
            (λ inner. IsSomeAnd (list_rejection_of (list_kind_of inner)) (λ f. (t : List ℕ) × IsString value.now t × RejectsList t f))) }
        // The error's message is the stated one, with the whole string and a line that marks the piece.
        ensures message { IfErr result (λ e. IfParserError e
            (λ inner. IfSome (list_rejection_of (list_kind_of inner))
            (λ f. list_text_of (list_kind_of inner) (line_of inner) ≡ Some (list_rejection_text f (line_of inner))))) }
        // The error of the string holds the whole string.
        ensures line { IfErr result (λ e. IfParserError e (λ inner. IsString value.now (line_of inner))) }
        // The error of the string is returned, unless an allocation fails.
        ensures decided { (t : List ℕ) (f : PieceRejection) → IsString value.now t → RejectsList t f
            → ReturnsFromJson (λ e. list_rejection_of (list_kind_of e)) result (Err f) }
        // The JSON form of what some string denotes round-trips, unless an allocation fails.
        ensures again { (t : List ℕ) (list : List Spec) → DerivesList t list
            → IsString value.now (joined (codes ",") list) → ReturnsFromJson (λ e. list_rejection_of (list_kind_of e)) result (Ok list) }
    {
        let text = expect_string::<VersionSpecifiersParseError>(value)?;
        VersionSpecifiers::from_str(alloc, text).map_err(from_list_error)
    }
}

impl IntoIterator for VersionSpecifiers {
    type Item = VersionSpecifier;

    type IntoIter = vec::IntoIter<VersionSpecifier>;

    ghost into_iter_gives = { λ list items. into_iter_items items ≡ list };

    fn into_iter(self) -> vec::IntoIter<VersionSpecifier> {
        let VersionSpecifiers { members } = self;
        members.into_iter()
    }
}

impl Clone for VersionSpecifiers {
    ghost is_clone = { λ list copy. copy ≡ list };

    fn clone(&self) -> Result<VersionSpecifiers, AllocError> {
        Ok(VersionSpecifiers {
            members: self.members.clone()?,
        })
    }
}

impl PartialEq for VersionSpecifiers {
    ghost eq = { eq_by_cmp list_cmp };

    ghost laws = { partial_equiv_from_equiv list_equiv };

    fn eq(&self, other: &VersionSpecifiers) -> bool {
        self.cmp(other) == Ordering::Equal
    }
}

impl Eq for VersionSpecifiers {
    ghost laws = { list_equiv };
}

impl PartialOrd for VersionSpecifiers {
    ghost partial_cmp = { as_partial_cmp list_cmp };

    ghost laws = { list_po };

    fn partial_cmp(&self, other: &VersionSpecifiers) -> Option<Ordering> {
        Some(self.cmp(other))
    }
}

impl Ord for VersionSpecifiers {
    ghost cmp = { list_cmp };

    ghost total = { list_total };

    ghost matches_partial_cmp = { λ a b. refl };

    ghost matches_eq = { λ a b. refl };

    fn cmp(&self, other: &VersionSpecifiers) -> Ordering {
        self.as_slice().cmp(other.as_slice())
    }
}

impl Hash for VersionSpecifiers {
    ghost hash_input = { feed_items feed_spec };

    ghost respects_eq = { lists_feed_alike };

    fn hash<H: Hasher>(&self, state: &mut H) {
        let members = self.as_slice();
        state.write_u64(members.len() as u64);
        VersionSpecifier::hash_slice(members, state);
    }
}

impl fmt::Display for VersionSpecifiers {
    ghost output = { λ list. Some (print_list list) };

    ghost styled_output = { λ list _. Some (print_list list) };

    fn fmt<W: fmt::Write>(&self, f: &mut fmt::Formatter<W>) -> fmt::Result {
        write_list(f, self.as_slice())
    }
}
