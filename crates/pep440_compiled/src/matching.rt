//! What matching asks of two compiled versions, by their bytes (PEP 440, "Version specifiers").
ghost use Rattle.std.specs.Prelude.{◌≡◌, ◌<◌, ◌++◌, ◌∷◌, ◌&&◌, ◌==◌, [], ℕ, List, false, length, nat_eq, MatchOption, IfSome};
ghost use Rattle.pep440_compiled.specs.KeyParts.{begins_with_ones, continues_with_zeros, ending_zeros, base_bytes};
ghost use Rattle.pep440_version.specs.RoundTrip.{IsParsed};
ghost use Rattle.pep440_compiled.specs.KeyViews.{HasParts, IsDecided, is_compared};
ghost use Rattle.pep440_keys.specs.SortKeys.{key_bytes};
ghost use Rattle.pep440_rs.specs.Matching.{begins_with, candidate, has_local, has_prefix, is_early, is_late, matches, same_release, without_last};
ghost use Rattle.pep440_rs.specs.Specifiers.{IsSpec};
ghost use Rattle.pep440_version.specs.Key.{record_cmp};
ghost use Rattle.pep440_version.specs.Record.{Fits, Record};
ghost use Rattle.std.specs.List.{All, starts_with};

use crate::byte_order::cmp_bytes;
use crate::key_parts::skip_ranked_number;
use crate::views::PartsView;
use pep440_rs::Operator;
use std::cmp::Ordering;

// What follows these bytes, if the others begin with them. Inlined, since a length that the compiler knows takes fewer instructions.
#[inline(always)]
pub(crate) fn strip_base<'a>(bytes: &'a [u8], base: &[u8]) -> Option<&'a [u8]>
    ensures { MatchOption result (starts_with nat_eq bytes.now base.now ≡ false) (λ rest. bytes.now ≡ base.now ++ rest.now) }
{
    let (start, rest) = bytes.split_at_checked(base.len())?;
    if start == base { Some(rest) } else { None }
}

// The order of the candidate, without its local part if the specifier has none, and the specifier.
#[inline(always)]
fn cmp_candidate(specifier: &PartsView<'_>, version: &PartsView<'_>) -> Ordering
    ensures { (s v : Record) → HasParts specifier.now s → HasParts version.now v → result ≡ record_cmp (candidate s v) s }
{
    if specifier.has_local || !version.has_local {
        cmp_bytes(version.version.key, specifier.version.key)
    } else {
        cmp_bytes(version.public, specifier.public)
    }
}

#[inline(always)]
fn is_same_release(specifier: &PartsView<'_>, version: &PartsView<'_>) -> bool
    ensures { (s v : Record) → HasParts specifier.now s → HasParts version.now v → result ≡ same_release s v }
{
    version.release == specifier.release
}

#[inline(always)]
fn is_early(specifier: &PartsView<'_>, version: &PartsView<'_>) -> bool
    ensures { (s v : Record) → HasParts specifier.now s → HasParts version.now v → result ≡ is_early s v }
{
    version.suffix.is_prerelease
        && !specifier.suffix.is_prerelease
        && is_same_release(specifier, version)
}

#[inline(always)]
fn is_late(specifier: &PartsView<'_>, version: &PartsView<'_>) -> bool
    ensures { (s v : Record) → HasParts specifier.now s → HasParts version.now v → result ≡ is_late s v }
{
    let is_post = version.suffix.is_post && !specifier.suffix.is_post;
    let is_local = specifier.has_local && version.has_local;
    (is_post || is_local) && is_same_release(specifier, version)
}

// The first of these bytes are zeros of a release, a byte 1 each.
fn begins_with_zeros(bytes: &[u8], zeros: usize) -> bool
    ensures { result ≡ begins_with_ones zeros bytes.now }
{
    zeros <= bytes.len() && bytes[..zeros].iter().all(|byte| *byte == 1)
}

// A release that has ended is padded with zeros; else so many follow.
fn continues_with_zeros(bytes: &[u8], zeros: usize) -> bool
    ensures { result ≡ continues_with_zeros zeros bytes.now }
{
    match bytes.split_first() {
        Some((first, _)) => *first == 0 || begins_with_zeros(bytes, zeros),
        None => begins_with_zeros(bytes, zeros),
    }
}

// The version has the epoch of the base, and its release begins with the numbers of the base, and then so many zeros.
fn has_prefix(base: &[u8], zeros: usize, version: &[u8]) -> bool
    ensures { (epoch : ℕ) (numbers : List ℕ) (v : Record) → Fits epoch → All Fits numbers → IsParsed v
        → base.now ≡ base_bytes epoch numbers → zeros ≡ ending_zeros numbers → version.now ≡ key_bytes v
        → result ≡ ((v.epoch == epoch) && begins_with v.release numbers) }
{
    match strip_base(version, base) {
        Some(rest) => continues_with_zeros(rest, zeros),
        None => false,
    }
}

// The epoch and the release, without the 0 that ends it.
#[inline(always)]
fn base(release: &[u8]) -> &[u8]
    ensures { (epoch : ℕ) (numbers : List ℕ) → release.now ≡ base_bytes epoch numbers ++ 0 ∷ [] → result.now ≡ base_bytes epoch numbers }
{
    match release.split_last() {
        Some((_, base)) => base,
        None => &[],
    }
}

// The release of the version begins with that of the specifier.
#[inline(always)]
fn has_release(specifier: &PartsView<'_>, version: &[u8]) -> bool
    ensures { (s v : Record) → HasParts specifier.now s → IsParsed v → version.now ≡ key_bytes v → result ≡ has_prefix s s.release v }
{
    has_prefix(base(specifier.release), specifier.version.zeros, version)
}

// The base without its last number, and how many zeros then end its numbers.
#[inline(never)]
fn without_last(base: &[u8]) -> Option<(&[u8], usize)>
    ensures { (epoch : ℕ) (numbers : List ℕ) → 0 < length numbers → All Fits numbers → ending_zeros numbers ≡ 0
        → base.now ≡ base_bytes epoch numbers → MatchOption result ⊥
        (λ p. (p.0.now ≡ base_bytes epoch (without_last numbers)) × (p.1 ≡ ending_zeros (without_last numbers))) }
{
    let (_, numbers) = skip_ranked_number(base)?;
    let mut left = numbers;
    let mut length = base.len() - numbers.len();
    let mut zeros = 0;
    while let Some((first, later)) = left.split_first() {
        let (_, rest) = later.split_at_checked(usize::from(first.saturating_sub(1)))?;
        if rest.is_empty() {
            return Some((&base[..length], zeros));
        }
        if *first == 1 {
            zeros += 1;
        } else {
            zeros = 0;
            length = base.len() - rest.len();
        }
        left = rest;
    }
    None
}

// The release of the version begins with that of the specifier, but for its last number.
#[inline(always)]
fn is_compatible(specifier: &PartsView<'_>, version: &[u8]) -> bool
    ensures { (s v : Record) → HasParts specifier.now s → 1 < length s.release → IsParsed v
        → version.now ≡ key_bytes v → result ≡ has_prefix s (without_last s.release) v }
{
    let zeros = specifier.version.zeros;
    if zeros > 0 {
        return has_prefix(base(specifier.release), zeros - 1, version);
    }
    match without_last(base(specifier.release)) {
        Some((shorter, zeros)) => has_prefix(shorter, zeros, version),
        None => false,
    }
}

// Whether a specifier with a star, `===` or `~=` contains the version. Takes copies, so that what the caller has in registers stays
// there for the other operators.
fn matches_other(operator: Operator, specifier: PartsView<'_>, version: PartsView<'_>) -> bool
    requires { is_compared operator ≡ false }
    ensures { (s v : Record) → HasParts specifier.entry s → HasParts version.entry v
        → IsSpec (record { operator = operator; version = s }) → result ≡ matches operator s v }
{
    let key = version.version.key;
    match operator {
        Operator::EqualStar => has_release(&specifier, key),
        Operator::NotEqualStar => !has_release(&specifier, key),
        Operator::ExactEqual => {
            key == specifier.version.key && version.version.zeros == specifier.version.zeros
        }
        Operator::TildeEqual => {
            is_compatible(&specifier, key) && cmp_candidate(&specifier, &version).is_ge()
        }
        _ => false,
    }
}

// Whether the specifier contains the version.
#[inline(always)]
pub(crate) fn matches_bytes(
    operator: Operator,
    specifier: &PartsView<'_>,
    version: &PartsView<'_>,
) -> bool
    ensures { (s v : Record) → HasParts specifier.now s → HasParts version.now v
        → IsSpec (record { operator = operator; version = s }) → result ≡ matches operator s v }
{
    match operator {
        Operator::Equal => cmp_candidate(specifier, version).is_eq(),
        Operator::NotEqual => !cmp_candidate(specifier, version).is_eq(),
        Operator::GreaterThanEqual => cmp_candidate(specifier, version).is_ge(),
        Operator::LessThanEqual => cmp_candidate(specifier, version).is_le(),
        Operator::LessThan => {
            cmp_candidate(specifier, version).is_lt() && !is_early(specifier, version)
        }
        Operator::GreaterThan => {
            cmp_candidate(specifier, version).is_gt() && !is_late(specifier, version)
        }
        _ => matches_other(operator, *specifier, *version),
    }
}

// The release of the version begins with this one, which no zeros end.
#[inline(always)]
pub(crate) fn begins_with_release(key: &[u8], release: &[u8]) -> bool
    ensures { (s v : Record) → IsParsed s → IsParsed v → ending_zeros s.release ≡ 0 → key.now ≡ key_bytes v
        → release.now ≡ base_bytes s.epoch s.release ++ 0 ∷ [] → result ≡ has_prefix s s.release v }
{
    key.starts_with(base(release))
}

// Whether a version in this order to the specifier's matches, if the order decides; `None` for `===`, `~=` and the star forms.
#[inline(always)]
pub(crate) fn matches_order(operator: Operator, order: Ordering) -> Option<bool>
    ensures { (s v : Record) → IsDecided order s v → IfSome result (λ b. b ≡ matches operator s v) }
{
    Some(match operator {
        Operator::Equal => order.is_eq(),
        Operator::NotEqual => !order.is_eq(),
        Operator::GreaterThanEqual => order.is_ge(),
        Operator::LessThanEqual => order.is_le(),
        Operator::LessThan => order.is_lt(),
        Operator::GreaterThan => order.is_gt(),
        _ => return None,
    })
}
