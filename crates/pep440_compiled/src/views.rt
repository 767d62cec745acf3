//! Compiled versions as they lie: where their parts are.
ghost use Rattle.std.specs.Prelude.{◌≡◌, ◌↔◌, ◌<◌, ◌++◌, ◌∷◌, [], List, ℕ, true, length, replicate, IfSome, MatchOption};
ghost use Rattle.pep440_compiled.specs.KeyParts.{BeginsOtherwise, base_bytes, suffix_bytes};
ghost use Rattle.pep440_compiled.specs.Version.{DenotesVersion, HasVersionFormat, version_bytes, zero_bytes};
ghost use Rattle.pep440_version.specs.RoundTrip.{IsParsed};
ghost use Rattle.pep440_keys.specs.SortKeys.{key_bytes, local_bytes};
ghost use Rattle.pep440_compiled.specs.KeyViews.{HasKey, HasParts, IsFinal, IsViewOf};
ghost use Rattle.pep440_version.specs.Record.{Record};

use crate::byte_order::read_half_word;
use crate::key_parts::{Suffix, skip_local, skip_zeros, split_release, split_suffix, trim_zeros};

// The format of versions.
pub(crate) const VERSION: u8 = 4;

// A version: its sort key, and how many zeros end its release.
#[derive(Clone, Copy)]
pub(crate) struct VersionView<'a> {
    pub(crate) key: &'a [u8],
    pub(crate) zeros: usize,
}

// A version, and the parts of its sort key: epoch and release with the 0 that ends it, all but the local part, what the suffix says,
// and whether there is a local part.
#[derive(Clone, Copy)]
pub(crate) struct PartsView<'a> {
    pub(crate) version: VersionView<'a>,
    pub(crate) release: &'a [u8],
    pub(crate) public: &'a [u8],
    pub(crate) suffix: Suffix,
    pub(crate) has_local: bool,
}

// The sort key of a version that is no pre-release; and whether it is known to be a final release without a local part.
#[derive(Clone, Copy)]
pub(crate) struct KeyView<'a> {
    pub(crate) key: &'a [u8],
    pub(crate) is_final: bool,
}

/// Whether the bytes begin with the format byte of compiled versions, which no string of a version begins with.
pub fn has_version_format(bytes: &[u8]) -> bool
    ensures { (result ≡ true) ↔ HasVersionFormat bytes.now }
{
    bytes.first() == Some(&VERSION)
}

// What follows the format of versions.
pub(crate) fn strip_format(bytes: &[u8]) -> Option<&[u8]>
    ensures found { (r : Record) → DenotesVersion bytes.now r → MatchOption result ⊥ (λ rest. rest.now ≡ version_bytes r) }
    ensures exact { IfSome result (λ rest. bytes.now ≡ 4 ∷ rest.now) }
    ensures format { MatchOption result (¬ HasVersionFormat bytes.now) (λ _. HasVersionFormat bytes.now) }
{
    match bytes.split_first() {
        Some((&VERSION, rest)) => Some(rest),
        _ => None,
    }
}

// The compiled version.
pub(crate) fn view_version(bytes: &[u8]) -> Option<VersionView<'_>>
    ensures found { (r : Record) → DenotesVersion bytes.now r → MatchOption result ⊥ (λ view. IsViewOf view r) }
    ensures exact { IfSome result (λ view. bytes.now ≡ 4 ∷ (view.key.now ++ replicate view.zeros 1)) }
    ensures format { MatchOption result (¬ HasVersionFormat bytes.now) (λ _. HasVersionFormat bytes.now) }
{
    let rest = strip_format(bytes)?;
    let key = trim_zeros(rest);
    Some(VersionView {
        key,
        zeros: rest.len() - key.len(),
    })
}

// What follows the release, and the rest after it.
#[inline(always)]
fn view_suffix<'a>(
    bytes: &'a [u8],
    release: &'a [u8],
    rest: &'a [u8],
) -> Option<(PartsView<'a>, &'a [u8])>
    requires { length rest.now < length bytes.now }
    ensures found { (r : Record) (more : List ℕ) → IsParsed r → BeginsOtherwise 1 more
        → bytes.now ≡ version_bytes r ++ more → release.now ≡ base_bytes r.epoch r.release ++ 0 ∷ []
        → rest.now ≡ suffix_bytes r ++ (local_bytes r.local ++ (zero_bytes r.release ++ more))
        → MatchOption result ⊥ (λ p. HasParts p.0 r × (p.1.now ≡ more)) }
    ensures shorter { IfSome result (λ p. length p.1.now < length bytes.now) }
{
    let (suffix, local) = split_suffix(rest)?;
    let after = skip_local(local)?;
    let rest = skip_zeros(after);
    let parts = PartsView {
        version: VersionView {
            key: &bytes[..bytes.len() - after.len()],
            zeros: after.len() - rest.len(),
        },
        release,
        public: &bytes[..bytes.len() - local.len()],
        suffix,
        has_local: local.len() - after.len() > 1,
    };
    Some((parts, rest))
}

// The leading version and its parts, and the rest.
#[inline(always)]
pub(crate) fn view_parts(bytes: &[u8]) -> Option<(PartsView<'_>, &[u8])>
    ensures found { (r : Record) (rest : List ℕ) → IsParsed r → BeginsOtherwise 1 rest
        → bytes.now ≡ version_bytes r ++ rest → MatchOption result ⊥ (λ p. HasParts p.0 r × (p.1.now ≡ rest)) }
    ensures shorter { IfSome result (λ p. length p.1.now < length bytes.now) }
{
    let (release, rest) = split_release(bytes)?;
    view_suffix(bytes, release, rest)
}

// What follows the suffix of a final release and the 0 that ends its local part, which are tested in one piece.
#[tactic(auto, using(crate::proofs::Suffixes::by_four))]
#[inline(always)]
pub(crate) fn strip_final_suffix(bytes: &[u8]) -> Option<&[u8]>
    ensures { IfSome result (λ rest. bytes.now ≡ 80 ∷ 0 ∷ 16 ∷ 0 ∷ rest.now) }
{
    if bytes.len() < 4 {
        return None;
    }
    if read_half_word(bytes) != 0x5000_1000 {
        return None;
    }
    Some(&bytes[4..])
}

// Epoch and release of the leading version with the 0 that ends it, and what follows its sort key, if it is a final release
// without a local part, as most are.
#[inline(always)]
pub(crate) fn split_final(bytes: &[u8]) -> Option<(&[u8], &[u8])>
    ensures found { (r : Record) (rest : List ℕ) → IsParsed r → bytes.now ≡ key_bytes r ++ rest
        → IfSome result (λ p. IsFinal r × (p.0.now ≡ base_bytes r.epoch r.release ++ 0 ∷ []) × (p.1.now ≡ rest)) }
    ensures shorter { IfSome result (λ p. length p.1.now < length bytes.now) }
{
    let (release, suffix) = split_release(bytes)?;
    let rest = strip_final_suffix(suffix)?;
    Some((release, rest))
}

// The sort key of a version, if it is neither a pre-release nor a developmental release, as few are.
#[inline(always)]
pub(crate) fn view_key(bytes: &[u8]) -> Option<KeyView<'_>>
    ensures { (r : Record) → IsParsed r → bytes.now ≡ version_bytes r → IfSome result (λ view. HasKey view r) }
{
    let (_, suffix) = split_release(bytes)?;
    if let Some(rest) = strip_final_suffix(suffix) {
        return Some(KeyView {
            key: &bytes[..bytes.len() - rest.len()],
            is_final: true,
        });
    }
    let (suffix, _) = split_suffix(suffix)?;
    if suffix.is_prerelease {
        return None;
    }
    Some(KeyView {
        key: trim_zeros(bytes),
        is_final: false,
    })
}

// The parts of the compiled version.
#[inline(always)]
pub(crate) fn view_version_parts(bytes: &[u8]) -> Option<PartsView<'_>>
    ensures found { (r : Record) → DenotesVersion bytes.now r → MatchOption result ⊥ (λ parts. HasParts parts r) }
    ensures format { IfSome result (λ _. HasVersionFormat bytes.now) }
{
    let (parts, _) = view_parts(strip_format(bytes)?)?;
    Some(parts)
}
