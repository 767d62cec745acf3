//! The parts of a sort key, found in its bytes. What is returned of other bytes is not specified.
ghost use Rattle.std.specs.Prelude.{◌≡◌, ◌<◌, ◌≤◌, ◌++◌, ◌∷◌, [], ℕ, List, is_some, length, map, replicate, IfSome, MatchOption};
ghost use Rattle.std.specs.List.{All, flat_map};
ghost use Rattle.pep440_compiled.specs.KeyParts.{BeginsOtherwise, base_bytes, suffix_bytes};
ghost use Rattle.pep440_version.specs.RoundTrip.{IsParsed};
ghost use Rattle.pep440_keys.specs.SortKeys.{HasNoZero, local_bytes, number_bytes, rank_bytes, segment_bytes};
ghost use Rattle.pep440_rs.specs.Matching.{any_prerelease};
ghost use Rattle.pep440_version.specs.Record.{LocalSegmentValue, Record};

// The rank of a ranked number, and the rest. The epoch is one of rank 0.
#[inline(always)]
pub(crate) fn skip_ranked_number(bytes: &[u8]) -> Option<(u8, &[u8])>
    ensures found { (rank n : ℕ) (rest : List ℕ) → rank < 16 → bytes.now ≡ rank_bytes (rank, n) ++ rest
        → MatchOption result ⊥ (λ p. (p.0 ≡ rank) × (p.1.now ≡ rest)) }
    ensures shorter { IfSome result (λ p. length p.1.now < length bytes.now) }
{
    let (first, rest) = bytes.split_first()?;
    let (_, rest) = rest.split_at_checked(usize::from(*first % 16))?;
    Some((*first / 16, rest))
}

// What follows release numbers and the 0 that ends them.
#[inline(always)]
fn skip_numbers(bytes: &[u8]) -> Option<&[u8]>
    ensures found { (numbers rest : List ℕ) → bytes.now ≡ flat_map (number_bytes 1) numbers ++ 0 ∷ rest
        → MatchOption result ⊥ (λ r. r.now ≡ rest) }
    ensures shorter { IfSome result (λ r. length r.now < length bytes.now) }
{
    let mut left = bytes;
    while let Some((first, later)) = left.split_first() {
        if *first == 0 {
            return Some(later);
        }
        // The count of a release number is one more than the bytes that follow it.
        let (_, rest) = left.split_at_checked(usize::from(*first))?;
        left = rest;
    }
    None
}

// The epoch, the release and the 0 that ends it; and the rest.
#[inline(always)]
pub(crate) fn split_release(bytes: &[u8]) -> Option<(&[u8], &[u8])>
    ensures found { (epoch : ℕ) (numbers rest : List ℕ) → bytes.now ≡ base_bytes epoch numbers ++ 0 ∷ rest
        → MatchOption result ⊥ (λ p. (p.0.now ≡ base_bytes epoch numbers ++ 0 ∷ []) × (p.1.now ≡ rest)) }
    ensures shorter { IfSome result (λ p. length p.1.now < length bytes.now) }
{
    let (_, numbers) = skip_ranked_number(bytes)?;
    let rest = skip_numbers(numbers)?;
    Some((&bytes[..bytes.len() - rest.len()], rest))
}

// What a suffix says to `<` and `>`.
#[derive(Clone, Copy)]
pub(crate) struct Suffix {
    pub(crate) is_prerelease: bool,
    pub(crate) is_post: bool,
}

// Stage, post and dev; and the rest. A stage below that of a final release, 5, is a pre-release or a dev release.
#[inline(always)]
pub(crate) fn split_suffix(bytes: &[u8]) -> Option<(Suffix, &[u8])>
    ensures found { (r : Record) (rest : List ℕ) → IsParsed r → bytes.now ≡ suffix_bytes r ++ rest
        → MatchOption result ⊥ (λ p. (p.0.is_prerelease ≡ any_prerelease r) × (p.0.is_post ≡ is_some r.post) × (p.1.now ≡ rest)) }
    ensures shorter { IfSome result (λ p. length p.1.now < length bytes.now) }
{
    // A final release, as most versions are.
    if let [80, 0, 16, rest @ ..] = bytes {
        let suffix = Suffix {
            is_prerelease: false,
            is_post: false,
        };
        return Some((suffix, rest));
    }
    let (stage, rest) = skip_ranked_number(bytes)?;
    let (post, rest) = skip_ranked_number(rest)?;
    let (dev, rest) = skip_ranked_number(rest)?;
    let suffix = Suffix {
        is_prerelease: stage < 5 || dev == 0,
        is_post: post > 0,
    };
    Some((suffix, rest))
}

// What follows a string and the 0 that ends it.
pub(crate) fn skip_text(bytes: &[u8]) -> Option<&[u8]>
    ensures found { (text rest : List ℕ) → All (λ b. 0 < b) text → bytes.now ≡ text ++ 0 ∷ rest → MatchOption result ⊥ (λ r. r.now ≡ rest) }
    ensures exact { IfSome result (λ r. (text : List ℕ) × (bytes.now ≡ text ++ 0 ∷ r.now)) }
    ensures shorter { IfSome result (λ r. length r.now < length bytes.now) }
{
    let mut left = bytes;
    while let Some((first, later)) = left.split_first() {
        if *first == 0 {
            return Some(later);
        }
        left = later;
    }
    None
}

// What follows a local segment, whose first byte this is.
#[inline(always)]
fn skip_segment(first: u8, bytes: &[u8]) -> Option<&[u8]>
    requires { 0 < first }
    ensures found { (s : LocalSegmentValue) (rest : List ℕ) → HasNoZero s
        → first ∷ bytes.now ≡ segment_bytes s ++ rest → MatchOption result ⊥ (λ r. r.now ≡ rest) }
    ensures shorter { IfSome result (λ r. length r.now ≤ length bytes.now) }
{
    if first == 1 {
        return skip_text(bytes);
    }
    let (_, rest) = bytes.split_at_checked(usize::from(first - 2))?;
    Some(rest)
}

// What follows a local part.
#[inline(always)]
pub(crate) fn skip_local(bytes: &[u8]) -> Option<&[u8]>
    ensures found { (local : List LocalSegmentValue) (rest : List ℕ) → All HasNoZero local
        → bytes.now ≡ local_bytes local ++ rest → MatchOption result ⊥ (λ r. r.now ≡ rest) }
    ensures shorter { IfSome result (λ r. length r.now < length bytes.now) }
{
    let mut left = bytes;
    while let Some((first, later)) = left.split_first() {
        if *first == 0 {
            return Some(later);
        }
        left = skip_segment(*first, later)?;
    }
    None
}

// What follows the zeros of a release, a byte 1 each.
pub(crate) fn skip_zeros(bytes: &[u8]) -> &[u8]
    ensures found { (numbers rest : List ℕ) → BeginsOtherwise 1 rest → bytes.now ≡ map (λ n. 1) numbers ++ rest → result.now ≡ rest }
    ensures shorter { length result.now ≤ length bytes.now }
{
    let mut left = bytes;
    while let Some((first, later)) = left.split_first() {
        if *first != 1 {
            return left;
        }
        left = later;
    }
    left
}

// The bytes without the zeros of a release at their end, a byte 1 each.
pub(crate) fn trim_zeros(bytes: &[u8]) -> &[u8]
    ensures found { (key numbers : List ℕ) → bytes.now ≡ (key ++ 0 ∷ []) ++ map (λ n. 1) numbers → result.now ≡ key ++ 0 ∷ [] }
    ensures exact { (zeros : ℕ) × (bytes.now ≡ result.now ++ replicate zeros 1) }
    ensures shorter { length result.now ≤ length bytes.now }
{
    let mut left = bytes;
    while let Some((last, kept)) = left.split_last() {
        if *last != 1 {
            return left;
        }
        left = kept;
    }
    left
}
