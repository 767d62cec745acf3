//! The compiled form of a string, written part by part before a version is made of them.
ghost use Rattle.std.specs.Prelude.{◌≡◌, ◌+◌, ◌++◌, ◌-◌, ◌<◌, ◌≤◌, ◌==◌, ◌∷◌, ◌⊎◌, ℕ, List, [], codes, length, replicate, Option, Some, None, Ok, IfOk, IfSome, IsOk, MatchOption, MatchResult, OnOk, false, nat_eq, true};
ghost use Rattle.std.specs.Char.{is_ascii_digit};
ghost use Rattle.std.specs.Fmt.{decimal};
ghost use Rattle.std.specs.List.{All, flat_map, list_all, prefix_len, starts_with};
ghost use Rattle.pep440_compiled.specs.KeyParts.{ending_zeros};
ghost use Rattle.pep440_compiled.specs.Strings.{EndsRelease, HasNoNumeral, HasSegment, IsPrinted};
ghost use Rattle.pep440_compiled.specs.Version.{DenotesVersion, HasShortForm};
ghost use Rattle.pep440_keys.specs.SortKeys.{local_bytes, number_bytes, segment_bytes};
ghost use Rattle.pep440_version.specs.Grammar.{AreSegments, Derives, IsDev, IsEpoch, IsLocal, IsNumber, IsPost, IsPre, IsRelease, IsSeparator, IsSpelling, pre_spellings, starts};
ghost use Rattle.pep440_version.specs.Key.Trim.{trim};
ghost use Rattle.pep440_version.specs.Normal.{HasSuffix, spelling};
ghost use Rattle.pep440_version.specs.Print.{dotted, epoch_text, labelled, local_text, pre_text, prerelease_kind_text, print, print_segment};
ghost use Rattle.pep440_version.specs.Reading.{skip_v};
ghost use Rattle.pep440_version.specs.Record.{Fits, LocalSegmentValue, Record, SegmentFits, Text};
ghost use Rattle.pep440_version.specs.RoundTrip.{SegmentRoundTrips, is_lower};
ghost use Rattle.pep440_version.specs.declared.prerelease.Prerelease.{Prerelease};
ghost use Rattle.pep440_version.specs.declared.prerelease.PrereleaseKind.{PrereleaseKind};

use crate::decode::SuffixParts;
use crate::views::VERSION;
use arrayvec::ArrayVec;
use pep440_keys::{KeySink, push_number, push_suffix_of};
use pep440_version::{Prerelease, PrereleaseKind};
use std::alloc::AllocError;

// How many lower-case letters and digits lead.
#[inline(always)]
fn count_lower(text: &[u8]) -> usize
    ensures count { result ≡ prefix_len is_lower text.now }
    ensures inside { result ≤ length text.now }
{
    text.iter()
        .take_while(|byte| byte.is_ascii_digit() || byte.is_ascii_lowercase())
        .count()
}

// The leading lower-case letters and digits, and the rest.
#[inline(always)]
pub(crate) fn split_lower(text: &[u8]) -> (&[u8], &[u8])
    ensures lower { list_all is_lower result.0.now ≡ true }
    ensures joined { text.now ≡ result.0.now ++ result.1.now }
    ensures ended { starts is_lower result.1.now ≡ false }
{
    text.split_at(count_lower(text))
}

// The leading number, if it is below 2^64, and the rest.
#[inline(always)]
fn split_number(text: &[u8]) -> Option<(u64, &[u8])>
    ensures number { IfSome result (λ x. (digits : List ℕ) × IsNumber digits x.0 × (text.now ≡ digits ++ x.1.now)) }
    ensures ended { IfSome result (λ x. starts is_ascii_digit x.1.now ≡ false) }
    ensures found { (digits rest : List ℕ) (n : ℕ) → IsNumber digits n → starts is_ascii_digit rest ≡ false → text.now ≡ digits ++ rest
        → MatchOption result ⊥ (λ x. (x.0 ≡ n) × (x.1.now ≡ rest)) }
{
    let (first, rest) = text.split_first()?;
    if !first.is_ascii_digit() {
        return None;
    }
    let mut number = u64::from(*first - b'0');
    for i in 0..rest.len() {
        if !rest[i].is_ascii_digit() {
            return Some((number, &rest[i..]));
        }
        let tens = number.checked_mul(10)?;
        number = tens.checked_add(u64::from(rest[i] - b'0'))?;
    }
    Some((number, &[]))
}

// Whether a digit leads.
#[inline(always)]
fn begins_number(text: &[u8]) -> bool
    ensures { result ≡ starts is_ascii_digit text.now }
{
    match text.first() {
        Some(byte) => byte.is_ascii_digit(),
        None => false,
    }
}

// Whether the rest of a segment follows its digits.
#[inline(always)]
fn begins_lower(text: &[u8]) -> bool
    requires { starts is_ascii_digit text.now ≡ false }
    ensures { result ≡ starts is_lower text.now }
{
    match text.first() {
        Some(byte) => byte.is_ascii_lowercase(),
        None => false,
    }
}

// The leading segment that is a number, and the rest; `None` of a segment that is a string.
#[inline(always)]
fn split_numeral(text: &[u8]) -> Option<(u64, &[u8])>
    ensures number { IfSome result (λ x. (digits : List ℕ) × IsNumber digits x.0 × (text.now ≡ digits ++ x.1.now)) }
    ensures ended { IfSome result (λ x. starts is_lower x.1.now ≡ false) }
    ensures found { (digits rest : List ℕ) (n : ℕ) → IsNumber digits n → starts is_lower rest ≡ false → text.now ≡ digits ++ rest
        → MatchOption result ⊥ (λ x. (x.0 ≡ n) × (x.1.now ≡ rest)) }
{
    let (number, rest) = split_number(text)?;
    if begins_lower(rest) {
        return None;
    }
    Some((number, rest))
}

// Appends the bytes of a segment that is a string.
#[inline(always)]
fn push_text(form: &mut ArrayVec<u8, 64>, text: &[u8]) -> Result<(), AllocError>
    ensures appended { OnOk result (form.new.items ≡ form.old.items ++ segment_bytes (Text text.now)) }
    ensures fits { length form.old.items + length (segment_bytes (Text text.now)) ≤ 64 → IsOk result }
{
    form.append(&[1])?;
    form.append(text)?;
    form.append(&[0])?;
    Ok(())
}

// Appends the bytes of the leading segment, which is a string of lower-case letters and digits, and returns the rest; `None` if there is none.
#[inline(always)]
fn push_string<'a>(
    form: &mut ArrayVec<u8, 64>,
    text: &'a [u8],
) -> Result<Option<&'a [u8]>, AllocError>
    requires { HasNoNumeral text.now }
    ensures appended { IfOk result (λ o. IfSome o (λ rest. HasSegment text.now rest.now form.old.items form.new.items)) }
    ensures fits { (s : LocalSegmentValue) (rest : List ℕ) → IsPrinted text.now s rest → length form.old.items + length (segment_bytes s) ≤ 64
        → MatchResult result (λ o. MatchOption o ⊥ (λ r. (r.now ≡ rest) × (form.new.items ≡ form.old.items ++ segment_bytes s))) (λ _. ⊥) }
{
    let (segment, rest) = split_lower(text);
    if segment.is_empty() {
        return Ok(None);
    }
    push_text(form, segment)?;
    Ok(Some(rest))
}

// As `push_segment`, of a segment that begins with a digit. A call of its own, so that others pay nothing for numbers.
#[inline(never)]
fn push_numeral<'a>(
    form: &mut ArrayVec<u8, 64>,
    text: &'a [u8],
) -> Result<Option<&'a [u8]>, AllocError>
    ensures appended { IfOk result (λ o. IfSome o (λ rest. HasSegment text.now rest.now form.old.items form.new.items)) }
    ensures fits { (s : LocalSegmentValue) (rest : List ℕ) → IsPrinted text.now s rest → length form.old.items + length (segment_bytes s) ≤ 64
        → MatchResult result (λ o. MatchOption o ⊥ (λ r. (r.now ≡ rest) × (form.new.items ≡ form.old.items ++ segment_bytes s))) (λ _. ⊥) }
{
    let Some((number, rest)) = split_numeral(text) else {
        return push_string(form, text);
    };
    push_number(form, 2, number)?;
    Ok(Some(rest))
}

// Appends the bytes of the leading segment of lower-case letters and digits, and returns the rest; `None` if there is none.
#[inline(always)]
fn push_segment<'a>(
    form: &mut ArrayVec<u8, 64>,
    text: &'a [u8],
) -> Result<Option<&'a [u8]>, AllocError>
    ensures appended { IfOk result (λ o. IfSome o (λ rest. HasSegment text.now rest.now form.old.items form.new.items)) }
    ensures fits { (s : LocalSegmentValue) (rest : List ℕ) → IsPrinted text.now s rest → length form.old.items + length (segment_bytes s) ≤ 64
        → MatchResult result (λ o. MatchOption o ⊥ (λ r. (r.now ≡ rest) × (form.new.items ≡ form.old.items ++ segment_bytes s))) (λ _. ⊥) }
{
    if begins_number(text) {
        return push_numeral(form, text);
    }
    push_string(form, text)
}

// Appends the bytes of segments with dots between them; `false` of other strings.
#[inline(always)]
fn push_segments(form: &mut ArrayVec<u8, 64>, text: &[u8]) -> Result<bool, AllocError>
    ensures appended { IfOk result (λ done. done ≡ true
        → (segments : List LocalSegmentValue) × AreSegments text.now segments
        × (form.new.items ≡ form.old.items ++ flat_map segment_bytes segments)) }
    ensures fits { (segments : List LocalSegmentValue) → 0 < length segments → All SegmentFits segments → All SegmentRoundTrips segments
        → text.now ≡ dotted print_segment segments
        → length form.old.items + length (flat_map segment_bytes segments) ≤ 64
        → (result ≡ Ok true) × (form.new.items ≡ form.old.items ++ flat_map segment_bytes segments) }
{
    let mut rest = text;
    while let Some(after) = push_segment(form, rest)? {
        match after {
            [] => return Ok(true),
            [b'.', later @ ..] => rest = later,
            _ => return Ok(false),
        }
    }
    Ok(false)
}

// Appends the bytes of a local part; `false` of other strings.
#[inline(always)]
fn push_local(form: &mut ArrayVec<u8, 64>, text: &[u8]) -> Result<bool, AllocError>
    ensures appended { IfOk result (λ done. done ≡ true
        → (local : List LocalSegmentValue) × IsLocal text.now local × (form.new.items ≡ form.old.items ++ local_bytes local)) }
    ensures fits { (local : List LocalSegmentValue) → All SegmentFits local → All SegmentRoundTrips local
        → text.now ≡ local_text local → length form.old.items + length (local_bytes local) ≤ 64
        → (result ≡ Ok true) × (form.new.items ≡ form.old.items ++ local_bytes local) }
{
    match text {
        [] => (),
        [b'+', segments @ ..] => {
            if !push_segments(form, segments)? {
                return Ok(false);
            }
        }
        _ => return Ok(false),
    }
    form.append(&[0])?;
    Ok(true)
}

// Whether it is no local part, or begins as one.
#[inline(always)]
fn begins_local(text: &[u8]) -> bool
    ensures { result ≡ true → (text.now ≡ []) ⊎ (starts (λ b. b == 43) text.now ≡ true) }
{
    matches!(text, [] | [b'+', ..])
}

// What follows the letter v, in either case, or nothing.
#[inline(always)]
fn skip_letter(text: &[u8]) -> &[u8]
    ensures { result.now ≡ skip_v text.now }
{
    match text {
        [b'v', rest @ ..] => rest,
        [b'V', rest @ ..] => rest,
        _ => text,
    }
}

// Appends so many bytes 1, each a zero of a release.
#[inline(always)]
fn push_ones(form: &mut ArrayVec<u8, 64>, count: usize) -> Result<(), AllocError>
    ensures appended { OnOk result (form.new.items ≡ form.old.items ++ replicate count 1) }
    ensures fits { length form.old.items + count ≤ 64 → IsOk result }
{
    for _ in 0..count {
        form.append(&[1])?;
    }
    Ok(())
}

// Appends the next number of a release, and before it the zeros that ended those so far; returns how many zeros end them now, which a sort key
// leaves out.
#[inline(always)]
fn push_release_number(
    form: &mut ArrayVec<u8, 64>,
    zeros: usize,
    number: u64,
) -> Result<usize, AllocError>
    ensures appended { IfOk result (λ ending. (old numbers : List ℕ) → zeros ≡ ending_zeros numbers
        → form.old.items ≡ old ++ flat_map (number_bytes 1) (trim numbers) → (ending ≡ ending_zeros (numbers ++ number ∷ []))
        × (form.new.items ≡ old ++ flat_map (number_bytes 1) (trim (numbers ++ number ∷ [])))) }
    ensures fits { length form.old.items + (zeros + length (number_bytes 1 number)) ≤ 64 → IsOk result }
{
    if number == 0 {
        let Some(ending) = zeros.checked_add(1) else {
            return Err(AllocError);
        };
        return Ok(ending);
    }
    push_ones(form, zeros)?;
    push_number(form, 1, number)?;
    Ok(0)
}

// The leading epoch, 0 if none is written, the number after it, and the rest.
#[inline(always)]
fn split_epoch(text: &[u8]) -> Option<(u64, u64, &[u8])>
    ensures epoch { IfSome result (λ x. (e digits : List ℕ) × IsEpoch e x.0 × IsNumber digits x.1 × (text.now ≡ e ++ (digits ++ x.2.now))) }
    ensures printed { (epoch first : ℕ) (rest : List ℕ) → Fits epoch → Fits first
        → starts is_ascii_digit rest ≡ false → starts (λ b. b == 33) rest ≡ false
        → text.now ≡ epoch_text epoch ++ (decimal first ++ rest)
        → MatchOption result ⊥ (λ x. (x.0 ≡ epoch) × (x.1 ≡ first) × (x.2.now ≡ rest)) }
{
    let (number, after) = split_number(text)?;
    let [b'!', release @ ..] = after else {
        return Some((0, number, after));
    };
    let (first, rest) = split_number(release)?;
    Some((number, first, rest))
}

// The number after a dot, and the rest.
#[inline(always)]
fn split_next_number(text: &[u8]) -> Option<(u64, &[u8])>
    ensures number { IfSome result (λ x. (digits : List ℕ) × IsNumber digits x.0 × (text.now ≡ 46 ∷ (digits ++ x.1.now))) }
    ensures found { (digits rest : List ℕ) (n : ℕ) → IsNumber digits n → starts is_ascii_digit rest ≡ false → text.now ≡ 46 ∷ (digits ++ rest)
        → MatchOption result ⊥ (λ x. (x.0 ≡ n) × (x.1.now ≡ rest)) }
{
    match text {
        [b'.', rest @ ..] => split_number(rest),
        _ => None,
    }
}

// Appends the numbers of a release, of which the first was read, as the others are read; returns how many zeros end it, and the rest.
#[inline(always)]
fn push_numbers<'a>(
    form: &mut ArrayVec<u8, 64>,
    first: u64,
    text: &'a [u8],
) -> Result<(usize, &'a [u8]), AllocError>
    ensures appended { IfOk result (λ x. (digits : List ℕ) → IsNumber digits first → (read release : List ℕ) × IsRelease read release
        × (digits ++ text.now ≡ read ++ x.1.now) × (x.0 ≡ ending_zeros release)
        × (form.new.items ≡ form.old.items ++ flat_map (number_bytes 1) (trim release))) }
    ensures fits { (others rest : List ℕ) → All Fits others → EndsRelease rest
        → text.now ≡ flat_map (λ n. codes "." ++ decimal n) others ++ rest
        → length form.old.items + length (flat_map (number_bytes 1) (first ∷ others)) ≤ 64
        → MatchResult result (λ x. (x.0 ≡ ending_zeros (first ∷ others)) × (x.1.now ≡ rest)
        × (form.new.items ≡ form.old.items ++ flat_map (number_bytes 1) (trim (first ∷ others)))) (λ _. ⊥) }
{
    let mut rest = text;
    let mut zeros = push_release_number(form, 0, first)?;
    while let Some((number, later)) = split_next_number(rest) {
        zeros = push_release_number(form, zeros, number)?;
        rest = later;
    }
    Ok((zeros, rest))
}

// What follows a separator, or nothing.
#[inline(always)]
fn skip_separator(text: &[u8]) -> &[u8]
    ensures { (separator : List ℕ) × IsSeparator separator × (text.now ≡ separator ++ result.now) }
{
    match text {
        [b'.', rest @ ..] => rest,
        [b'-', rest @ ..] => rest,
        [b'_', rest @ ..] => rest,
        _ => text,
    }
}

// What follows this word, if the string begins with it. Each byte by itself, which takes fewer instructions of a word that the compiler knows.
#[inline(always)]
fn strip_word<'a>(text: &'a [u8], word: &[u8]) -> Option<&'a [u8]>
    ensures { MatchOption result (starts_with nat_eq text.now word.now ≡ false) (λ rest. text.now ≡ word.now ++ rest.now) }
{
    let (start, rest) = text.split_at_checked(word.len())?;
    for i in 0..word.len() {
        if start[i] != word[i] {
            return None;
        }
    }
    Some(rest)
}

// The kind of pre-release that the leading word stands for, in lower case, and the rest.
fn split_kind(text: &[u8]) -> Option<(PrereleaseKind, &[u8])>
    ensures kind { IfSome result (λ x. (word : List ℕ) × IsSpelling pre_spellings word x.0 × (text.now ≡ word ++ x.1.now)) }
    ensures printed { (kind : PrereleaseKind) (digits : List ℕ) → starts is_ascii_digit digits ≡ true
        → text.now ≡ prerelease_kind_text kind ++ digits → MatchOption result ⊥ (λ x. (x.0 ≡ kind) × (x.1.now ≡ digits)) }
{
    // first, since most are candidates
    if let Some(rest) = strip_word(text, b"rc") {
        return Some((PrereleaseKind::Rc, rest));
    }
    if let Some(rest) = strip_word(text, b"alpha") {
        return Some((PrereleaseKind::Alpha, rest));
    }
    if let Some(rest) = strip_word(text, b"beta") {
        return Some((PrereleaseKind::Beta, rest));
    }
    if let Some(rest) = strip_word(text, b"preview") {
        return Some((PrereleaseKind::Rc, rest));
    }
    if let Some(rest) = strip_word(text, b"pre") {
        return Some((PrereleaseKind::Rc, rest));
    }
    match text {
        [b'a', rest @ ..] => Some((PrereleaseKind::Alpha, rest)),
        [b'b', rest @ ..] => Some((PrereleaseKind::Beta, rest)),
        [b'c', rest @ ..] => Some((PrereleaseKind::Rc, rest)),
        _ => None,
    }
}

// The leading pre-release with its number, or nothing, and the rest.
#[inline(always)]
fn split_pre(text: &[u8]) -> Option<(Option<Prerelease>, &[u8])>
    ensures pre { IfSome result (λ x. (p : List ℕ) × IsPre p x.1.now x.0 × (text.now ≡ p ++ x.1.now)) }
    ensures printed { (pre : Option Prerelease) (post dev : Option ℕ) (local : List LocalSegmentValue) → IfSome pre (λ p. Fits p.number)
        → text.now ≡ pre_text pre ++ (labelled (codes ".post") post ++ (labelled (codes ".dev") dev ++ local_text local))
        → MatchOption result ⊥ (λ x. (x.0 ≡ pre) × (x.1.now ≡ labelled (codes ".post") post ++ (labelled (codes ".dev") dev ++ local_text local))) }
{
    let Some((kind, after)) = split_kind(skip_separator(text)) else {
        return Some((None, text));
    };
    let (number, rest) = split_number(skip_separator(after))?;
    Some((Some(Prerelease { kind, number }), rest))
}

// The number after this word, if the string begins with the word, and the rest.
#[inline(always)]
fn split_number_after<'a>(word: &[u8], text: &'a [u8]) -> Option<(Option<u64>, &'a [u8])>
    ensures suffix { (class : ℕ) → word.now ≡ spelling class → IfSome result (λ x. HasSuffix class text.now x.0 x.1.now) }
    ensures printed { (number : Option ℕ) (rest : List ℕ) → IfSome number Fits → starts is_ascii_digit rest ≡ false
        → ((after : List ℕ) → rest ≡ word.now ++ after → ⊥) → text.now ≡ labelled word.now number ++ rest
        → MatchOption result ⊥ (λ x. (x.0 ≡ number) × (x.1.now ≡ rest)) }
{
    let Some(digits) = strip_word(text, word) else {
        return Some((None, text));
    };
    let (number, rest) = split_number(digits)?;
    Some((Some(number), rest))
}

// Pre-release, post-release and developmental release, of which the last two are in their normal spelling, and the local part.
#[inline(always)]
fn split_suffix(text: &[u8]) -> Option<(SuffixParts, &[u8])>
    ensures suffix { IfSome result (λ x. (after_pre after_post : List ℕ) × ((p : List ℕ) × IsPre p after_pre x.0.pre × (text.now ≡ p ++ after_pre))
        × ((q : List ℕ) × IsPost q after_post x.0.post × (after_pre ≡ q ++ after_post))
        × ((d : List ℕ) × IsDev d x.1.now x.0.dev × (after_post ≡ d ++ x.1.now))) }
    ensures printed { (pre : Option Prerelease) (post dev : Option ℕ) (local : List LocalSegmentValue) → IfSome pre (λ p. Fits p.number)
        → IfSome post Fits → IfSome dev Fits
        → text.now ≡ pre_text pre ++ (labelled (codes ".post") post ++ (labelled (codes ".dev") dev ++ local_text local))
        → MatchOption result ⊥ (λ x. (x.0.pre ≡ pre) × (x.0.post ≡ post) × (x.0.dev ≡ dev) × (x.1.now ≡ local_text local)) }
{
    if begins_local(text) {
        let none = SuffixParts {
            pre: None,
            post: None,
            dev: None,
        };
        return Some((none, text));
    }
    let (pre, after_pre) = split_pre(text)?;
    let (post, after_post) = split_number_after(b".post", after_pre)?;
    let (dev, rest) = split_number_after(b".dev", after_post)?;
    Some((SuffixParts { pre, post, dev }, rest))
}

// Appends the compiled form of the version that a string parses to, part by part as they are read; `false` of a string in other spellings.
#[inline(always)]
fn push_parts(bytes: &mut ArrayVec<u8, 64>, text: &[u8]) -> Result<bool, AllocError>
    requires { bytes.old.items ≡ [] }
    ensures form { IfOk result (λ done. done ≡ true → (r : Record) × Derives text.now r × DenotesVersion bytes.new.items r) }
    ensures short { (r : Record) → HasShortForm r → text.now ≡ print r → result ≡ Ok true }
{
    let Some((epoch, first, after)) = split_epoch(skip_letter(text)) else {
        return Ok(false);
    };
    bytes.append(&[VERSION])?;
    push_number(bytes, 0, epoch)?;
    let (zeros, suffix) = push_numbers(bytes, first, after)?;
    let Some((parts, local)) = split_suffix(suffix) else {
        return Ok(false);
    };
    push_suffix_of(bytes, parts.pre, parts.post, parts.dev)?;
    if !push_local(bytes, local)? {
        return Ok(false);
    }
    push_ones(bytes, zeros)?;
    Ok(true)
}

// Writes the compiled form of the version that the string of these bytes parses to, if the form has at most 64 bytes and the string is spelled as
// most are: with or without the letter `v`, a numbered pre-release in lower case in any spelling, and all else in its normal spelling. `false` of
// any other string; part of a form may then have been written.
#[inline(always)]
pub(crate) fn compile_parts(form: &mut ArrayVec<u8, 64>, text: &[u8]) -> bool
    requires { form.old.items ≡ [] }
    ensures form { result ≡ true → (r : Record) × Derives text.now r × DenotesVersion form.new.items r }
    ensures short { (r : Record) → HasShortForm r → text.now ≡ print r → result ≡ true }
{
    match push_parts(form, text) {
        Ok(is_written) => is_written,
        Err(_) => false,
    }
}
