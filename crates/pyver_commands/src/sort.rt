//! The command `sort`: lines in the order of their versions.
ghost use Rattle.std.specs.Prelude.{◌≡◌, ◌-◌, ◌++◌, IfOk, codes, drop, length, map};
ghost use Rattle.std.specs.List.{flat_map};
ghost use Rattle.std.specs.Option.{option_map, option_map_or};
ghost use Rattle.pep440_rs.specs.Arrangement.{ArrangesBy};
ghost use Rattle.pyver_commands.specs.AnswerViews.{outcome_of};
ghost use Rattle.pyver_commands.specs.Sorts.{SortsParts, is_repeat, version_order, without_repeats};
ghost use Rattle.pyver_commands.specs.Sources.VersionLineViews.{input_parts_of, version_line_of, version_line_order};

use crate::answer::Answer;
use crate::sources::line_options::LineOptions;
use crate::sources::version_line::{VersionLine, VersionLines};
use pep440_rs::Version;
use std::alloc::{AllocError, Global};
use std::cmp::Ordering;

/// How lines are sorted, and which of them are printed.
#[derive(Clone, Copy)]
pub struct SortOptions {
    pub reversed: bool,
    /// One of equal ones.
    pub unique: bool,
    /// So many at the end.
    pub last: Option<u64>,
    pub lines: LineOptions,
}

fn compare(reversed: bool, a: &VersionLine<'_>, b: &VersionLine<'_>) -> Ordering
    ensures { result ≡ version_line_order reversed a.now b.now }
{
    if reversed {
        b.version.cmp(&a.version)
    } else {
        a.version.cmp(&b.version)
    }
}

// Equal ones as they stood.
fn sort_lines<'a>(
    reversed: bool,
    lines: Vec<VersionLine<'a>>,
) -> Result<Vec<VersionLine<'a>>, AllocError>
    ensures { IfOk result (λ sorted. ArrangesBy (version_line_order reversed) lines.entry.items sorted.items) }
{
    let mut sorted = lines;
    if reversed {
        sorted.sort_by(|a, b| compare(true, a, b))?;
        return Ok(sorted);
    }
    sorted.sort_by(|a, b| compare(false, a, b))?;
    Ok(sorted)
}

fn is_repeat(before: Option<&Version>, version: &Version) -> bool
    ensures { result ≡ is_repeat (option_map (λ v. v.now) before.entry) version.now }
{
    match before {
        Some(before) => *before == *version,
        None => false,
    }
}

// The lines as they were written, one of equal ones where that is asked for.
fn collect_texts<'a>(
    alloc: Global,
    unique: bool,
    lines: &[VersionLine<'a>],
) -> Result<Vec<&'a [u8]>, AllocError>
    ensures { IfOk result (λ texts. map (λ t. t.now) texts.items ≡ map (λ x. x.text)
        (without_repeats unique (map version_line_of lines.now))) }
{
    let mut texts = Vec::with_capacity(alloc, lines.len())?;
    let mut before: Option<&Version> = None;
    for line in lines {
        if !unique || !is_repeat(before, &line.version) {
            texts.push(line.text)?;
        }
        before = Some(&line.version);
    }
    Ok(texts)
}

fn take_last_texts<'t, 'a>(last: Option<u64>, texts: &'t [&'a [u8]]) -> &'t [&'a [u8]]
    ensures { result.now ≡ option_map_or (λ count. drop (length texts.now - count) texts.now) last texts.now }
{
    match last {
        Some(count) => &texts[texts.len().saturating_sub(count as usize)..],
        None => texts,
    }
}

// A line for each.
fn push_lines(output: &mut Vec<u8>, texts: &[&[u8]]) -> Result<(), AllocError>
    ensures { IfOk result (λ _. output.new.items ≡ output.old.items ++ flat_map (λ t. t.now ++ codes "\n") texts.now) }
{
    for text in texts {
        output.extend_from_slice(text)?;
        output.push(b'\n')?;
    }
    Ok(())
}

// `sort` of these lines.
pub(crate) fn sort_versions(
    alloc: Global,
    options: SortOptions,
    lines: VersionLines<'_>,
) -> Result<Answer, AllocError>
    ensures { IfOk result (λ a. SortsParts options (input_parts_of lines.entry) (outcome_of a)) }
{
    let sorted = sort_lines(options.reversed, lines.versions)?;
    let mut texts = collect_texts(alloc, options.unique, sorted.as_slice())?;
    texts.extend_from_slice(lines.invalid.as_slice())?;
    let mut output = lines.header;
    push_lines(&mut output, take_last_texts(options.last, texts.as_slice()))?;
    Ok(Answer {
        output,
        errors: lines.errors,
        status: 0,
    })
}
