//! The groups of a project, and an order in which each stands before those that it includes.
ghost use Rattle.std.specs.Prelude.{◌≡◌, ◌++◌, IfOk, map, bytes_eq, nat_lt, ◌&&◌};
ghost use Rattle.std.specs.List.{list_any, list_all};
ghost use Rattle.pyver_documents.specs.DocumentViews.{string_reading_of, HasGroups, groups_of, rank_of, stands_before, IsGroupOrder};
ghost use Rattle.pyver_documents.specs.Meanings.{inclusion, inclusions, extra_inclusion, extra_inclusions, has_each_extra};
ghost use Rattle.pyver_documents.specs.Together.{sections};
ghost use Rattle.pyver_projects.specs.ProjectStrings.{includes, inclusion_of, section_of, project_string_of, IsInclusionIndex, inclusions_of};

use crate::document_reading::StringReading;
use pyver_projects::inclusions::{
    Inclusion, InclusionIndex, NameIndex, included_groups, new_inclusion, push_inclusions_by,
};
use pyver_projects::project::{ProjectString, Section};
use std::alloc::{AllocError, Global};
use std::collections::HashMap;

// The names of groups in their normal form, which includes which, and an order; and the names of extras.
#[derive(Drop)]
pub(crate) struct Groups<'a> {
    names: NameIndex<'a>,
    inclusions: InclusionIndex<'a>,
    order: GroupOrder<'a>,
    extras: NameIndex<'a>,
}

fn push_inclusion(inclusions: &mut Vec<Inclusion>, section: &Section) -> Result<(), AllocError>
    ensures { IfOk result (λ _. map inclusion_of inclusions.new.items ≡ map inclusion_of inclusions.old.items ++ inclusion (section_of section.now)) }
{
    if let Section::Include(group, included) = section {
        inclusions.push(new_inclusion(group, included)?)?;
    }
    Ok(())
}

fn push_extra_inclusion(
    inclusions: &mut Vec<Inclusion>,
    section: &Section,
) -> Result<(), AllocError>
    ensures { IfOk result (λ _. map inclusion_of inclusions.new.items ≡ map inclusion_of inclusions.old.items ++ extra_inclusion (section_of section.now)) }
{
    if let Section::OwnExtras(Some(asker), extras) = section {
        push_inclusions_by(inclusions, asker, extras.as_slice())?;
    }
    Ok(())
}

// Which extras of strings include which.
pub(crate) fn extra_inclusions(
    alloc: Global,
    strings: &[StringReading],
) -> Result<Vec<Inclusion>, AllocError>
    ensures { IfOk result (λ is. map inclusion_of is.items ≡ extra_inclusions (sections (map string_reading_of strings.now))) }
{
    let mut inclusions = Vec::new(alloc);
    for string in strings {
        push_extra_inclusion(&mut inclusions, &string.section)?;
    }
    Ok(inclusions)
}

// Which groups of the strings of a document include which.
pub(crate) fn string_inclusions(
    alloc: Global,
    strings: &[ProjectString],
) -> Result<Vec<Inclusion>, AllocError>
    ensures { IfOk result (λ is. map inclusion_of is.items ≡ inclusions (map (λ s. s.section) (map project_string_of strings.now))) }
{
    let mut inclusions = Vec::new(alloc);
    for string in strings {
        push_inclusion(&mut inclusions, &string.section)?;
    }
    Ok(inclusions)
}

// Which groups of strings include which.
pub(crate) fn inclusions(
    alloc: Global,
    strings: &[StringReading],
) -> Result<Vec<Inclusion>, AllocError>
    ensures { IfOk result (λ is. map inclusion_of is.items ≡ inclusions (sections (map string_reading_of strings.now))) }
{
    let mut inclusions = Vec::new(alloc);
    for string in strings {
        push_inclusion(&mut inclusions, &string.section)?;
    }
    Ok(inclusions)
}

impl<'a> Groups<'a> {
    // The groups with these names, which include others so, beside these extras.
    pub(crate) fn new(
        alloc: Global,
        names: &'a [Vec<u8>],
        inclusions: &'a [Inclusion],
        extras: &'a [Vec<u8>],
    ) -> Result<Groups<'a>, AllocError>
        ensures groups { IfOk result (λ all. groups_of all ≡ record { names = map (λ n. n.items) names.now; inclusions = map inclusion_of inclusions.now; extras = map (λ n. n.items) extras.now }) }
        ensures found { IfOk result HasGroups }
    {
        let names = NameIndex::new(alloc, names)?;
        let inclusions = InclusionIndex::new(alloc, inclusions)?;
        let order = GroupOrder::new(alloc, &inclusions)?;
        let extras = NameIndex::new(alloc, extras)?;
        Ok(Groups {
            names,
            inclusions,
            order,
            extras,
        })
    }

    // There is a group with this name.
    pub(crate) fn has(&self, name: &[u8]) -> bool
        requires { HasGroups self.now }
        ensures { result ≡ list_any (bytes_eq name.now) (groups_of self.now).names }
    {
        self.names.has(name)
    }

    // Each of these is an extra.
    pub(crate) fn has_each_extra(&self, extras: &[Vec<u8>]) -> bool
        requires { HasGroups self.now }
        ensures { result ≡ has_each_extra (groups_of self.now).extras (map (λ e. e.items) extras.now) }
    {
        for extra in extras {
            if !self.extras.has(extra.as_slice()) {
                return false;
            }
        }
        true
    }

    // The first group is the second, or includes it.
    pub(crate) fn includes(
        &self,
        alloc: Global,
        group: &[u8],
        name: &[u8],
    ) -> Result<bool, AllocError>
        requires { HasGroups self.now }
        ensures { IfOk result (λ b. b ≡ includes (groups_of self.now).inclusions group.now name.now) }
    {
        if self.order.has_before(name, group) {
            return Ok(false);
        }
        let names = included_groups(alloc, &self.inclusions, group)?;
        Ok(names.contains_key(name))
    }
}

// The positions of groups, and whether each stands before all that it includes.
#[derive(Drop)]
struct GroupOrder<'a> {
    places: HashMap<&'a [u8], usize>,
    is_right: bool,
}

// The rank of the name, or 0.
fn rank_of(numbers: &HashMap<&[u8], usize>, name: &[u8]) -> usize
    ensures { result ≡ rank_of numbers.now name.now }
{
    match numbers.get(name) {
        Some(number) => *number,
        None => 0,
    }
}

// Takes the inclusions of a group that is placed. Another can be placed after the last group that includes it.
fn take_inclusions<'a>(
    counts: &mut HashMap<&'a [u8], usize>,
    ready: &mut Vec<&'a [u8]>,
    group: Option<&Vec<&'a Inclusion>>,
) -> Result<(), AllocError> {
    let Some(inclusions) = group else {
        return Ok(());
    };
    for inclusion in inclusions.as_slice() {
        let name = inclusion.included.as_slice();
        let count = rank_of(counts, name);
        if count == 1 {
            ready.push(name)?;
        }
        counts.insert(name, count.saturating_sub(1))?;
    }
    Ok(())
}

// Places the groups, each after all that include it. Groups that include themselves, and what only they include, get no place. No clause
// is needed: `is_ordered` checks the positions.
fn place_groups<'a>(
    alloc: Global,
    index: &InclusionIndex<'a>,
) -> Result<HashMap<&'a [u8], usize>, AllocError>
    requires { IsInclusionIndex index.now }
{
    let mut counts: HashMap<&'a [u8], usize> = HashMap::new(alloc);
    for inclusion in index.inclusions {
        let name = inclusion.included.as_slice();
        let count = rank_of(&counts, name);
        counts.insert(name, count.saturating_add(1))?;
    }
    let mut ready: Vec<&'a [u8]> = Vec::new(alloc);
    for inclusion in index.inclusions {
        let name = inclusion.group.as_slice();
        if rank_of(&counts, name) == 0 {
            ready.push(name)?;
        }
    }
    let mut places: HashMap<&'a [u8], usize> = HashMap::new(alloc);
    for place in 0..index.inclusions.len().saturating_mul(2) {
        let Some(name) = ready.pop() else {
            return Ok(places);
        };
        if !places.contains_key(name) {
            places.insert(name, place)?;
            take_inclusions(&mut counts, &mut ready, index.of_group(name))?;
        }
    }
    Ok(places)
}

fn stands_before(places: &HashMap<&[u8], usize>, inclusion: &Inclusion) -> bool
    ensures { result ≡ stands_before (rank_of places.now) (inclusion_of inclusion.now) }
{
    let place = rank_of(places, inclusion.group.as_slice());
    place < rank_of(places, inclusion.included.as_slice())
}

fn all_before(places: &HashMap<&[u8], usize>, inclusions: &[Inclusion]) -> bool
    ensures { result ≡ list_all (λ i. stands_before (rank_of places.now) (inclusion_of i)) inclusions.now }
{
    inclusions
        .iter()
        .all(|inclusion| stands_before(places, inclusion))
}

// Each group stands before all that it includes.
#[tactic(auto, using(crate::proofs::Walks::all_viewed))]
fn is_ordered(places: &HashMap<&[u8], usize>, inclusions: &[Inclusion]) -> bool
    ensures { result ≡ list_all (stands_before (rank_of places.now)) (map inclusion_of inclusions.now) }
{
    all_before(places, inclusions)
}

impl<'a> GroupOrder<'a> {
    pub(crate) fn new(
        alloc: Global,
        index: &InclusionIndex<'a>,
    ) -> Result<GroupOrder<'a>, AllocError>
        requires { IsInclusionIndex index.now }
        ensures { IfOk result (IsGroupOrder (inclusions_of index.now)) }
    {
        let places = place_groups(alloc, index)?;
        let is_right = is_ordered(&places, index.inclusions);
        Ok(GroupOrder { places, is_right })
    }

    // The first group stands before the second, which therefore does not include it.
    pub(crate) fn has_before(&self, group: &[u8], other: &[u8]) -> bool
        ensures { result ≡ self.now.is_right && nat_lt (rank_of self.now.places group.now) (rank_of self.now.places other.now) }
    {
        self.is_right && rank_of(&self.places, group) < rank_of(&self.places, other)
    }
}
