//! Names of groups and extras, which includes which, and which tools have tables.
ghost use Rattle.std.specs.Prelude.{◌≡◌, IfOk, ◌++◌, map, [], bytes_eq, ◌∷◌, List, ℕ, if◌then◌else◌, count_by, nat_lt, ◌&&◌};
ghost use Rattle.std.specs.HashMap.{get_by};
ghost use Rattle.std.specs.List.{filter, list_any};
ghost use Rattle.std.specs.Option.{option_map_or};
ghost use Rattle.toml.specs.View.{table_view};
ghost use Rattle.pyver_projects.specs.ProjectStrings.{inclusions_by, members_list, includes_by, includes, inclusion_of, IsInclusionIndex, inclusions_of, IsNameIndex, indexed_names, GainsNames, KeepsFound, IsFound, has_key};
ghost use Rattle.pyver_projects.specs.ProjectTables.{entry_names, group_names, has_tool, has_group_tool};

use crate::table::{inside, table, top};
use pep440_pick::normalize_name;
use std::alloc::{AllocError, Global};
use std::collections::HashMap;
use toml::Table;

/// One group includes another, or one extra. Both are names in their normal form, or keys of extras of packages.
#[derive(Drop)]
pub struct Inclusion {
    pub group: Vec<u8>,
    pub included: Vec<u8>,
}

/// The inclusion of the second group by the first.
///
/// Allocates.
pub fn new_inclusion(group: &Vec<u8>, included: &Vec<u8>) -> Result<Inclusion, AllocError>
    ensures { IfOk result (λ i. inclusion_of i ≡ record { group = group.now.items; included = included.now.items }) }
{
    Ok(Inclusion {
        group: group.clone()?,
        included: included.clone()?,
    })
}

/// Adds that the first includes each of these.
///
/// Allocates.
pub fn push_inclusions_by(
    inclusions: &mut Vec<Inclusion>,
    asker: &Vec<u8>,
    names: &[Vec<u8>],
) -> Result<(), AllocError>
    ensures { IfOk result (λ _. map inclusion_of inclusions.new.items ≡ map inclusion_of inclusions.old.items ++ inclusions_by (Some asker.now.items) (map (λ n. n.items) names.now)) }
{
    for name in names {
        inclusions.push(new_inclusion(asker, name)?)?;
    }
    Ok(())
}

// The names in the table, in their normal form.
pub(crate) fn table_names(alloc: Global, table: &Table) -> Result<Vec<Vec<u8>>, AllocError>
    ensures { IfOk result (λ names. map (λ n. n.items) names.items ≡ entry_names (members_list (table_view table.now))) }
{
    let mut names = Vec::new(alloc);
    for (name, _) in table.iter() {
        names.push(normalize_name(alloc, name.as_str())?)?;
    }
    Ok(names)
}

/// The names of the groups of the document (PEP 735), in their normal form.
///
/// Allocates.
pub fn group_names(alloc: Global, document: &Table) -> Result<Vec<Vec<u8>>, AllocError>
    ensures { IfOk result (λ names. map (λ n. n.items) names.items ≡ group_names (table_view document.now)) }
{
    match table(top(document, "dependency-groups")) {
        Some(groups) => table_names(alloc, groups),
        None => Ok(Vec::new(alloc)),
    }
}

/// Whether the document has a table of this tool.
///
/// Allocates nothing.
pub fn has_tool(name: &str, document: &Table) -> bool
    ensures { result ≡ has_tool name.now (table_view document.now) }
{
    inside(top(document, "tool"), name).is_some()
}

/// Whether the tool of the project installs its groups with its dependencies, as uv and Poetry do; by PEP 735 a group holds by itself.
///
/// Allocates nothing.
pub fn has_group_tool(document: &Table) -> bool
    ensures { result ≡ has_group_tool (table_view document.now) }
{
    has_tool("uv", document) || has_tool("poetry", document)
}

/// All inclusions, and those of each group in their order.
#[derive(Drop)]
pub struct InclusionIndex<'a> {
    pub inclusions: &'a [Inclusion],
    by_group: HashMap<&'a [u8], Vec<&'a Inclusion>>,
}

// The inclusions, or none.
fn inclusions_or_none<'a>(alloc: Global, group: Option<Vec<&'a Inclusion>>) -> Vec<&'a Inclusion>
    ensures { result.items ≡ option_map_or (λ g. g.items) group.entry [] }
{
    match group {
        Some(inclusions) => inclusions,
        None => Vec::new(alloc),
    }
}

// Adds the inclusion to those of its group.
fn push_to_group<'a>(
    alloc: Global,
    groups: &mut HashMap<&'a [u8], Vec<&'a Inclusion>>,
    inclusion: &'a Inclusion,
) -> Result<(), AllocError>
    ensures { IfOk result (λ _. (q : List ℕ) → map (λ i. inclusion_of i.now) (option_map_or (λ g. g.items) (get_by (λ k. bytes_eq q k.now) groups.new) []) ≡ map (λ i. inclusion_of i.now) (option_map_or (λ g. g.items) (get_by (λ k. bytes_eq q k.now) groups.old) []) ++ (if bytes_eq q inclusion.now.group.items then inclusion_of inclusion.now ∷ [] else [])) }
{
    let name = inclusion.group.as_slice();
    let mut group = inclusions_or_none(alloc, groups.remove(name));
    group.push(inclusion)?;
    groups.insert(name, group)?;
    Ok(())
}

impl<'a> InclusionIndex<'a> {
    /// The index of these inclusions.
    ///
    /// Allocates.
    pub fn new(alloc: Global, inclusions: &'a [Inclusion]) -> Result<InclusionIndex<'a>, AllocError>
        ensures index { IfOk result (λ index. IsInclusionIndex index) }
        ensures inclusions { IfOk result (λ index. inclusions_of index ≡ map inclusion_of inclusions.now) }
    {
        let mut by_group: HashMap<&'a [u8], Vec<&'a Inclusion>> = HashMap::new(alloc);
        for inclusion in inclusions {
            push_to_group(alloc, &mut by_group, inclusion)?;
        }
        Ok(InclusionIndex {
            inclusions,
            by_group,
        })
    }

    /// The inclusions of the group with this name, if there are any.
    ///
    /// Allocates nothing.
    pub fn of_group(&self, name: &[u8]) -> Option<&Vec<&'a Inclusion>>
        requires { IsInclusionIndex self.now }
        ensures { map (λ i. inclusion_of i.now) (option_map_or (λ g. g.now.items) result []) ≡ filter (λ i. bytes_eq name.now i.group) (inclusions_of self.now) }
    {
        self.by_group.get(name)
    }
}

/// Names, and for each whether it is repeated.
#[derive(Drop)]
pub struct NameIndex<'a> {
    names: &'a [Vec<u8>],
    repeated: HashMap<&'a [u8], bool>,
}

impl<'a> NameIndex<'a> {
    /// The index of these names.
    ///
    /// Allocates.
    pub fn new(alloc: Global, names: &'a [Vec<u8>]) -> Result<NameIndex<'a>, AllocError>
        ensures index { IfOk result (λ index. IsNameIndex index) }
        ensures names { IfOk result (λ index. indexed_names index ≡ map (λ n. n.items) names.now) }
    {
        let mut repeated: HashMap<&'a [u8], bool> = HashMap::new(alloc);
        for name in names {
            let is_known = repeated.contains_key(name.as_slice());
            repeated.insert(name.as_slice(), is_known)?;
        }
        Ok(NameIndex { names, repeated })
    }

    /// Whether the name is one of these.
    ///
    /// Allocates nothing.
    pub fn has(&self, name: &[u8]) -> bool
        requires { IsNameIndex self.now }
        ensures { result ≡ list_any (bytes_eq name.now) (indexed_names self.now) }
    {
        self.repeated.contains_key(name)
    }

    /// Whether the name is two of these, or more.
    ///
    /// Allocates nothing.
    pub fn has_twice(&self, name: &[u8]) -> bool
        requires { IsNameIndex self.now }
        ensures { result ≡ nat_lt 1 (count_by (bytes_eq name.now) (indexed_names self.now)) }
    {
        match self.repeated.get(name) {
            Some(is_repeated) => *is_repeated,
            None => false,
        }
    }
}

// Adds the name, unless it is there.
fn push_new<'a>(
    names: &mut HashMap<&'a [u8], ()>,
    found: &mut Vec<&'a [u8]>,
    name: &'a [u8],
) -> Result<(), AllocError>
    ensures names { IfOk result (λ _. GainsNames names.old names.new (λ q. bytes_eq q name.now)) }
    ensures found { IfOk result (λ _. KeepsFound names.old names.new found.old.items found.new.items) }
{
    if !names.contains_key(name) {
        names.insert(name, ())?;
        found.push(name)?;
    }
    Ok(())
}

// Adds the groups that these inclusions include.
fn push_inclusions<'a>(
    names: &mut HashMap<&'a [u8], ()>,
    found: &mut Vec<&'a [u8]>,
    inclusions: &[&'a Inclusion],
) -> Result<(), AllocError>
    ensures names { IfOk result (λ _. GainsNames names.old names.new
        (λ q. list_any (λ i. bytes_eq q i.included) (map (λ i. inclusion_of i.now) inclusions.now))) }
    ensures found { IfOk result (λ _. KeepsFound names.old names.new found.old.items found.new.items) }
{
    for inclusion in inclusions {
        push_new(names, found, inclusion.included.as_slice())?;
    }
    Ok(())
}

// Adds the groups that the group includes itself.
fn push_of_group<'a>(
    names: &mut HashMap<&'a [u8], ()>,
    found: &mut Vec<&'a [u8]>,
    index: &InclusionIndex<'a>,
    group: &[u8],
) -> Result<(), AllocError>
    requires { IsInclusionIndex index.now }
    ensures names { IfOk result (λ _. GainsNames names.old names.new
        (λ q. list_any (λ i. bytes_eq q i.included && bytes_eq group.now i.group) (inclusions_of index.now))) }
    ensures found { IfOk result (λ _. KeepsFound names.old names.new found.old.items found.new.items) }
{
    match index.of_group(group) {
        Some(inclusions) => push_inclusions(names, found, inclusions.as_slice()),
        None => Ok(()),
    }
}

// Adds the groups that these include themselves, and returns those that are new.
fn next_groups<'a>(
    alloc: Global,
    names: &mut HashMap<&'a [u8], ()>,
    index: &InclusionIndex<'a>,
    groups: &[&'a [u8]],
) -> Result<Vec<&'a [u8]>, AllocError>
    requires { IsInclusionIndex index.now }
    ensures names { IfOk result (λ _. GainsNames names.old names.new
        (λ q. list_any (includes_by (λ n. list_any (bytes_eq n) (map (λ m. m.now) groups.now)) q) (inclusions_of index.now))) }
    ensures found { IfOk result (λ found. IsFound (has_key names.old) names.new found.items) }
{
    let mut found = Vec::new(alloc);
    for group in groups {
        push_of_group(names, &mut found, index, *group)?;
    }
    Ok(found)
}

/// The names of the group and of all that it includes, itself or through others, each once.
///
/// Allocates.
pub fn included_groups<'a>(
    alloc: Global,
    index: &InclusionIndex<'a>,
    group: &'a [u8],
) -> Result<HashMap<&'a [u8], ()>, AllocError>
    requires { IsInclusionIndex index.now }
    ensures { IfOk result (λ names. (q : List ℕ) → has_key names q ≡ includes (inclusions_of index.now) group.now q) }
{
    let mut names: HashMap<&'a [u8], ()> = HashMap::new(alloc);
    let mut groups: Vec<&'a [u8]> = Vec::new(alloc);
    push_new(&mut names, &mut groups, group)?;
    for (steps, _) in index.inclusions.iter().enumerate() {
        prove!(steps < index.inclusions.len());
        if groups.is_empty() {
            return Ok(names);
        }
        groups = next_groups(alloc, &mut names, index, groups.as_slice())?;
    }
    Ok(names)
}
