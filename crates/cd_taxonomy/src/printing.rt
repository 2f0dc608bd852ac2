//! The text of a taxonomy.
ghost use Rattle.std.specs.Prelude.{◌≡◌, ℕ, ◌<◌, ◌++◌, Bool, length, map, filter, flat_map, All, IfOk, OnOk, slice_index, slice_index_or};
ghost use Rattle.std.specs.List.{join_with_byte, list_any};
ghost use Rattle.cd_meaning.specs.Hierarchy.{is_reserved};
ghost use Rattle.cd_base.specs.Iri.{IsIri};
ghost use Rattle.cd_meaning.specs.Reading.{SaysRelation};
ghost use Rattle.cd_meaning.specs.Text.{full_iri, line, ended, group_text, parents_text, text as relation_text};
ghost use Rattle.cd_taxonomy.specs.Groups.{groups, IsNumbered};
ghost use Rattle.cd_taxonomy.specs.Relation.{IsSubsumption};
ghost use Rattle.cd_taxonomy.specs.Lines.{head, is_proper, no_group, parent_heads, lines_text};

use crate::groups::{Group, Taxonomy};
use cd_base::{Memory, Seq};
use cd_meaning::Document;
use std::alloc::Global;

/// The text of a taxonomy, to be read by people and by any reader of ontologies: a document with a line for each group of two or
/// more, and then a line for each direct superclass of a group without owl:Thing and owl:Nothing, by their representatives.
///
/// The lines are SubClassOf and EquivalentClasses, sections 9.1.1 and 9.1.2 of the OWL 2 Structural Specification, with full IRIs.
/// Linear in the classes and in the bytes of the text.
pub fn text(alloc: Global, document: &Document, taxonomy: &Taxonomy) -> Result<Vec<u8>, Memory>
    requires { IsNumbered (length document.now.classes) taxonomy.now.groups }
    ensures lines { IfOk result (λ bytes. bytes.items
        ≡ lines_text document.now.classes taxonomy.now.groups) }

    // Of a taxonomy that has the groups of a relation, it is the text of that relation.
    ensures relation { IfOk result (λ bytes. (below : ℕ → ℕ → Bool)
        → taxonomy.now.groups ≡ groups document.now.classes below
        → bytes.items ≡ relation_text document.now.classes below) }

    // Read back, it says that relation, if the classes have full IRIs for names.
    ensures read_back { IfOk result (λ bytes. (below : ℕ → ℕ → Bool)
        → taxonomy.now.groups ≡ groups document.now.classes below
        → All IsIri document.now.classes → IsSubsumption (length document.now.classes) below
        → SaysRelation document.now.classes below bytes.items) }
{
    let names = document.classes.items();
    let groups = taxonomy.groups.items();
    let mut text = Vec::new(alloc);
    text.extend_from_slice(b"Ontology(\n")?;
    push_equivalent_lines(&mut text, names, groups)?;
    push_subclass_lines(&mut text, names, groups)?;
    text.extend_from_slice(b")\n")?;
    Ok(text)
}

/// The lines of the groups of two or more. Linear in the groups and in the bytes that it adds.
fn push_equivalent_lines(
    text: &mut Vec<u8>,
    names: &[Seq<u8>],
    groups: &[Group],
) -> Result<(), Memory>
    requires { All (λ group. All (λ c. c < length names.now) group.members) groups.now }
    ensures { OnOk result (text.new.items
        ≡ text.old.items ++ flat_map (λ group. group_text names.now group.members) groups.now) }
{
    for group in groups {
        push_group(text, names, group.members.items())?;
    }
    Ok(())
}

/// The lines of the direct superclasses. Linear in the members of all groups and in the bytes that it adds.
fn push_subclass_lines(
    text: &mut Vec<u8>,
    names: &[Seq<u8>],
    groups: &[Group],
) -> Result<(), Memory>
    requires { IsNumbered (length names.now) groups.now }
    ensures { OnOk result (text.new.items ≡ text.old.items
        ++ flat_map (λ group. parents_text names.now (head group) (parent_heads groups.now group))
        (filter is_proper groups.now)) }
{
    for group in groups {
        if !has_reserved(group.members.items()) {
            push_parents(text, names, groups, head(group), group.parents.items())?;
        }
    }
    Ok(())
}

/// Whether owl:Thing or owl:Nothing is among the classes. Linear.
pub(crate) fn has_reserved(classes: &[u32]) -> bool
    ensures { result ≡ list_any is_reserved classes.now }
{
    classes.iter().any(|class| *class < 2)
}

/// The line of a group, if it has two or more. Linear in the bytes that it adds.
fn push_group(text: &mut Vec<u8>, names: &[Seq<u8>], members: &[u32]) -> Result<(), Memory>
    requires { All (λ c. c < length names.now) members.now }
    ensures { OnOk result (text.new.items ≡ text.old.items ++ group_text names.now members.now) }
{
    if members.len() > 1 {
        push_line(text, names, b"EquivalentClasses", members)?;
    }
    Ok(())
}

/// A line for each direct superclass of `class`, whose groups are the `parents`. Linear in the bytes that it adds.
fn push_parents(
    text: &mut Vec<u8>,
    names: &[Seq<u8>],
    groups: &[Group],
    class: u32,
    parents: &[u32],
) -> Result<(), Memory>
    requires groups { IsNumbered (length names.now) groups.now }
    requires class { class < length names.now }
    requires parents { All (λ p. p < length groups.now) parents.now }
    ensures { OnOk result (text.new.items ≡ text.old.items
        ++ parents_text names.now class
        (map (λ p. head (slice_index_or groups.now p no_group)) parents.now)) }
{
    for parent in parents {
        let above = head(&groups[*parent as usize]);
        push_line(text, names, b"SubClassOf", &[class, above])?;
    }
    Ok(())
}

/// The class that stands for a group. Constant time.
fn head(group: &Group) -> u32
    requires { 0 < length group.now.members }
    ensures head { result ≡ head group.now }
    ensures first { result ≡ slice_index group.now.members 0 }
{
    group.members.items()[0]
}

/// A line of a word and classes. Linear in the bytes that it adds.
fn push_line(
    text: &mut Vec<u8>,
    names: &[Seq<u8>],
    word: &[u8],
    classes: &[u32],
) -> Result<(), Memory>
    requires { All (λ c. c < length names.now) classes.now }
    ensures { OnOk result (text.new.items
        ≡ text.old.items ++ ended (line names.now word.now classes.now)) }
{
    text.extend_from_slice(word)?;
    text.push(b'(')?;
    push_operands(text, names, classes)?;
    text.extend_from_slice(b")\n")?;
    Ok(())
}

/// Classes with a space between two. Linear in the bytes that it adds.
fn push_operands(text: &mut Vec<u8>, names: &[Seq<u8>], classes: &[u32]) -> Result<(), Memory>
    requires { All (λ c. c < length names.now) classes.now }
    ensures { OnOk result (text.new.items
        ≡ text.old.items ++ join_with_byte 32 (map (full_iri names.now) classes.now)) }
{
    for (i, class) in classes.iter().enumerate() {
        if i > 0 {
            text.push(b' ')?;
        }
        push_iri(text, names, *class)?;
    }
    Ok(())
}

/// The full IRI of a class. Linear in the bytes that it adds.
fn push_iri(text: &mut Vec<u8>, names: &[Seq<u8>], class: u32) -> Result<(), Memory>
    requires { class < length names.now }
    ensures { OnOk result (text.new.items ≡ text.old.items ++ full_iri names.now class) }
{
    text.push(b'<')?;
    text.extend_from_slice(names[class as usize].items())?;
    text.push(b'>')?;
    Ok(())
}
