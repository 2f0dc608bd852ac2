//! The summary of a taxonomy, and its text.
ghost use Rattle.std.specs.Prelude.{◌≡◌, ℕ, ◌<◌, ◌++◌, Bool, length, IfOk, OnOk};
ghost use Rattle.cd_meaning.specs.declared.document.Document.{Document};
ghost use Rattle.cd_taxonomy.specs.Summary.{IsTaxonomyOf, AreFew, summary_of, member_total, unsatisfiable_in, unsatisfiable_total, link_total, count_line, summary_text};

use crate::groups::{Group, Summary, Taxonomy};
use crate::printing::has_reserved;
use cd_base::Memory;
use cd_meaning::NOTHING;
use itoa::Buffer;
use std::alloc::Global;

/// How many classes, groups, unsatisfiable classes and printed `SubClassOf` lines the taxonomy of a document has.
///
/// Takes no memory. Linear in the groups and in the members of all groups.
pub fn summary(taxonomy: &Taxonomy) -> Summary
    requires { (document : Document) × (below : ℕ → ℕ → Bool)
        × IsTaxonomyOf document below taxonomy.now.groups }

    // The counts are those of the relation that the taxonomy is of.
    ensures { (document : Document) (below : ℕ → ℕ → Bool)
        → IsTaxonomyOf document below taxonomy.now.groups
        → result ≡ summary_of document.classes below }
{
    let groups = taxonomy.groups.items();
    Summary {
        names: member_total(groups),
        groups: groups.len() as u64,
        unsatisfiable: unsatisfiable_total(groups),
        links: link_total(groups),
    }
}

/// How many classes the groups have. Linear in the groups.
fn member_total(groups: &[Group]) -> u64
    requires { AreFew groups.now }
    ensures { result ≡ member_total groups.now }
{
    let mut total = 0;
    for group in groups {
        total += group.members.items().len() as u64;
    }
    total
}

/// How many classes other than owl:Nothing are in its group. Linear in the groups.
fn unsatisfiable_total(groups: &[Group]) -> u64
    requires { AreFew groups.now }
    ensures { result ≡ unsatisfiable_total groups.now }
{
    let mut total = 0;
    for group in groups {
        total += unsatisfiable_in(group);
    }
    total
}

/// The classes of a group other than owl:Nothing, and 0 where it does not stand for the group. Constant time.
fn unsatisfiable_in(group: &Group) -> u64
    requires { 0 < length group.now.members }
    ensures { result ≡ unsatisfiable_in group.now }
{
    let members = group.members.items();
    if members[0] == NOTHING {
        members.len() as u64 - 1
    } else {
        0
    }
}

/// How many direct superclasses the groups without owl:Thing and owl:Nothing have. Linear in the members of all groups.
fn link_total(groups: &[Group]) -> u64
    requires { AreFew groups.now }
    ensures { result ≡ link_total groups.now }
{
    let mut total = 0;
    for group in groups {
        if !has_reserved(group.members.items()) {
            total += group.parents.items().len() as u64;
        }
    }
    total
}

/// The text of a summary: the four lines `names a`, `groups b`, `unsatisfiable c` and `links d`, the numbers in decimal. Constant
/// time.
pub fn summary_text(alloc: Global, summary: &Summary) -> Result<Vec<u8>, Memory>
    ensures { IfOk result (λ bytes. bytes.items ≡ summary_text summary.now) }
{
    let mut text = Vec::new(alloc);
    push_count(&mut text, b"names", summary.names)?;
    push_count(&mut text, b"groups", summary.groups)?;
    push_count(&mut text, b"unsatisfiable", summary.unsatisfiable)?;
    push_count(&mut text, b"links", summary.links)?;
    Ok(text)
}

/// A line of a word and a number. Linear in the word.
fn push_count(text: &mut Vec<u8>, word: &[u8], number: u64) -> Result<(), Memory>
    ensures { OnOk result (text.new.items ≡ text.old.items ++ count_line word.now number) }
{
    let mut buffer = Buffer::new();
    text.extend_from_slice(word)?;
    text.push(b' ')?;
    text.extend_from_slice(buffer.format(number).as_bytes())?;
    text.push(b'\n')?;
    Ok(())
}
