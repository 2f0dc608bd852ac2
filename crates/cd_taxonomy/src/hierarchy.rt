//! The taxonomy of a document: its groups in order, each with its members and its direct superclasses.
ghost use Rattle.std.specs.Prelude.{◌≡◌, ◌<◌, length, All, IfOk};
ghost use Rattle.cd_meaning.specs.Hierarchy.{classes_in_order, representatives as relation_representatives};
ghost use Rattle.cd_taxonomy.specs.Groups.{group_at, groups, IsNumbered};
ghost use Rattle.cd_taxonomy.specs.Relation.{relation, HasClassesBelow, IsSubsumption};
ghost use Rattle.cd_taxonomy.specs.Steps.{superclass_counts, representative_list, ArePlaces};

use crate::counts::{superclass_counts, superclasses};
use crate::groups::{Group, Taxonomy};
use crate::members::members;
use crate::order::{classes_in_order, places};
use crate::parents::parents;
use crate::representatives::{representative_list, representatives};
use cd_base::{Answer, Memory, Seq};
use cd_meaning::Document;
use std::alloc::Global;

/// The taxonomy of a document's classes, from one answer a class: which classes are equivalent, and which are right above which.
///
/// The groups and direct superclasses are those of the project's own definition, in `specs/Hierarchy.antt` of `cd_meaning`. The
/// answers may list classes in any order and more than once. It sorts the classes by their names, and takes `n log n` in the sum of
/// the answers' lengths; each direct superclass of a group costs the length of its own answer besides.
pub fn taxonomy(alloc: Global, document: &Document, above: &[Answer]) -> Result<Taxonomy, Memory>
    requires answered { length above.now ≡ length document.now.classes }
    requires within { All (HasClassesBelow (length document.now.classes)) above.now }
    requires subsumption { IsSubsumption (length document.now.classes) (relation above.now) }
    ensures groups { IfOk result (λ found. found.groups
        ≡ groups document.now.classes (relation above.now)) }
    ensures numbered { IfOk result
        (λ found. IsNumbered (length document.now.classes) found.groups) }
{
    let names = document.classes.items();
    let counts = superclass_counts(alloc, above)?;
    let order = classes_in_order(alloc, names)?;
    let place_of = places(alloc, names.len(), &order)?;
    let representative_of = representative_list(alloc, document, above, &counts, &place_of)?;
    let representatives = representatives(alloc, document, above, &order, &representative_of)?;
    let number_of = places(alloc, names.len(), &representatives)?;
    let tables = Tables {
        document,
        above,
        counts: &counts,
        order: &order,
        place_of: &place_of,
        representative_of: &representative_of,
        number_of: &number_of,
    };
    let groups = groups(alloc, &tables, &representatives)?;
    Ok(Taxonomy {
        groups: Seq::of(groups),
    })
}

/// The classes, and what is worked out of them all before the groups are made.
#[derive(Clone, Copy)]
struct Tables<'a> {
    document: &'a Document,
    above: &'a [Answer],
    counts: &'a [u32],
    order: &'a [u32],
    place_of: &'a [u32],
    representative_of: &'a [u32],
    /// The number of each representative's group.
    number_of: &'a [u32],
    ghost answered: { length above.now ≡ length document.now.classes },
    ghost subsumption: { IsSubsumption (length document.now.classes) (relation above.now) },
    ghost counted: { counts.now ≡ superclass_counts above.now },
    ghost ordered: { order.now ≡ classes_in_order document.now.classes },
    ghost placed: { ArePlaces (length document.now.classes) order.now place_of.now },
    ghost represented: { representative_of.now
        ≡ representative_list document.now.classes above.now },
    ghost numbered: { ArePlaces (length document.now.classes)
        (relation_representatives document.now.classes (relation above.now)) number_of.now },
}

/// The groups of all representatives, in their order. The sum of what `group` takes for each.
fn groups(alloc: Global, tables: &Tables, representatives: &[u32]) -> Result<Vec<Group>, Memory>
    requires within { All (HasClassesBelow (length tables.now.document.now.classes))
        tables.now.above.now }
    requires classes { All (λ c. c < length tables.now.document.now.classes) representatives.now }
    requires chosen { representatives.now
        ≡ relation_representatives tables.now.document.now.classes (relation tables.now.above.now) }
    ensures { IfOk result (λ found. found.items
        ≡ groups tables.now.document.now.classes (relation tables.now.above.now)) }
{
    let mut groups = Vec::new(alloc);
    for r in representatives {
        groups.push(group(alloc, tables, *r)?)?;
    }
    Ok(groups)
}

/// The group of a representative. `n log n` in its own answer at most, and linear in the answers of its direct superclasses.
fn group(alloc: Global, tables: &Tables, r: u32) -> Result<Group, Memory>
    requires within { All (HasClassesBelow (length tables.now.document.now.classes))
        tables.now.above.now }
    requires class { r < length tables.now.document.now.classes }
    ensures { IfOk result (λ found. found
        ≡ group_at tables.now.document.now.classes (relation tables.now.above.now) r) }
{
    let Tables {
        document,
        above,
        counts,
        order,
        place_of,
        representative_of,
        number_of,
    } = *tables;
    let n = document.classes.items().len() as u32;
    let row = superclasses(alloc, n, &above[r as usize])?;
    let members = members(alloc, document, above, counts, order, place_of, &row, r)?;
    let parents = parents(
        alloc,
        document,
        above,
        counts,
        representative_of,
        number_of,
        &row,
        r,
    )?;
    Ok(Group {
        members: Seq::of(members),
        parents: Seq::of(parents),
    })
}
