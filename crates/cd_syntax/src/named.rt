//! What an item stands for.
ghost use Rattle.std.specs.Prelude.{◌≡◌, ◌<◌, ◌-◌, ◌^◌, length, is_some, Some, IfOk};
ghost use Rattle.cd_syntax.specs.Named.{IsClassNamed, IsRoleNamed, iri_of, is_subject, is_role};

use crate::item::Item;
use crate::known::Known;
use cd_base::Memory;
use cd_names::ExpandFault;
use std::alloc::Global;

/// Whether the item stands for an IRI. One look-up.
pub fn is_iri(known: &Known, item: &Item) -> bool
    ensures { result ≡ is_some (iri_of known.now item.now) }
{
    match item {
        Item::FullIri(_) => true,
        Item::Short(prefix, _) => known.prefixes.contains(prefix.items()),
        _ => false,
    }
}

/// Whether the item stands for an IRI, or for an anonymous individual with a name. One look-up.
pub fn is_subject(known: &Known, item: &Item) -> bool
    ensures { result ≡ is_subject known.now item.now }
{
    match item {
        Item::Node(label) => !label.items().is_empty(),
        _ => is_iri(known, item),
    }
}

/// The class that the item stands for, by its number. Two look-ups.
pub fn class_of(alloc: Global, known: &mut Known, item: &Item) -> Result<Option<u32>, Memory>
    requires { length known.old.classes < 2 ^ 32 - 1 }
    ensures { IfOk result (λ found.
        IsClassNamed (iri_of known.old item.now) known.old known.new found) }
{
    match item {
        Item::FullIri(iri) => Ok(Some(known.classes.add(iri.items())?)),
        Item::Short(prefix, local) => match known
            .prefixes
            .expand(alloc, prefix.items(), local.items())
        {
            Ok(iri) => Ok(Some(known.classes.add(iri.items())?)),
            Err(ExpandFault::Unknown) => Ok(None),
            Err(ExpandFault::Memory) => Err(Memory),
        },
        _ => Ok(None),
    }
}

/// The role that the item stands for, by its number, if it may be one. Two look-ups.
pub fn role_of(alloc: Global, known: &mut Known, item: &Item) -> Result<Option<u32>, Memory>
    requires { length known.old.roles < 2 ^ 32 - 1 }
    ensures { IfOk result (λ found.
        IsRoleNamed (iri_of known.old item.now) known.old known.new found) }
{
    match item {
        Item::FullIri(iri) => role_named(known, iri.items()),
        Item::Short(prefix, local) => match known
            .prefixes
            .expand(alloc, prefix.items(), local.items())
        {
            Ok(iri) => role_named(known, iri.items()),
            Err(ExpandFault::Unknown) => Ok(None),
            Err(ExpandFault::Memory) => Err(Memory),
        },
        _ => Ok(None),
    }
}

/// The role of this IRI, by its number, if it may be one. One look-up.
fn role_named(known: &mut Known, iri: &[u8]) -> Result<Option<u32>, Memory>
    requires { length known.old.roles < 2 ^ 32 - 1 }
    ensures { IfOk result (λ found. IsRoleNamed (Some iri.now) known.old known.new found) }
{
    if !is_role(iri) {
        return Ok(None);
    }
    Ok(Some(known.roles.add(iri)?))
}

/// Whether a role may have this IRI. Constant time.
fn is_role(iri: &[u8]) -> bool
    ensures { result ≡ is_role iri.now }
{
    iri != b"http://www.w3.org/2002/07/owl#topObjectProperty".as_slice()
        && iri != b"http://www.w3.org/2002/07/owl#bottomObjectProperty".as_slice()
}
