//! The contexts of groups, and their halves.
ghost use Rattle.std.specs.Prelude.{◌≡◌, ◌<◌, ◌++◌, length, IfOk, OnOk};
ghost use Rattle.cd_base.specs.Keys.{key_with, negated};
ghost use Rattle.cd_saturation.specs.Groups.{halves, key_of, open_of, starts_of};

use crate::group::Group;
use crate::saturation::start_message;
use cd_base::{Atom, Key, Lit, Memory, Seq};
use cd_context::Note;
use std::alloc::Global;

/// The key of what is in the class of the group and in none of its names. For n names n walks over as many at most.
pub(crate) fn key_of(alloc: Global, group: &Group) -> Result<Key, Memory>
    ensures { IfOk result (λ key. key ≡ key_of group.now.class group.now.names) }
{
    let mut key = Key::single(alloc, Atom(group.class));
    let mut rest = group.names.items();
    'names: while let [name, others @ ..] = rest {
        key = with_negated(key, *name)?;
        rest = others;
    }
    Ok(key)
}

/// The key with the name too, negated. Linear in its literals.
fn with_negated(key: Key, name: Atom) -> Result<Key, Memory>
    ensures { IfOk result (λ more. more ≡ key_with (negated name) key) }
{
    let more = key.with(Lit {
        atom: name,
        negated: true,
    });
    drop(key);
    more
}

/// Appends the messages that begin the contexts of the groups. Linear in the groups, beside their keys.
pub(crate) fn list_starts(
    alloc: Global,
    groups: &[Group],
    count: u32,
    start: &mut Vec<(u32, Note)>,
) -> Result<(), Memory>
    requires { 0 < count }
    ensures { OnOk result (start.new.items ≡ start.old.items ++ starts_of count groups.now) }
{
    let mut rest = groups;
    'groups: while let [group, others @ ..] = rest {
        start.push(start_message(key_of(alloc, group)?, count))?;
        rest = others;
    }
    Ok(())
}

/// Appends the groups of both halves of the names. Linear in the names.
pub(crate) fn push_halves(
    alloc: Global,
    class: u32,
    names: &[Atom],
    groups: &mut Vec<Group>,
) -> Result<(), Memory>
    ensures { OnOk result (groups.new.items ≡ groups.old.items ++ halves class names.now) }
{
    let (front, back) = names.split_at(names.len() / 2);
    groups.push(group(alloc, class, front)?)?;
    groups.push(group(alloc, class, back)?)?;
    Ok(())
}

/// The group of the class and these names. Linear in the names.
fn group(alloc: Global, class: u32, names: &[Atom]) -> Result<Group, Memory>
    ensures { IfOk result (λ group. group ≡ record { class = class; names = names.now }) }
{
    let names = Seq::of(names.to_vec(alloc)?);
    Ok(Group { class, names })
}

/// Appends the group of the class and the names, if there are any. Constant time.
pub(crate) fn push_open(class: u32, names: Seq<Atom>, groups: &mut Vec<Group>) -> Result<(), Memory>
    ensures { OnOk result (groups.new.items ≡ groups.old.items ++ open_of class names) }
{
    if names.items().is_empty() {
        return Ok(());
    }
    groups.push(Group { class, names })?;
    Ok(())
}
