//! The look-ups of the hand-made index, and a small closure of roles. Expected values are written by hand.
ghost use Rattle.std.specs.Prelude.{◌≡◌};

use crate::sample::{hand_made, triple};
use cd_base::{Atom, Role, RolePair};
use cd_index::Closure;

#[test]
fn axioms_are_found_by_left_sides(rt: HostRuntime) {
    let index = hand_made(&rt, rt.alloc());
    assert_eq!(rt; index.free(), [0].as_slice());
    assert_eq!(rt; index.with_left(Atom(2)), [2].as_slice());
    assert!(rt; index.with_left(Atom(3)).is_empty());
    assert_eq!(rt; index.filed(Atom(1)), [1].as_slice());
    drop(index);
}

#[test]
fn axioms_are_found_by_atoms(rt: HostRuntime) {
    let index = hand_made(&rt, rt.alloc());
    assert_eq!(rt; index.normal().atoms, 6);
    assert!(rt; index.below(Role(0), Role(0)));
    assert!(rt; index.gives(Atom(2)) == [triple(2, 4)].as_slice());
    assert!(rt; index.backs(Atom(4)) == [triple(4, 5)].as_slice());
    assert!(rt; index.alls(Atom(2)).is_empty());
    drop(index);
}

fn pair(lower: u32, higher: u32) -> RolePair
    ensures lower { result.lower ≡ lower }
    ensures higher { result.higher ≡ higher }
{
    RolePair {
        lower: Role(lower),
        higher: Role(higher),
    }
}

#[test]
fn two_pairs_lead_on(rt: HostRuntime) {
    let pairs = [pair(0, 1), pair(1, 2)];
    let closure = Closure::of(rt.alloc(), 3, &pairs).expect(&rt, "memory");
    let table = [
        [true, true, true],
        [false, true, true],
        [false, false, true],
    ];
    for lower in 0..3u32 {
        for higher in 0..3u32 {
            assert!(rt;
                closure.below(Role(lower), Role(higher)) == table[lower as usize][higher as usize],
                "{lower} {higher}"
            );
        }
    }
    drop(closure);
}
