//! Lists, names, references and keys: each public function once.

use fb_types::{Boxed, Items, Key, Name, Reference, compare};
use std::alloc::Global;
use std::mem::ManuallyDrop;
use std::process::Abort;

#[test]
fn a_list_keeps_its_elements_in_order(rt: HostRuntime) {
    let mut list = Items::new(rt.alloc());
    assert!(rt; list.is_empty() && list.get(0).is_none());
    list.push(7u32).expect(&rt, "memory");
    list.push(5).expect(&rt, "memory");
    assert!(rt; !list.is_empty() && list.len() == 2);
    assert!(rt; list.get(1).copied() == Some(5) && list.get(2).is_none());
    let mut all = list.into_vec();
    all.push(3).expect(&rt, "memory");
    let list = ManuallyDrop::new(Items::from_vec(all));
    let copy = Items::from_slice(list.allocator(), list.as_slice()).expect(&rt, "memory");
    let mut copy = ManuallyDrop::new(copy);
    copy.push(9).expect(&rt, "memory");
    assert!(rt; copy.as_slice() == [7, 5, 3, 9].as_slice());
    assert!(rt; list.as_slice() == [7, 5, 3].as_slice());
}

fn name(rt: &impl Abort, alloc: Global, text: &str) -> ManuallyDrop<Name> {
    ManuallyDrop::new(Name::from_text(alloc, text).expect(rt, "memory"))
}

static OTHERS: [&str; 5] = ["", "E1", "E1_B", "E1_AA", "1E_A"];

#[test]
fn a_name_is_its_bytes(rt: HostRuntime) {
    let first = name(&rt, rt.alloc(), "E1_A");
    let copy = ManuallyDrop::new(first.try_clone(rt.alloc()).expect(&rt, "memory"));
    assert!(rt; copy.as_bytes() == b"E1_A".as_slice());
    assert!(rt; first.is(&copy));
    for text in &OTHERS {
        let other = name(&rt, rt.alloc(), text);
        assert!(rt; other.as_bytes() == text.as_bytes());
        assert!(rt; !first.is(&other) && !other.is(&first));
    }
}

#[test]
fn a_reference_and_a_box_keep_what_they_are_made_of(rt: HostRuntime) {
    let named = Name::from_text(rt.alloc(), "X").expect(&rt, "memory");
    let far = ManuallyDrop::new(Reference::new(named));
    far.expect_at(1);
    far.expect_at(40);
    assert!(rt; far.index() == 40);
    assert!(rt; far.name().as_bytes() == b"X".as_slice());
    let boxed = ManuallyDrop::new(Boxed::new(rt.alloc(), 41u64).expect(&rt, "memory"));
    assert!(rt; *boxed.get() == 41);
}

/// Each key comes before those below it, by one part alone: the parts after it say the opposite.
static RISING: [Key; 6] = [
    Key {
        tick: 6,
        resource: u32::MAX,
        class: u8::MAX,
        a: u128::MAX,
        b: u128::MAX,
    },
    Key {
        tick: 7,
        resource: 3,
        class: u8::MAX,
        a: u128::MAX,
        b: u128::MAX,
    },
    Key {
        tick: 7,
        resource: 4,
        class: 1,
        a: u128::MAX,
        b: u128::MAX,
    },
    Key {
        tick: 7,
        resource: 4,
        class: 2,
        a: 8,
        b: u128::MAX,
    },
    Key {
        tick: 7,
        resource: 4,
        class: 2,
        a: 9,
        b: 0,
    },
    Key {
        tick: 7,
        resource: 4,
        class: 2,
        a: 9,
        b: 1,
    },
];

#[test]
fn keys_are_compared_part_by_part(rt: HostRuntime) {
    for (i, first) in RISING.iter().enumerate() {
        for (j, second) in RISING.iter().enumerate() {
            assert!(rt; compare(first, second) == i.cmp(&j));
        }
    }
}
