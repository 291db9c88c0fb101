//! A sorted map in pages of at most 64 keys: each call over more keys than a page takes. A test is a
//! table of what is done with a map: no function that owns one asserts.
ghost use Rattle.std.specs.Prelude.{◌≡◌, ⊤, true};

use bytes::Bytes;
use key_pages::{Cut, Growth, KeyPages, Walk, order};
use std::alloc::{AllocError, Global};
use std::cmp::Ordering;

/// How many keys are put in, in an order that begins and ends within.
const KEYS: u32 = 1_000;

/// The key of a number, of eleven bytes: its last ones stand behind the first eight.
fn key(alloc: Global, number: u32) -> Result<Bytes, AllocError> {
    let mut text = Vec::new(alloc);
    text.extend_from_slice(b"number ")?;
    text.extend_from_slice(number.to_be_bytes().as_slice())?;
    match Bytes::from_vec(text) {
        Ok(key) => Ok(key),
        Err(_) => Err(AllocError),
    }
}

/// A value that a key gets in place of what it has.
#[derive(Drop)]
struct Given {
    value: u32,
}

impl Growth<u32> for Given {
    ghost may_grow = { λ g v. ⊤ };

    ghost grown = { λ g v. g.value };

    ghost fresh = { λ g. g.value };

    fn first(&self) -> u32 {
        self.value
    }

    fn grow(&self, value: &mut u32) -> Result<(), AllocError> {
        *value = self.value;
        Ok(())
    }
}

/// A value that goes, with its key.
#[derive(Drop)]
struct Gone {
    value: u32,
}

impl Cut<u32> for Gone {
    ghost left = { λ g v. v };

    ghost is_spent = { λ g v. true };

    ghost told = { λ g v. record g { value = v } };

    fn cut(&mut self, value: &mut u32) -> bool {
        self.value = *value;
        true
    }
}

/// Puts the key of a number in with a value. Tells whether there was memory.
fn put(map: &mut KeyPages<u32>, alloc: Global, number: u32, value: u32) -> bool {
    let Ok(key) = key(alloc, number) else {
        return false;
    };
    let done = map.put(&key, &Given { value }).is_ok();
    drop(key);
    done
}

/// The value of the key of a number.
fn get(map: &KeyPages<u32>, alloc: Global, number: u32) -> Option<u32> {
    let Ok(key) = key(alloc, number) else {
        return None;
    };
    let value = map.get(&key).copied();
    drop(key);
    value
}

/// Takes the key of a number out, and gives its value, or 7 where it is not there.
fn take(map: &mut KeyPages<u32>, alloc: Global, number: u32) -> u32 {
    let mut gone = Gone { value: 7 };
    if let Ok(key) = key(alloc, number) {
        map.cut(&key, &mut gone);
        drop(key);
    }
    gone.value
}

/// How many of the numbers from one on, a step apart, a walk gives in order, and then no other.
fn in_order(walk: &mut Walk<'_, u32>, first: u32, step: u32) -> Option<u32> {
    let mut expected = first;
    for count in 0..KEYS {
        match walk.next() {
            Some((_, value)) if *value == expected => {
                expected = expected.saturating_add(step);
            }
            Some(_) => return None,
            None => return Some(count),
        }
    }
    match walk.next() {
        Some(_) => None,
        None => Some(KEYS),
    }
}

fn all_in_order(map: &KeyPages<u32>, first: u32, step: u32) -> Option<u32> {
    let mut walk = map.all();
    let count = in_order(&mut walk, first, step);
    drop(walk);
    count
}

fn from_in_order(map: &KeyPages<u32>, alloc: Global, first: u32) -> Option<u32> {
    let Ok(key) = key(alloc, first) else {
        return None;
    };
    let mut walk = map.from(&key);
    let count = in_order(&mut walk, first, 1);
    drop(walk);
    drop(key);
    count
}

/// How many keys stand from the one of a number on and below another.
fn between(map: &KeyPages<u32>, alloc: Global, first: u32, end: u32) -> Option<u32> {
    let Ok(from) = key(alloc, first) else {
        return None;
    };
    let Ok(to) = key(alloc, end) else {
        drop(from);
        return None;
    };
    let mut walk = map.from(&from);
    let mut count = 0u32;
    for _ in 0..KEYS {
        if walk.next_below(&to).is_none() {
            break;
        }
        count = count.saturating_add(1);
    }
    drop(walk);
    drop(from);
    drop(to);
    Some(count)
}

/// A map of the numbers below a thousand, put in in steps of one that has no divisor in common.
fn filled(alloc: Global, step: u32) -> KeyPages<u32> {
    let mut map = KeyPages::new(alloc);
    let mut number = 0u32;
    for _ in 0..KEYS {
        let _ = put(&mut map, alloc, number, number);
        number = number.saturating_add(step) % KEYS;
    }
    map
}

fn walks_in_order(alloc: Global, step: u32) -> bool {
    let mut map = filled(alloc, step);
    let right = all_in_order(&map, 0, 1) == Some(1_000)
        && from_in_order(&map, alloc, 500) == Some(500)
        && between(&map, alloc, 64, 192) == Some(128)
        && between(&map, alloc, 192, 64) == Some(0);
    drop(map);
    right
}

#[test]
fn keeps_keys_that_ascend_in_order(rt: HostRuntime) {
    assert!(rt; walks_in_order(rt.alloc(), 1));
}

#[test]
fn keeps_keys_that_descend_in_order(rt: HostRuntime) {
    assert!(rt; walks_in_order(rt.alloc(), 999));
}

#[test]
fn keeps_keys_among_others_in_order(rt: HostRuntime) {
    assert!(rt; walks_in_order(rt.alloc(), 389));
}

/// Each key of full pages gets another value: none of them is split, and none goes.
fn changes_values(alloc: Global) -> bool {
    let mut map = filled(alloc, 1);
    let mut done = true;
    for number in 0..KEYS {
        done = put(&mut map, alloc, number, number.saturating_add(1)) && done;
    }
    let right = done
        && all_in_order(&map, 1, 1) == Some(1_000)
        && get(&map, alloc, 63) == Some(64)
        && get(&map, alloc, 1_000).is_none();
    drop(map);
    right
}

#[test]
fn changes_each_value(rt: HostRuntime) {
    assert!(rt; changes_values(rt.alloc()));
}

fn takes_out(alloc: Global) -> bool {
    let mut map = filled(alloc, 389);
    let mut right = true;
    let mut number = 0u32;
    for _ in 0..500 {
        right = take(&mut map, alloc, number) == number && right;
        number = number.saturating_add(2);
    }
    let odd = take(&mut map, alloc, 1_000) == 7
        && all_in_order(&map, 1, 2) == Some(500)
        && get(&map, alloc, 2).is_none();
    number = 1;
    for _ in 0..500 {
        right = take(&mut map, alloc, number) == number && right;
        number = number.saturating_add(2);
    }
    let none = all_in_order(&map, 0, 1) == Some(0);
    let again = put(&mut map, alloc, 3, 3) && get(&map, alloc, 3) == Some(3);
    drop(map);
    right && odd && none && again
}

#[test]
fn takes_keys_out_and_their_pages(rt: HostRuntime) {
    assert!(rt; takes_out(rt.alloc()));
}

#[test]
fn compares_by_words(rt: HostRuntime) {
    assert!(rt; order(b"12345678", b"12345678") == Ordering::Equal);
    assert!(rt; order(b"1234567", b"12345678") == Ordering::Less);
    assert!(rt; order(b"123456789", b"12345678") == Ordering::Greater);
    assert!(rt; order(b"\xff2345678", b"\x002345679") == Ordering::Greater);
    assert!(rt; order(b"12345678\xff", b"12345679\x00") == Ordering::Less);
    assert!(rt; order(b"12345678abcdefgh1", b"12345678abcdefgh2") == Ordering::Less);
}
