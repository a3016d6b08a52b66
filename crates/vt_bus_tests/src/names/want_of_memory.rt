//! Tests of calls on claims and sets that are refused memory: they change nothing, and may be repeated. `make refuse-memory`
//! refuses each request in turn.
use super::*;
use std::process::Abort;

const CLAIMERS: u64 = 6;

const CLAIMS: u64 = 9;

// The address and the NAME of a claim. After all NAMEs have claimed an address, they claim another one.
fn claim(time: u64) -> (u8, Name) {
    let turn = time % 3 + time / CLAIMERS;
    let name = Name::from_raw(time % CLAIMERS * 29 % CLAIMERS);
    (0x80 + (turn % 3) as u8, name)
}

fn last_claimed(heard: u64, name: Name) -> Option<u8> {
    let claimed = (0..heard).map(claim).filter(|claimed| claimed.1 == name);
    Some(claimed.last()?.0)
}

fn least_name(heard: u64, address: u8) -> Option<Name> {
    let mut names = (0..CLAIMERS).map(Name::from_raw);
    names.find(|name| last_claimed(heard, *name) == Some(address))
}

/// Whether exactly the first `heard` claims have been received.
fn has_heard(claims: &Claims, heard: u64) -> bool {
    let mut names = (0..CLAIMERS).map(Name::from_raw);
    let mut addresses = 0x80..0x83;
    names.all(|name| claims.address_of(name) == last_claimed(heard, name))
        && addresses.all(|address| claims.holder(address) == least_name(heard, address))
}

fn hear(rt: &impl Abort, claims: &mut Claims, time: u64) {
    let (address, name) = claim(time);
    let wanted = claims.answer(address, name);
    let mut said = claims.hear(address, name);
    if said.is_err() {
        assert!(rt; has_heard(claims, time), "{time}");
        said = claims.hear(address, name);
    }
    assert!(rt; said == Ok(wanted), "{time}");
}

// Whether a set is preloaded, as every fifth is. The number of a set is its address and its NAME.
fn is_preloaded(number: u8) -> bool {
    number % 5 == 3
}

fn is_set(set: &Set, number: u8) -> bool {
    let name = Name::from_raw(number.into());
    let same = if is_preloaded(number) {
        set.name().is_none() && set.count() == 1 && set.members().is_empty()
    } else {
        set.name() == Some(name) && set.count() == 2 && set.members() == [name].as_slice()
    };
    same && set.address() == number
}

/// Whether the sets are those of the numbers from `first` to below `end`, in this order.
fn are_sets(registry: &Registry, first: u8, end: u8) -> bool {
    let mut numbers = (first..end).enumerate();
    registry.len() == usize::from(end.saturating_sub(first))
        && numbers.all(|(index, number)| registry.at(index).is_some_and(|set| is_set(set, number)))
}

fn reserve(rt: &impl Abort, registry: &mut Registry, first: u8, number: u8) {
    if registry.reserve(number).is_err() {
        assert!(rt; are_sets(registry, first, number), "{number}");
        assert_eq!(rt; registry.reserve(number), Ok(()));
    }
}

fn preload(rt: &impl Abort, registry: &mut Registry, number: u8) {
    assert!(rt; registry.get(number).is_none());
    if registry.preload(number).is_err() {
        assert!(rt; are_sets(registry, 0, number), "{number}");
        assert_eq!(rt; registry.preload(number), Ok(()));
    }
}

fn master(rt: &impl Abort, registry: &mut Registry, number: u8) {
    let name = Name::from_raw(number.into());
    if let Err(fault) = registry.master(number, Some(name), 2) {
        assert_eq!(rt; fault, RegistryFault::OutOfMemory);
        assert!(rt; are_sets(registry, 0, number), "{number}");
        assert_eq!(rt; registry.master(number, Some(name), 2), Ok(()));
    }
    // An existing set needs no memory.
    assert_eq!(rt; registry.master(number, Some(name), 2), Ok(()));
    assert_eq!(rt; registry.member(number, name), Ok(()));
}

#[test]
fn want_of_memory(rt: HostRuntime) {
    let mut claims = Claims::new(rt.alloc(), 0x81, Name::from_raw(CLAIMERS / 2));
    for time in 0..CLAIMS {
        hear(&rt, &mut claims, time);
    }
    let mut registry = Registry::new(rt.alloc());
    for number in 0..6 {
        if number % 2 == 1 {
            reserve(&rt, &mut registry, 0, number);
        }
        if is_preloaded(number) {
            preload(&rt, &mut registry, number);
        } else {
            master(&rt, &mut registry, number);
        }
    }
    // With reserved capacity no master message is refused memory, whatever set was closed before it.
    for number in 6..8 {
        let name = Name::from_raw(number.into());
        reserve(&rt, &mut registry, number - 6, number);
        assert!(rt; registry.close(number - 6));
        assert_eq!(rt; registry.master(number, Some(name), 2), Ok(()));
        assert_eq!(rt; registry.member(number, name), Ok(()));
    }
    assert!(rt; has_heard(&claims, CLAIMS));
    assert!(rt; are_sets(&registry, 2, 8));
}
