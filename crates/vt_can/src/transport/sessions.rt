//! Sessions of a transport protocol, by address.

ghost use Rattle.std.specs.Prelude.{◌≡◌, ℕ, ◌≤◌, true, false, None, Some, length, get_or, IfSome, IfNone, IfOk, OnOk, OnErr, IsOk};
ghost use Rattle.std.specs.FinMap as finite;
ghost use Rattle.std.specs.Option.{option_copied};
ghost use Rattle.vt_can.specs.transport.FirstTimes.{IsFirstTime};
ghost use Rattle.vt_can.specs.transport.Sessions.{is_overdue, SomeOverdue, AreOfAddresses, IsFirstOverdue, Expires, NoneExpires};

use crate::transport::first_time::earlier;
use std::alloc::{AllocError, Global};
use std::marker::Model;

/// A session, and the time of its last frame in microseconds.
#[derive(Drop)]
pub struct Timed<T> {
    pub last: u64,
    pub session: T,
}

/// The number of addresses.
const ADDRESSES: usize = 256;

/// The sessions of a transport protocol, at most one for each of the 256 addresses. Contracts see them as a finite map from
/// addresses, whether the table is allocated, and the protocol's timeout.
///
/// Only `allocate` allocates. A session is found by its index, without a search.
pub struct Sessions<T> {
    // A place for each address, or none before `allocate`.
    places: Vec<Option<Timed<T>>>,
    // The longest time that a session stays open without one of its frames, in microseconds.
    timeout: u64,
    // A lower bound of the times of last frames. Most calls of `expire` read nothing else.
    earliest: u64,
}

// Written out, not derived: the drop of 256 entries is proved once here, and not in each crate that drops a value with
// sessions in it.
impl<T: Drop> Drop for Sessions<T> {
    fn drop(self) {
        let Sessions {
            places: _places,
            timeout: _timeout,
            earliest: _earliest,
        } = self;
    }
}

impl<T> Model for Sessions<T> {
    ghost use Rattle.vt_can.specs.transport.Sessions.{SessionTable, table_code, table_of_places, ArePlaces};

    ghost Value = { SessionTable T };

    ghost coded = { table_code T.code };

    ghost view = { λ a. table_of_places a.timeout a.places.items };

    ghost invariant = { λ a. ArePlaces a.places.items a.earliest };
}

impl<T> Timed<T> {
    // Whether more than the timeout has passed since the last frame.
    fn is_overdue(&self, timeout: u64, now: u64) -> bool
        ensures { result ≡ is_overdue timeout now (Some self.now) }
    {
        now.saturating_sub(self.last) > timeout
    }

    // The first time at which the session is overdue, or `None` if no time of 64 bits is late enough.
    fn overdue_from(&self, timeout: u64) -> Option<u64>
        ensures { IsFirstTime (λ now. is_overdue timeout now (Some self.now) ≡ true) result }
    {
        self.last.checked_add(timeout)?.checked_add(1)
    }
}

impl<T> Sessions<T> {
    /// Creates a map without sessions, for a protocol with this timeout in microseconds. Does not allocate.
    pub fn new(alloc: Global, timeout: u64) -> Sessions<T>
        ensures { result ≡ record { sessions = finite.empty; allocated = false; timeout = timeout } }
    {
        Sessions {
            places: Vec::new(alloc),
            timeout,
            earliest: u64::MAX,
        }
    }

    /// Allocates the table that `put` needs. Does nothing if it is allocated already. After an error nothing is
    /// changed.
    pub fn allocate(&mut self) -> Result<(), AllocError>
    where
        T: Drop,
        ensures ok { OnOk result (self.new ≡ record self.old { allocated = true }) }
        ensures err { OnErr result (self.new ≡ self.old) }
        ensures free { self.old.allocated ≡ true → IsOk result }
    {
        if self.places.is_empty() {
            self.places = empty_places(*self.places.allocator())?;
        }
        Ok(())
    }

    /// Returns the session of an address, if there is one.
    pub fn get(&self, address: u8) -> Option<&Timed<T>>
        ensures { option_copied result ≡ finite.get self.now.sessions address }
    {
        if self.places.is_empty() {
            return None;
        }
        self.places[usize::from(address)].as_ref()
    }

    /// Whether the session of an address is overdue: the last of its frames is longer ago than the timeout. A `now` before
    /// that frame counts as no time passed. False if there is no session. docs/PROFILE.md, "Timeouts".
    pub fn is_overdue(&self, address: u8, now: u64) -> bool
        ensures { result ≡ is_overdue self.now.timeout now (finite.get self.now.sessions address) }
    {
        match self.get(address) {
            Some(timed) => timed.is_overdue(self.timeout, now),
            None => false,
        }
    }

    /// Returns the session of an address and removes it.
    pub fn take(&mut self, address: u8) -> Option<Timed<T>>
        ensures found { result ≡ finite.get self.old.sessions address }
        ensures left { self.new ≡ record self.old { sessions = finite.remove self.old.sessions address } }
        // A session has a place in the table.
        ensures allocated { IfSome result (λ _. self.old.allocated ≡ true) }
    {
        if self.places.is_empty() {
            return None;
        }
        self.places[usize::from(address)].take()
    }

    /// Opens a session for an address, with its last frame at `last`. It replaces an open session of the address. The
    /// table must be allocated (`allocate`).
    pub fn put(&mut self, address: u8, last: u64, session: T)
    where
        T: Drop,
        requires { self.old.allocated ≡ true }
        ensures { self.new ≡ record self.old { sessions = finite.insert self.old.sessions address (record { last = last; session = session }) } }
    {
        self.earliest = self.earliest.min(last);
        self.places[usize::from(address)] = Some(Timed { last, session });
    }

    /// Ends the session of an address, if there is one.
    pub fn remove(&mut self, address: u8)
    where
        T: Drop,
        ensures { self.new ≡ record self.old { sessions = finite.remove self.old.sessions address } }
    {
        if self.places.is_empty() {
            return;
        }
        self.places[usize::from(address)] = None;
    }

    /// Removes and returns the overdue session of the least address (`is_overdue`).
    pub fn expire(&mut self, now: u64) -> Option<(u8, T)>
        ensures some { IfSome result (λ expired. Expires self.old.timeout self.old.sessions self.new.sessions now expired.0 expired.1) }
        ensures none { IfNone result (NoneExpires self.old.timeout self.old.sessions self.new.sessions now) }
        ensures addresses { AreOfAddresses self.old.sessions }
        ensures allocated { self.new.allocated ≡ self.old.allocated }
        ensures timeout { self.new.timeout ≡ self.old.timeout }
    {
        if now.saturating_sub(self.earliest) <= self.timeout {
            return None;
        }
        let address = self.first_overdue(now)?;
        let timed = self.take(address)?;
        Some((address, timed.session))
    }

    /// The first time at which a session is overdue, or `None` if none ever is. Reads each place of the table.
    /// docs/PROFILE.md, "Timeouts".
    pub fn overdue_from(&self) -> Option<u64>
        ensures { IsFirstTime (SomeOverdue self.now.timeout self.now.sessions) result }
    {
        let timeout = self.timeout;
        let mut first = None;
        for place in &self.places {
            first = earlier(first, overdue_from(place, timeout));
        }
        first
    }

    // Returns the least address with an overdue session. If there is none, `earliest` is exact afterwards.
    fn first_overdue(&mut self, now: u64) -> Option<u8>
        ensures same { self.new ≡ self.old }
        ensures some { IfSome result (λ address. IsFirstOverdue self.old.timeout self.old.sessions now address) }
        ensures none { IfNone result ((q : ℕ) → is_overdue self.old.timeout now (finite.get self.old.sessions q) ≡ false) }
    {
        let timeout = self.timeout;
        let mut earliest = u64::MAX;
        for (address, place) in self.places.iter().enumerate() {
            if overdue(place, timeout, now) {
                return Some(address as u8);
            }
            if let Some(timed) = place {
                earliest = earliest.min(timed.last);
            }
        }
        self.earliest = earliest;
        None
    }
}

// A place for each address, without sessions.
fn empty_places<T: Drop>(alloc: Global) -> Result<Vec<Option<Timed<T>>>, AllocError>
    ensures all { IfOk result (λ places. length places.items ≡ 256) }
    ensures empty { IfOk result (λ places. (q : ℕ) → get_or places.items q None ≡ None) }
{
    let mut places = Vec::with_capacity(alloc, ADDRESSES)?;
    for _address in 0..ADDRESSES {
        places.push(None)?;
    }
    Ok(places)
}

// The first time at which the session at a place is overdue.
fn overdue_from<T>(place: &Option<Timed<T>>, timeout: u64) -> Option<u64>
    ensures { IsFirstTime (λ now. is_overdue timeout now place.now ≡ true) result }
{
    match place {
        Some(timed) => timed.overdue_from(timeout),
        None => None,
    }
}

fn overdue<T>(place: &Option<Timed<T>>, timeout: u64, now: u64) -> bool
    ensures { result ≡ is_overdue timeout now place.now }
{
    match place {
        Some(timed) => timed.is_overdue(timeout, now),
        None => false,
    }
}
