// The entries in which the place is a value: by the head (edition 1), the lowest clear slot of all (edition 2), or exactly at an address.
use crate::call;
use allocator::{addresses, any, linear};
use needs::{AddressKind, Need};
use scopes::{ScopeId, Scopes};
use slots::{Place, SlotAddress};
use std::io;

// The name of a call, with the place.
fn called(rt: &HostRuntime, words: &str, place: Place) -> io::Result<()> {
    match place {
        Place::ByHead => print!(rt; "{words}, by head"),
        Place::Lowest => print!(rt; "{words}, lowest"),
        Place::ExactlyAt(_) => print!(rt; "{words}, exactly"),
    }
}

fn alloc(rt: &HostRuntime, s: Scopes, place: Place) -> io::Result<Scopes> {
    called(rt, "alloc", place)?;
    call::outcome(rt, "", addresses::alloc_by(s, place))
}

fn alloc_in(rt: &HostRuntime, s: Scopes, i: ScopeId, place: Place) -> io::Result<Scopes> {
    called(rt, "alloc in", place)?;
    call::outcome(rt, "", addresses::alloc_in_by(s, i, place))
}

fn linear(rt: &HostRuntime, s: Scopes, n: u16, place: Place) -> io::Result<Scopes> {
    called(rt, "linear", place)?;
    call::outcome(rt, "", linear::linear_by(s, n, place))
}

fn allocate(rt: &HostRuntime, s: Scopes, need: Need, place: Place) -> io::Result<Scopes> {
    let mut d = need;
    let o = any::allocate_by(s, &mut d, place);
    called(rt, "allocate", place)?;
    call::with_need(rt, "", o, d)
}

fn allocate_output(rt: &HostRuntime, s: Scopes, need: Need, place: Place) -> io::Result<Scopes> {
    let mut d = need;
    let o = any::allocate_output_by(s, &mut d, place);
    called(rt, "allocate output", place)?;
    call::with_need(rt, "", o, d)
}

// Of slots 0 to 199 three are clear: 0, 1 and 130, which went back last. So L is 2 and H is 1.
fn gaps(rt: &HostRuntime) -> io::Result<Scopes> {
    let mut t = call::linear(rt, scopes::fresh(), 200)?;
    t = call::free_run(rt, t, 0, 2, AddressKind::Dangling, false)?;
    call::free(rt, t, 130, AddressKind::Dangling, false)
}

// Each entry, from the same state.
fn each(rt: &HostRuntime, s: Scopes, place: Place) -> io::Result<()> {
    let root = call::id(0, 0);
    let mut t = alloc(rt, s, place)?;
    t = alloc_in(rt, s, root, place)?;
    t = linear(rt, s, 1, place)?;
    t = linear(rt, s, 2, place)?;
    t = allocate(rt, s, Need::Defer(root), place)?;
    t = allocate_output(rt, s, Need::Defer(root), place)?;
    Ok(())
}

// H becomes the segment of the lowest clear slot: the next one by the head is in it too.
fn by_turns(rt: &HostRuntime, s: Scopes) -> io::Result<()> {
    let mut t = alloc(rt, s, Place::Lowest)?;
    t = alloc(rt, t, Place::ByHead)?;
    t = alloc(rt, t, Place::Lowest)?;
    Ok(())
}

// Slots 0 and 4,095 are clear. Past slot 0 the head finds none; the lowest clear slot is missing only where all are held.
fn full(rt: &HostRuntime) -> io::Result<()> {
    let mut t = call::linear(rt, scopes::fresh(), 4096)?;
    t = call::free(rt, t, 0, AddressKind::Dangling, false)?;
    t = call::free(rt, t, 4095, AddressKind::Dangling, false)?;
    t = alloc(rt, t, Place::ByHead)?;
    t = alloc(rt, t, Place::ByHead)?;
    t = alloc(rt, t, Place::Lowest)?;
    t = alloc(rt, t, Place::Lowest)?;
    t = alloc_in(rt, t, call::id(1, 1), Place::Lowest)?;
    Ok(())
}

// Slot 2 is held, and so is 131, the second of a run from 130 on; there is no slot 4,096.
fn no_room(rt: &HostRuntime, s: Scopes) -> io::Result<()> {
    let mut t = alloc(rt, s, Place::ExactlyAt(SlotAddress(2)))?;
    t = linear(rt, s, 2, Place::ExactlyAt(SlotAddress(130)))?;
    t = alloc(rt, s, Place::ExactlyAt(SlotAddress(4096)))?;
    Ok(())
}

pub fn all(rt: &HostRuntime) -> io::Result<()> {
    let s = gaps(rt)?;
    each(rt, s, Place::ByHead)?;
    each(rt, s, Place::Lowest)?;
    each(rt, s, Place::ExactlyAt(SlotAddress(0)))?;
    by_turns(rt, s)?;
    no_room(rt, s)?;
    full(rt)
}

// An unsound state, to each.
pub fn turned_away(rt: &HostRuntime, s: Scopes) -> io::Result<()> {
    let mut t = alloc(rt, s, Place::Lowest)?;
    t = alloc_in(rt, t, call::id(0, 0), Place::Lowest)?;
    t = linear(rt, t, 0, Place::Lowest)?;
    t = allocate(rt, t, Need::Ignore, Place::Lowest)?;
    t = allocate_output(rt, t, Need::Ignore, Place::ByHead)?;
    Ok(())
}
