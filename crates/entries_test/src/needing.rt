// Needs: the calls over a need alone, and those with a state.
use crate::call;
use crate::show::Show;
use allocator::{addresses, any, linear};
use needs::{Address, AddressKind, Need, Run};
use scopes::Scopes;
use slots::SlotAddress;
use std::io;

fn at(a: u16, kind: AddressKind) -> Address {
    let slot = SlotAddress(a);
    Address { slot, kind }
}

// What a need answers.
fn asked(rt: &HostRuntime, need: Need) -> io::Result<()> {
    print!(rt; "output:")?;
    any::output(need).show(rt)?;
    print!(rt; "; addr:")?;
    any::addr(need).show(rt)?;
    print!(rt; "; try as addr:")?;
    any::try_as_addr(need).show(rt)?;
    println!(rt)
}

fn taken(rt: &HostRuntime, need: Need) -> io::Result<()> {
    let mut d = need;
    let answer = any::into_addr(&mut d);
    print!(rt; "into addr:")?;
    answer.show(rt)?;
    d.show(rt)?;
    println!(rt)
}

fn assigned(rt: &HostRuntime, need: Need, x: u16) -> io::Result<()> {
    let mut d = need;
    let to = any::assign_from(&mut d, SlotAddress(x));
    print!(rt; "assign:")?;
    match to {
        Some(a) => print!(rt; " copy to {}", a.0)?,
        None => print!(rt; " nothing")?,
    }
    d.show(rt)?;
    println!(rt)
}

fn records(rt: &HostRuntime) -> io::Result<()> {
    let first = SlotAddress(4);
    let kind = AddressKind::Dangling;
    let count = 3;
    print!(rt; "allocated:")?;
    addresses::allocated(at(4, kind)).show(rt)?;
    print!(rt; "; forget:")?;
    addresses::forget(at(4, kind)).show(rt)?;
    print!(rt; "; forget run:")?;
    linear::forget_run(Run { first, count, kind }).show(rt)?;
    println!(rt)
}

pub fn alone(rt: &HostRuntime) -> io::Result<()> {
    asked(rt, Need::Defer(call::id(0, 0)))?;
    asked(rt, Need::Ignore)?;
    asked(rt, Need::Freed)?;
    asked(rt, Need::Address(at(4, AddressKind::Local)))?;
    asked(rt, Need::Address(at(4, AddressKind::Dangling)))?;
    taken(rt, Need::Address(at(4, AddressKind::Local)))?;
    taken(rt, Need::Ignore)?;
    assigned(rt, Need::Defer(call::id(0, 0)), 5)?;
    assigned(rt, Need::Address(at(4, AddressKind::Local)), 5)?;
    assigned(rt, Need::Address(at(4, AddressKind::Local)), 4)?;
    assigned(rt, Need::Ignore, 5)?;
    records(rt)
}

pub fn with_state(rt: &HostRuntime, s: Scopes) -> io::Result<()> {
    let root = call::id(0, 0);
    let mut t = call::allocate(rt, s, Need::Defer(root))?;
    t = call::allocate_output(rt, t, Need::Defer(call::id(1, 1)))?;
    t = call::allocate(rt, t, Need::Address(at(0, AddressKind::Dangling)))?;
    t = call::allocate(rt, t, Need::Freed)?;
    t = call::allocate_output(rt, t, Need::Ignore)?;
    t = call::free_need(rt, t, Need::Address(at(0, AddressKind::Scope(root))))?;
    t = call::free_need(rt, t, Need::Address(at(0, AddressKind::Local)))?;
    t = call::free_need(rt, t, Need::Address(at(0, AddressKind::Assigned)))?;
    t = call::free_need(rt, t, Need::Defer(root))?;
    t = call::linear(rt, t, 4096)?;
    t = call::alloc(rt, t)?;
    t = call::free_run(rt, t, 0, 4096, AddressKind::Dangling, true)?;
    t = call::drain_four(rt, t)?;
    Ok(())
}
