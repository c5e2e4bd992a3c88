// Each entry with a state: calls it, prints one line, and hands the state on.
use crate::show::Show;
use allocator::{Outcome, addresses, any, drain, linear, scope};
use needs::{Address, AddressKind, Need, Run};
use rules::SEGMENTS;
use scopes::{ScopeId, Scopes};
use slots::SlotAddress;
use std::io;

// The state's L stands at the end of a line where it isn't what a sound state has.
fn state(rt: &HostRuntime, s: Scopes) -> io::Result<Scopes> {
    if SEGMENTS < s.segments {
        print!(rt; ", L {}", s.segments)?;
    }
    println!(rt)?;
    Ok(s)
}

pub fn outcome<T: Show + Copy>(rt: &HostRuntime, words: &str, o: Outcome<T>) -> io::Result<Scopes> {
    print!(rt; "{words}:")?;
    o.answer.show(rt)?;
    state(rt, o.state)
}

// With the need that it leaves.
pub fn with_need<T: Show + Copy>(
    rt: &HostRuntime,
    words: &str,
    o: Outcome<T>,
    need: Need,
) -> io::Result<Scopes> {
    print!(rt; "{words}:")?;
    o.answer.show(rt)?;
    need.show(rt)?;
    state(rt, o.state)
}

pub fn id(index: u8, number: u32) -> ScopeId {
    ScopeId { index, number }
}

pub fn child(rt: &HostRuntime, s: Scopes) -> io::Result<Scopes> {
    outcome(rt, "child", scope::child(s))
}

pub fn dangle(rt: &HostRuntime, s: Scopes, i: ScopeId) -> io::Result<Scopes> {
    outcome(rt, "dangle", scope::dangle(s, i))
}

pub fn restore(rt: &HostRuntime, s: Scopes, i: ScopeId) -> io::Result<Scopes> {
    outcome(rt, "restore", scope::restore(s, i))
}

pub fn pop(rt: &HostRuntime, s: Scopes, i: ScopeId) -> io::Result<Scopes> {
    outcome(rt, "pop", scope::pop(s, i))
}

pub fn pop_last(rt: &HostRuntime, s: Scopes) -> io::Result<Scopes> {
    outcome(rt, "pop last", scope::pop_last(s))
}

pub fn define(rt: &HostRuntime, s: Scopes, name: u16, a: u16) -> io::Result<Scopes> {
    outcome(rt, "define", scope::define(s, name, SlotAddress(a)))
}

pub fn take(rt: &HostRuntime, s: Scopes, name: u16) -> io::Result<Scopes> {
    outcome(rt, "take", scope::take(s, name))
}

pub fn get(rt: &HostRuntime, s: Scopes, name: u16) -> io::Result<()> {
    print!(rt; "get:")?;
    scope::get(s, name).show(rt)?;
    println!(rt)
}

pub fn numbered(rt: &HostRuntime, s: Scopes, n: u32) -> io::Result<()> {
    print!(rt; "numbered:")?;
    scope::numbered(s, n).show(rt)?;
    println!(rt)
}

pub fn alloc(rt: &HostRuntime, s: Scopes) -> io::Result<Scopes> {
    outcome(rt, "alloc", addresses::alloc(s))
}

pub fn alloc_in(rt: &HostRuntime, s: Scopes, i: ScopeId) -> io::Result<Scopes> {
    outcome(rt, "alloc in", addresses::alloc_in(s, i))
}

pub fn free(
    rt: &HostRuntime,
    s: Scopes,
    a: u16,
    kind: AddressKind,
    dangles: bool,
) -> io::Result<Scopes> {
    let slot = SlotAddress(a);
    outcome(
        rt,
        "free",
        addresses::free(s, Address { slot, kind }, dangles),
    )
}

pub fn linear(rt: &HostRuntime, s: Scopes, n: u16) -> io::Result<Scopes> {
    outcome(rt, "linear", linear::linear(s, n))
}

pub fn free_run(
    rt: &HostRuntime,
    s: Scopes,
    first: u16,
    count: u16,
    kind: AddressKind,
    dangles: bool,
) -> io::Result<Scopes> {
    let first = SlotAddress(first);
    outcome(
        rt,
        "free run",
        linear::free_run(s, Run { first, count, kind }, dangles),
    )
}

pub fn allocate(rt: &HostRuntime, s: Scopes, need: Need) -> io::Result<Scopes> {
    let mut d = need;
    let o = any::allocate(s, &mut d);
    with_need(rt, "allocate", o, d)
}

pub fn allocate_output(rt: &HostRuntime, s: Scopes, need: Need) -> io::Result<Scopes> {
    let mut d = need;
    let o = any::allocate_output(s, &mut d);
    with_need(rt, "allocate output", o, d)
}

pub fn free_need(rt: &HostRuntime, s: Scopes, need: Need) -> io::Result<Scopes> {
    let mut d = need;
    let o = any::free_need(s, &mut d);
    with_need(rt, "free need", o, d)
}

// Into lent numbers, which hold 9.
fn drained(rt: &HostRuntime, s: Scopes, out: &mut [u16]) -> io::Result<Scopes> {
    let o = drain::drain(s, out);
    print!(rt; "drain:")?;
    o.answer.show(rt)?;
    print!(rt; " in")?;
    for a in out {
        print!(rt; " {a}")?;
    }
    state(rt, o.state)
}

pub fn drain_one(rt: &HostRuntime, s: Scopes) -> io::Result<Scopes> {
    let mut out = [9u16; 1];
    drained(rt, s, &mut out)
}

pub fn drain_four(rt: &HostRuntime, s: Scopes) -> io::Result<Scopes> {
    let mut out = [9u16; 4];
    drained(rt, s, &mut out)
}
