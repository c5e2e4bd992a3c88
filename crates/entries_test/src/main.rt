// A session through every entry of crate allocator, and an unsound state handed to each: one line a call, with what it answered. The file
// `stdout` is what documents 01 and 02 say.
#![tactic(auto)]

mod call;
mod editions;
mod needing;
mod show;

use needs::{AddressKind, Need};
use scopes::Scopes;
use std::io;

// A child; a slot for it and one for root; a run.
fn placed(rt: &HostRuntime, s: Scopes) -> io::Result<Scopes> {
    let mut t = call::child(rt, s)?;
    t = call::alloc(rt, t)?;
    t = call::alloc_in(rt, t, call::id(0, 0))?;
    t = call::linear(rt, t, 3)?;
    t = call::linear(rt, t, 0)?;
    call::linear(rt, t, 4097)
}

fn named(rt: &HostRuntime, s: Scopes) -> io::Result<Scopes> {
    let mut t = call::define(rt, s, 7, 0)?;
    call::get(rt, t, 7)?;
    t = call::take(rt, t, 7)?;
    call::get(rt, t, 7)?;
    t = call::take(rt, t, 8)?;
    Ok(t)
}

// Slots 0, 3 and 2 dangle; slot 4 goes back without dangling.
fn freeing(rt: &HostRuntime, s: Scopes) -> io::Result<Scopes> {
    let mut t = call::free(rt, s, 0, AddressKind::Local, true)?;
    t = call::free(rt, t, 0, AddressKind::Freed, true)?;
    t = call::free(rt, t, 0, AddressKind::Local, true)?;
    t = call::free_run(rt, t, 2, 4, AddressKind::Dangling, false)?;
    t = call::free_run(rt, t, 2, 2, AddressKind::Dangling, true)?;
    t = call::free(rt, t, 4, AddressKind::Dangling, false)?;
    t = call::drain_one(rt, t)?;
    t = call::drain_four(rt, t)?;
    call::drain_one(rt, t)
}

// Scope 1 is dangled, restored and popped, scope 2 opened and popped.
fn opened(rt: &HostRuntime, s: Scopes) -> io::Result<Scopes> {
    let mut t = call::dangle(rt, s, call::id(1, 1))?;
    t = call::alloc(rt, t)?;
    t = call::pop(rt, t, call::id(1, 1))?;
    t = call::restore(rt, t, call::id(1, 1))?;
    t = call::restore(rt, t, call::id(0, 0))?;
    t = call::child(rt, t)?;
    t = call::pop(rt, t, call::id(1, 1))?;
    t = call::pop(rt, t, call::id(2, 2))?;
    t = call::pop(rt, t, call::id(1, 1))?;
    t = call::pop(rt, t, call::id(1, 1))?;
    call::numbered(rt, t, 0)?;
    call::numbered(rt, t, 1)?;
    Ok(t)
}

// Root is closed: no top.
fn closed(rt: &HostRuntime, s: Scopes) -> io::Result<Scopes> {
    let mut t = call::free(rt, s, 0, AddressKind::Local, true)?;
    t = call::pop_last(rt, t)?;
    t = call::pop_last(rt, t)?;
    t = call::child(rt, t)?;
    t = call::alloc(rt, t)?;
    t = call::alloc_in(rt, t, call::id(0, 0))?;
    t = call::linear(rt, t, 0)?;
    t = call::define(rt, t, 7, 0)?;
    call::get(rt, t, 7)?;
    t = call::free(rt, t, 1, AddressKind::Local, true)?;
    t = call::free(rt, t, 1, AddressKind::Scope(call::id(0, 0)), true)?;
    call::drain_four(rt, t)
}

// L is 33, which no sound state has.
fn unsound() -> Scopes {
    let mut s = scopes::fresh();
    s.segments = 33;
    s
}

fn turned_away(rt: &HostRuntime, s: Scopes) -> io::Result<Scopes> {
    let mut t = call::child(rt, s)?;
    t = call::dangle(rt, t, call::id(1, 1))?;
    t = call::restore(rt, t, call::id(1, 1))?;
    t = call::pop(rt, t, call::id(1, 1))?;
    t = call::pop_last(rt, t)?;
    call::numbered(rt, t, 0)?;
    t = call::define(rt, t, 7, 0)?;
    call::get(rt, t, 7)?;
    t = call::take(rt, t, 7)?;
    call::drain_four(rt, t)
}

fn turned_away_too(rt: &HostRuntime, s: Scopes) -> io::Result<()> {
    let mut t = call::alloc(rt, s)?;
    t = call::alloc_in(rt, t, call::id(0, 0))?;
    t = call::free(rt, t, 0, AddressKind::Freed, true)?;
    t = call::linear(rt, t, 0)?;
    t = call::free_run(rt, t, 0, 0, AddressKind::Local, true)?;
    t = call::allocate(rt, t, Need::Ignore)?;
    t = call::allocate_output(rt, t, Need::Ignore)?;
    t = call::free_need(rt, t, Need::Ignore)?;
    Ok(())
}

fn main(rt: HostRuntime) -> io::Result<()> {
    let mut s = placed(&rt, scopes::fresh())?;
    s = named(&rt, s)?;
    s = freeing(&rt, s)?;
    s = opened(&rt, s)?;
    s = closed(&rt, s)?;
    needing::alone(&rt)?;
    needing::with_state(&rt, scopes::fresh())?;
    editions::all(&rt)?;
    s = turned_away(&rt, unsound())?;
    turned_away_too(&rt, s)?;
    editions::turned_away(&rt, unsound())
}
