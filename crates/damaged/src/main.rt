// Damages a sound state, in one place or in few, and prints for each damage whether a state handed in so is sound or refused by 29.
// The file `stdout` is what document 01 asks for, case by case.
// Where `as` takes a number to another type, it fits, and the proof says so: `From` has no such step, and `try_from` would bring an error that can't be.
#![tactic(auto)]

use rules::{BINDINGS, CELLS, DANGLING, HALVES, SCOPES, SLOTS};
use scopes::names::{ADDRESS_PART, NAME_PART, SCOPE_PART};
use scopes::{NO_PARENT, OF_DANGLING, OF_NOBODY, Scopes};
use std::io;

// The ends of lists: root's, those of scopes 1, 2 and 9, the dangling one. Cells of `prev` are CELLS behind those of `next`.
const ROOT: usize = SLOTS;

const FIRST: usize = SLOTS + 1;

const SECOND: usize = SLOTS + 2;

const NINTH: usize = SLOTS + 9;

const LOOSE: usize = SLOTS + DANGLING;

const TO_ROOT: u16 = ROOT as u16;

const TO_SECOND: u16 = SECOND as u16;

const TO_NINTH: u16 = NINTH as u16;

const TO_LOOSE: u16 = LOOSE as u16;

const TO_NO_CELL: u16 = CELLS as u16;

fn say(rt: &HostRuntime, case: &[u8], s: Scopes) -> io::Result<()> {
    rt.write_all(case)?;
    if soundness::is_sound(s) {
        rt.write_all(b": sound\n")?;
    } else {
        rt.write_all(b": 29\n")?;
    }
    Ok(())
}

// Root was closed: nothing is live.
fn closed() -> Scopes {
    Scopes {
        halves: [0u64; HALVES],
        links: links::fresh(),
        owner: [OF_NOBODY; SLOTS],
        live: [false; SCOPES],
        dangled: [false; SCOPES],
        parent: [NO_PARENT; SCOPES],
        number: [0u32; SCOPES],
        bindings: [0u64; BINDINGS],
        count: 0,
        segments: 0,
        head: 0,
        top: SCOPES,
        counter: 1,
        size: 0,
    }
}

// Root, its child 1, the child's child 2, and a dangled child 3 of root. Root owns slot 0, scope 2 owns slots 1 and 2, slot 3 is dangling.
// Root and scope 2 bind the name 7.
fn whole() -> Scopes {
    let mut s = closed();
    s.live[0] = true;
    s.live[1] = true;
    s.live[2] = true;
    s.live[3] = true;
    s.parent[1] = 0;
    s.parent[2] = 1;
    s.parent[3] = 0;
    s.number[1] = 1;
    s.number[2] = 2;
    s.number[3] = 5;
    s.dangled[3] = true;
    s.top = 2;
    s.counter = 6;
    s.halves[0] = 7;
    s.segments = 1;
    s.size = 4;
    s.bindings[0] = 7 * NAME_PART;
    s.bindings[1] = 2 * SCOPE_PART + 7 * NAME_PART + ADDRESS_PART + 3;
    s.count = 2;
    listed(s)
}

// .. with the cells of its lists and its owners.
fn listed(s: Scopes) -> Scopes {
    let mut t = s;
    t.links[ROOT] = 0;
    t.links[0] = TO_ROOT;
    t.links[CELLS] = TO_ROOT;
    t.links[CELLS + ROOT] = 0;
    t.links[SECOND] = 1;
    t.links[1] = 2;
    t.links[2] = TO_SECOND;
    t.links[CELLS + 1] = TO_SECOND;
    t.links[CELLS + 2] = 1;
    t.links[CELLS + SECOND] = 2;
    t.links[LOOSE] = 3;
    t.links[3] = TO_LOOSE;
    t.links[CELLS + 3] = TO_LOOSE;
    t.links[CELLS + LOOSE] = 3;
    t.owner[0] = 0;
    t.owner[1] = 2;
    t.owner[2] = 2;
    t.owner[3] = OF_DANGLING;
    t
}

// The whole state, changed so.
fn changed<F: FnOnce(&mut Scopes)>(rt: &HostRuntime, case: &[u8], change: F) -> io::Result<()>
    requires { F.IsAlwaysCallable change }
{
    let mut s = whole();
    change(&mut s);
    say(rt, case, s)
}

// ---- a few places

// Slot 128 too is root's.
fn past_segment(rt: &HostRuntime, case: &[u8], segments: usize, size: usize) -> io::Result<()> {
    let mut s = whole();
    s.halves[2] = 1;
    s.owner[128] = 0;
    s.links[0] = 128;
    s.links[128] = TO_ROOT;
    s.links[CELLS + 128] = 0;
    s.links[CELLS + ROOT] = 128;
    s.segments = segments;
    s.size = size;
    say(rt, case, s)
}

// Slots 8 and 9 of scope 2 lead to each other, and no list leads to them.
fn apart(rt: &HostRuntime, case: &[u8]) -> io::Result<()> {
    let mut s = whole();
    s.halves[0] = 775;
    s.size = 10;
    s.owner[8] = 2;
    s.owner[9] = 2;
    s.links[8] = 9;
    s.links[9] = 8;
    s.links[CELLS + 8] = 9;
    s.links[CELLS + 9] = 8;
    say(rt, case, s)
}

// Slot 0 goes over from root's list to the end of scope 2's.
fn crosses(rt: &HostRuntime, case: &[u8], to: u8) -> io::Result<()> {
    let mut s = whole();
    s.owner[0] = to;
    s.links[ROOT] = TO_ROOT;
    s.links[CELLS + ROOT] = TO_ROOT;
    s.links[2] = 0;
    s.links[CELLS] = 2;
    s.links[0] = TO_SECOND;
    s.links[CELLS + SECOND] = 0;
    say(rt, case, s)
}

// Slot 0 is on root's list and on scope 2's.
fn both(rt: &HostRuntime, case: &[u8]) -> io::Result<()> {
    let mut s = whole();
    s.links[2] = 0;
    s.links[0] = TO_SECOND;
    s.links[CELLS + SECOND] = 0;
    say(rt, case, s)
}

// The dangling list holds 3, 4 and 3 again.
fn repeats(rt: &HostRuntime, case: &[u8]) -> io::Result<()> {
    let mut s = whole();
    s.links[3] = 4;
    s.links[4] = 3;
    s.links[CELLS + 4] = 3;
    s.links[CELLS + 3] = 4;
    s.owner[4] = OF_DANGLING;
    say(rt, case, s)
}

// Scope 4 is live, under this parent.
fn scope_more(rt: &HostRuntime, case: &[u8], under: u8) -> io::Result<()> {
    let mut s = whole();
    s.live[4] = true;
    s.parent[4] = under;
    say(rt, case, s)
}

fn circle(rt: &HostRuntime, case: &[u8]) -> io::Result<()> {
    let mut s = whole();
    s.live[4] = true;
    s.live[5] = true;
    s.parent[4] = 5;
    s.parent[5] = 4;
    say(rt, case, s)
}

// Scope 2 is closed, but for what it owns and what it binds.
fn half_closed() -> Scopes {
    let mut s = whole();
    s.live[2] = false;
    s.parent[2] = NO_PARENT;
    s.number[2] = 0;
    s.top = 1;
    s
}

// .. and but for what it owns.
fn owns_closed(rt: &HostRuntime, case: &[u8]) -> io::Result<()> {
    let mut s = half_closed();
    s.bindings[1] = 0;
    s.count = 1;
    say(rt, case, s)
}

fn closed_top(rt: &HostRuntime, case: &[u8], to: usize) -> io::Result<()> {
    let mut s = closed();
    s.top = to;
    say(rt, case, s)
}

// 64 scopes, each the child of the one before; the first has this parent.
fn chain(rt: &HostRuntime, case: &[u8], first: u8) -> io::Result<()> {
    let mut s = closed();
    s.live = [true; SCOPES];
    s.parent[0] = first;
    for i in 1..SCOPES {
        s.parent[i] = (i - 1) as u8;
    }
    s.top = 63;
    say(rt, case, s)
}

// ---- 01's sentence, part by part

fn slots(rt: &HostRuntime) -> io::Result<()> {
    changed(rt, b"L 32", |s| s.segments = 32)?;
    changed(rt, b"L 33", |s| s.segments = 33)?;
    changed(rt, b"L 0, slot 0 is occupied", |s| s.segments = 0)?;
    changed(rt, b"L 18446744073709551615", |s| s.segments = usize::MAX)?;
    changed(rt, b"H 31", |s| s.head = 31)?;
    changed(rt, b"H 32", |s| s.head = 32)?;
    past_segment(rt, b"slot 128 is occupied, L 2", 2, 129)?;
    past_segment(rt, b"slot 128 is occupied, L 1", 1, 129)?;
    past_segment(rt, b"slot 128 is occupied, size 128", 2, 128)?;
    changed(
        rt,
        b"slot 4 is occupied and on no list",
        |s| s.halves[0] = 23,
    )?;
    changed(
        rt,
        b"slot 4095 is occupied and on no list",
        |s| s.halves[63] = 9223372036854775808,
    )?;
    changed(rt, b"slot 2 is on a list and clear", |s| s.halves[0] = 3)?;
    changed(rt, b"slot 3 is dangling and occupied", |s| s.halves[0] = 15)
}

fn lists(rt: &HostRuntime) -> io::Result<()> {
    changed(rt, b"next of 0 is no cell", |s| s.links[0] = TO_NO_CELL)?;
    changed(rt, b"next of 0 is 65535", |s| s.links[0] = 65535)?;
    changed(
        rt,
        b"next of 0 is an end of another list",
        |s| s.links[0] = TO_SECOND,
    )?;
    changed(rt, b"next of 0 is on another list", |s| s.links[0] = 1)?;
    changed(rt, b"next of 1 passes over 2", |s| s.links[1] = TO_SECOND)?;
    changed(rt, b"next of 2 is 1 again", |s| s.links[2] = 1)?;
    changed(rt, b"next of 2 is itself", |s| s.links[2] = 2)?;
    changed(
        rt,
        b"prev of 2 is no cell",
        |s| s.links[CELLS + 2] = TO_NO_CELL,
    )?;
    changed(rt, b"prev of 2 is itself", |s| s.links[CELLS + 2] = 2)?;
    changed(
        rt,
        b"prev of 0 is an end of another list",
        |s| s.links[CELLS] = TO_SECOND,
    )
}

fn ends(rt: &HostRuntime) -> io::Result<()> {
    changed(rt, b"last of scope 2 is 1", |s| s.links[CELLS + SECOND] = 1)?;
    changed(rt, b"first of scope 2 is 2", |s| s.links[SECOND] = 2)?;
    changed(rt, b"first of scope 1 is 0", |s| s.links[FIRST] = 0)?;
    changed(
        rt,
        b"first of scope 1 is the end of scope 9",
        |s| s.links[FIRST] = TO_NINTH,
    )?;
    changed(rt, b"last of scope 9 is 9", |s| s.links[CELLS + NINTH] = 9)?;
    changed(
        rt,
        b"first of the dangling list is 0",
        |s| s.links[LOOSE] = 0,
    )?;
    changed(
        rt,
        b"slot 9 is on no list and has a next",
        |s| s.links[9] = 10,
    )?;
    changed(
        rt,
        b"slot 9 is on no list and has a prev",
        |s| s.links[CELLS + 9] = 0,
    )
}

fn crossings(rt: &HostRuntime) -> io::Result<()> {
    apart(rt, b"slots 8 and 9 lead to each other alone")?;
    crosses(rt, b"slot 0 is on scope 2's list", 2)?;
    crosses(
        rt,
        b"slot 0 is on scope 2's list, and root's by its owner",
        0,
    )?;
    both(rt, b"slot 0 is on root's list and on scope 2's")?;
    repeats(rt, b"the dangling list repeats")
}

fn owners(rt: &HostRuntime) -> io::Result<()> {
    changed(rt, b"owner of 0 is another scope", |s| s.owner[0] = 1)?;
    changed(rt, b"owner of 0 is a closed scope", |s| s.owner[0] = 9)?;
    changed(rt, b"owner of 0 is the dangling list", |s| s.owner[0] = 64)?;
    changed(rt, b"owner of 0 is none", |s| s.owner[0] = 65)?;
    changed(rt, b"owner of 0 is 255", |s| s.owner[0] = 255)?;
    changed(rt, b"owner of 3 is none", |s| s.owner[3] = 65)?;
    changed(rt, b"owner of 9 is root", |s| s.owner[9] = 0)?;
    changed(rt, b"owner of 9 is the dangling list", |s| s.owner[9] = 64)?;
    changed(rt, b"owner of 9 is 66", |s| s.owner[9] = 66)?;
    say(rt, b"scope 2 is closed, owns and binds", half_closed())?;
    owns_closed(rt, b"scope 2 is closed and owns")
}

fn parents(rt: &HostRuntime) -> io::Result<()> {
    changed(
        rt,
        b"scope 1 isn't live, scope 2 is its child",
        |s| s.live[1] = false,
    )?;
    changed(rt, b"root isn't live", |s| s.live[0] = false)?;
    changed(
        rt,
        b"scope 4 is live and has no parent",
        |s| s.live[4] = true,
    )?;
    scope_more(rt, b"scope 4 is live under root", 0)?;
    scope_more(rt, b"scope 4 is live under itself", 4)?;
    scope_more(rt, b"scope 4 is live under a closed scope", 9)?;
    scope_more(rt, b"scope 4 is live under 255", 255)?;
    circle(rt, b"scopes 4 and 5 are each other's parent")?;
    changed(rt, b"parent of 1 is 2, its child", |s| s.parent[1] = 2)?;
    changed(rt, b"root has a parent", |s| s.parent[0] = 1)?;
    changed(rt, b"root's parent is 65", |s| s.parent[0] = 65)?;
    chain(rt, b"64 scopes in one line", 64)?;
    chain(rt, b"64 scopes in a circle", 63)
}

fn records(rt: &HostRuntime) -> io::Result<()> {
    changed(rt, b"root's number is 1", |s| s.number[0] = 1)?;
    changed(rt, b"two live scopes with one number", |s| s.number[1] = 5)?;
    changed(rt, b"root is dangled", |s| s.dangled[0] = true)?;
    changed(
        rt,
        b"scope 9 is closed and dangled",
        |s| s.dangled[9] = true,
    )?;
    changed(
        rt,
        b"scope 9 is closed and has a parent",
        |s| s.parent[9] = 0,
    )?;
    changed(
        rt,
        b"scope 9 is closed and has a number",
        |s| s.number[9] = 1,
    )
}

fn tops(rt: &HostRuntime) -> io::Result<()> {
    changed(rt, b"top 1", |s| s.top = 1)?;
    changed(rt, b"top is a closed scope", |s| s.top = 9)?;
    changed(rt, b"no top, scopes are live", |s| s.top = 64)?;
    changed(rt, b"top 65", |s| s.top = 65)?;
    closed_top(rt, b"no top, nothing is live", 64)?;
    closed_top(rt, b"top 0, nothing is live", 0)?;
    closed_top(rt, b"top 65, nothing is live", 65)
}

fn names(rt: &HostRuntime) -> io::Result<()> {
    changed(
        rt,
        b"scope 3 binds 7",
        |s| s.bindings[1] = 3 * SCOPE_PART + 7 * NAME_PART,
    )?;
    changed(
        rt,
        b"root binds 7 twice",
        |s| s.bindings[1] = 7 * NAME_PART + ADDRESS_PART,
    )?;
    changed(
        rt,
        b"a closed scope binds",
        |s| s.bindings[1] = 9 * SCOPE_PART + 7 * NAME_PART,
    )?;
    changed(
        rt,
        b"scope 64 binds",
        |s| s.bindings[1] = 64 * SCOPE_PART + 7 * NAME_PART,
    )?;
    changed(
        rt,
        b"place 2 isn't empty, 2 bindings",
        |s| s.bindings[2] = 1,
    )?;
    changed(
        rt,
        b"place 255 isn't empty, 2 bindings",
        |s| s.bindings[255] = NAME_PART,
    )
}

fn counts(rt: &HostRuntime) -> io::Result<()> {
    changed(rt, b"1 binding, place 1 isn't empty", |s| s.count = 1)?;
    changed(rt, b"3 bindings, root binds 0", |s| s.count = 3)?;
    changed(rt, b"4 bindings, root binds 0 twice", |s| s.count = 4)?;
    changed(rt, b"257 bindings", |s| s.count = 257)?;
    changed(
        rt,
        b"18446744073709551615 bindings",
        |s| s.count = usize::MAX,
    )
}

fn sizes(rt: &HostRuntime) -> io::Result<()> {
    changed(rt, b"size 3, below the dangling slot 3", |s| s.size = 3)?;
    changed(rt, b"size 2, slot 2 is occupied", |s| s.size = 2)?;
    changed(rt, b"size 4096", |s| s.size = 4096)?;
    changed(rt, b"size 4097", |s| s.size = 4097)?;
    changed(rt, b"counter 4294967295", |s| s.counter = u32::MAX)
}

fn main(rt: HostRuntime) -> io::Result<()> {
    say(&rt, b"the whole state", whole())?;
    slots(&rt)?;
    lists(&rt)?;
    ends(&rt)?;
    crossings(&rt)?;
    owners(&rt)?;
    parents(&rt)?;
    records(&rt)?;
    tops(&rt)?;
    names(&rt)?;
    counts(&rt)?;
    sizes(&rt)
}
