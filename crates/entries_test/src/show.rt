// What an entry answered, in words and decimal numbers, after the name of the call.
use needs::{Address, AddressKind, Need, Output, Run};
use rules::Refusal;
use scopes::{Bound, ScopeId};
use slots::SlotAddress;
use std::io;

pub trait Show {
    fn show(self, rt: &HostRuntime) -> io::Result<()>;
}

// What was done gives nothing.
impl Show for () {
    fn show(self, rt: &HostRuntime) -> io::Result<()> {
        print!(rt; " done")
    }
}

impl Show for ScopeId {
    fn show(self, rt: &HostRuntime) -> io::Result<()> {
        print!(rt; " scope {}.{}", self.index, self.number)
    }
}

impl Show for Bound {
    fn show(self, rt: &HostRuntime) -> io::Result<()> {
        print!(rt; " bound to {}", self.address.0)
    }
}

impl Show for AddressKind {
    fn show(self, rt: &HostRuntime) -> io::Result<()> {
        match self {
            AddressKind::Local => print!(rt; " Local"),
            AddressKind::Dangling => print!(rt; " Dangling"),
            AddressKind::Assigned => print!(rt; " Assigned"),
            AddressKind::Freed => print!(rt; " Freed"),
            AddressKind::Scope(i) => print!(rt; " Scope {}.{}", i.index, i.number),
        }
    }
}

impl Show for Address {
    fn show(self, rt: &HostRuntime) -> io::Result<()> {
        print!(rt; " address {}", self.slot.0)?;
        self.kind.show(rt)
    }
}

impl Show for Run {
    fn show(self, rt: &HostRuntime) -> io::Result<()> {
        print!(rt; " run of {} from {}", self.count, self.first.0)?;
        self.kind.show(rt)
    }
}

impl Show for SlotAddress {
    fn show(self, rt: &HostRuntime) -> io::Result<()> {
        print!(rt; " slot {}", self.0)
    }
}

impl Show for Output {
    fn show(self, rt: &HostRuntime) -> io::Result<()> {
        match self {
            Output::Keep(a) => print!(rt; " keep {}", a.0),
            Output::Discard => print!(rt; " discard"),
        }
    }
}

// How many were drained.
impl Show for usize {
    fn show(self, rt: &HostRuntime) -> io::Result<()> {
        print!(rt; " {self}")
    }
}

impl<T: Show + Copy> Show for Option<T> {
    fn show(self, rt: &HostRuntime) -> io::Result<()> {
        match self {
            Some(x) => x.show(rt),
            None => print!(rt; " nothing"),
        }
    }
}

impl<T: Show + Copy> Show for Result<T, Refusal> {
    fn show(self, rt: &HostRuntime) -> io::Result<()> {
        match self {
            Ok(x) => x.show(rt),
            Err(e) => print!(rt; " refused {}", e.number()),
        }
    }
}

// The need that a call leaves.
impl Show for Need {
    fn show(self, rt: &HostRuntime) -> io::Result<()> {
        print!(rt; ", need")?;
        match self {
            Need::Defer(i) => print!(rt; " Defer {}.{}", i.index, i.number),
            Need::Address(a) => a.show(rt),
            Need::Ignore => print!(rt; " Ignore"),
            Need::Freed => print!(rt; " Freed"),
        }
    }
}
