// The rules of document 01 are definitions: they stand in specs/. Of code there are the refusals, and the sizes, since the length of an
// array names no definition: each has here the name and the value that it has in specs/Sizes.antt, and where the two differ a proof breaks.

#![tactic(auto)]

pub mod refusal; // "Numbers given back"

pub use refusal::Refusal;

pub const SEGMENTS: usize = 32;

pub const SLOTS: usize = 128 * SEGMENTS;

pub const HALVES: usize = 2 * SEGMENTS;

pub const SCOPES: usize = 64;

pub const LISTS: usize = SCOPES + 1;

pub const DANGLING: usize = SCOPES;

pub const COUNTERS: u64 = 4294967296;

pub const CELLS: usize = SLOTS + LISTS;

pub const LINKS: usize = 2 * CELLS;

pub const BINDINGS: usize = 256;

pub const HANDLES: usize = 8192;

pub const WORD: u64 = 65536;

pub const NEEDS: usize = 64;

pub const LINES: usize = 2048;

pub const TEXT: usize = 57344;

pub const LONGER: usize = TEXT + 1;

pub const PAGE: usize = TEXT;
