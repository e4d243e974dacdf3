//! A flash in a file: each program and erase call is durable on a place that outlives the process before it answers.
//!
//! - `backing`: the place, as the trait [`Backing`]; one over a file of the system, and one in memory for tests
//! - `noted`: [`NotedPlace`], a place whose writes are made by the caller of its flash
//! - `flash`: [`FileFlash`], which is proved to be a flash over any place
//! - `saved`: what was read when the flash was made, or its writes were handed out last
//!
//! A caller to begin with: `all_taken` in `crates/worked_parts/src/tests/files.rt`.
//!
//! # What a place must give
//!
//! A place is a type with `impl Backing`: two calls, `put`, and `erase_sector`, which is `put` of 4,096 octets ff that nobody hands over; and two
//! meanings that nobody runs: `held`, the 65,536 octets that whoever comes after this process finds there, or `None` where contracts can't know;
//! and `waiting`, `None` but for a place that only notes its writes.
//!
//! It may count on a range of one octet at least that lies within one sector of the 65,536 octets (`some`, `within`, `one_sector` of `put`), and on a
//! sector below 16 (`sector` of `erase_sector`).
//!
//! 1. After Ok the octets of the range are those that were put, and no other octet changed: for whoever reads them now, and for whoever
//!    comes next, also after power failed (`ok`; `WasPut`).
//! 2. After a refusal each bit of the range is as it was or as it was to be, in any mixture, and all else is as it was (`err`; `WasTorn`).
//! 3. A place may refuse any call. A [`FileFlash`] writes nothing to it after that.
//!
//! [`StdBacking`] answers `None`, since no contract can say what a file holds, so these three are trusted of it and not proved: that a write at
//! an offset (`pwrite`) and then `fdatasync` that both answer Ok are durable, and that else each bit of that range is old or new, and all
//! else as it was, now and after power came. What is read of the file when it is opened is trusted too: a disk that gives other octets than
//! it took, or a sector that can't be read after a power cut, is outside the model.
//!
//! Of a process that dies within a call no clause speaks; what it leaves there is what a refused write may leave.
//!
//! # What the caller must see to
//!
//! - That one process at a time has the file, and that it is the same file the next time: a lock, no link, no second name.
//! - That the file has its 65,536 octets, and the folder its name, durably, before the flash is made: a file for a new node is written whole and
//!   synced before it gets its name, and then its folder is synced.
//! - That the image given to [`FileFlash::new`] is what the file holds. Behind a sync that failed, memory and disk may differ, and a later sync
//!   may answer Ok: so the file is opened anew after a refusal.
//!
//! None of it is in this crate: `node_file` does it.
#![tactic(auto)]

mod backing;
mod flash;
mod noted;
mod saved;

pub use backing::{Backing, MemBacking, Refused, StdBacking};
pub use flash::{FileFlash, NotedFlash, waiting_law};
pub use noted::{NotedPlace, Write};
