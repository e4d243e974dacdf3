//! NOR flash of 65,536 octets: what its calls leave, also where power fails within one, and a flash in memory.
//!
//! What must hold of a chip: a program call gives old AND new; a cut within a call leaves each bit of its range old or new, and all else as
//! it was; what a cut left is stable; a call that returned is durable. Each call says so of every moment of it, and when it may fail.
//!
//! - `flash`: the traits [`Flash`], a chip behind a journal, and [`Bench`], one where power can be cut within a call
//! - `memory`: [`MemFlash`], a flash in memory, which is proved to be such a chip
//! - `armed`, `octets`, `past`: which of its calls is torn, writes under a mask, and what it has been through
//! - `rewriting`: two calls in a row, over any flash
//!
//! A caller to begin with: `octet` and `reads` in `crates/worked_parts/src/tests/flaws.rt`.
//!
//! # What an adapter must give
//!
//! An adapter is a type with `impl Flash`: three calls, and a meaning, `chip`, that nobody runs and that says of each of its values what
//! contracts know of the chip: the octets that are read (`now`), those that a cut at this moment may leave (`images`), or might have left
//! since an earlier one (`since`), and counts (`Chip` in `specs/Chip.antt`). Each clause is a goal of the adapter's own proof.
//!
//! It may count on what callers meet: 65,536 octets (`within`), at least one octet to program (`some`) and all of them in one sector of
//! 4,096 (`one_sector`), a sector of 0 to 15 (`sector`).
//!
//! Of an `honest` flash, which is the premise of every clause on cuts:
//!
//! 1. A program call ANDs: after Ok each octet of its range is old AND new, what is read as in every image, and no other octet changed
//!    (`ok` of `program`; `programmed`, `IsDone`). So it is durable.
//! 2. An erase sets each bit of its sector and no other (`ok` of `erase`; `erased`).
//! 3. Either call, at each moment of it and whatever it answers, leaves each bit as it was or as it was to be, in any mixture and not a
//!    front of the range alone, and all else as it was (`any_moment`; `IsTorn`, `IsCut`). So a call may be made as several of the chip's own,
//!    page by page.
//! 4. What is there is stable, also where a cut left it: a read gives it (`value`, asked of every flash) and leaves it (`stays`). After power
//!    came, what is read is the one image (`IsFresh`): that isn't this trait's, but `power_cycle` of [`Bench`] gives it, and so must what
//!    makes an adapter. Bits that read right now and wrong later are outside the model.
//! 5. What is read is one of the images (`reads_image`), and images are 65,536 octets (`content`). An image of now is one of those since each
//!    earlier moment, and since now there is no other (`counts_now`, `only_now`: of every flash).
//!
//! Of every flash, honest or not:
//!
//! 6. Any call may fail, as often as it likes; the answer is then `FlashFailed`, and the count of faults rose by one in that call (`cause`,
//!    `once`). An Ok leaves the count (`no_fault`), and it never falls (`frame`; `Keeps`). It has no top, so a word that stops at one isn't it:
//!    [`MemFlash`] has it in what contracts alone see (`past`).
//! 7. The past stays: what a cut at an earlier moment might have left, it might still have left, whatever a call does (`frame`; `Remembers`).
//! 8. Read calls are counted, and program and erase calls, whatever they answer; no call counts as another, and each count stops at ffffffff
//!    (`reads`, `uncalled`, `begins`, `counted`). Counts of their own are how many of the program and erase calls erase (`erases`, `unerased`,
//!    `counted_erases`), and how many octets the others are given (`octets`, `unprogrammed`, `counted_octets`).
//! 9. A flash that is `sure` never fails, and one that is `steady` fails only as an arm says (`sure`, `by_arm`). An adapter to a chip says that
//!    it is neither, and owes nothing for it.
//!
//! In words, on a chip whose pages are smaller than a sector, and of which 65,536 octets from `base` on are nobody else's:
//!
//! ```text
//! read(at, buf)       count the read; have the chip send buf.len() octets from base + at on
//! program(at, bytes)  count the call, and its octets; page by page: enable writing, program, wait until the chip says that it is done
//! erase(sector)       count the call, and the erase; enable writing, erase the 4,096 octets from base + 4096 * sector on, wait
//! each of them        Ok only where the chip said at the end that all went well; else a fault more, and FlashFailed
//! ```
//!
//! None to a chip is shipped. Proved are [`MemFlash`], the one of `flaw_flash`, and `FileFlash` of `file_flash`, over any place that does what it
//! answers. A store asks for a [`Flash`] alone, a life of a plan (`life` of `mesh_node`) for a [`Bench`], and one that goes on (`live_on`,
//! `live_alone`, `HeldLife`) for a [`Flash`] that is `Send` and `Drop`.
#![tactic(auto)]

mod armed;
mod flash;
mod memory;
mod octets;
mod past;
mod rewriting;

pub use flash::{Bench, FLASH_OCTETS, Flash, FlashFailed, SECTOR_OCTETS, SECTORS};
pub use memory::MemFlash;
pub use rewriting::rewrite;
