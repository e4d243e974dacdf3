//! The law of the writes that a node behind a pointer (`node_handle`) hands out: made in their order on the image that was opened, they give what the
//! node's flash reads, a front of them leaves what a power cut might have left of it, and they are few. There is no code here: the law is the contract of a function that does nothing.
//!
//! In `specs/`, `Calls` says what calls of a node are, one after another, and has the law.
#![tactic(auto)]

ghost use Rattle.handle_laws.specs.Calls.{WritesAreFew, WritesAreLean, WritesAreOnChip, WritesMakeImage, WritesMayBeCut};

use file_flash::{Backing, NotedFlash, NotedPlace};
use flash_model::Flash;

/// The law of the writes. Take any calls of a node that was opened over an image, whatever came between them that was refused. The writes that were handed
/// out so far, made one after another on that image, and then those that are left, give what the flash of the node's life reads; so once none is
/// left, those that were handed out give it alone (`made`). Each gives its octets on a chip too, where a program call clears bits alone (`on_chip`). Each
/// front of them on that image, with its last write torn or whole, is content that a power cut might have left of the node's flash
/// (`fronts`). They are at most so many as program and erase calls were counted of that flash, as long as that count isn't
/// ffffffff (`few`); and those that are no erase have at most so many octets as program calls of it were given, with the same proviso (`lean`).
pub fn writes_law()
    ensures made { WritesMakeImage ⟦<NotedFlash as Flash>⟧.chip (λ f. ⟦<NotedPlace as Backing>⟧.waiting f.backing) }
    ensures on_chip { WritesAreOnChip ⟦<NotedFlash as Flash>⟧.chip (λ f. ⟦<NotedPlace as Backing>⟧.waiting f.backing) }
    ensures fronts { WritesMayBeCut ⟦<NotedFlash as Flash>⟧.chip (λ f. ⟦<NotedPlace as Backing>⟧.waiting f.backing) }
    ensures few { WritesAreFew ⟦<NotedFlash as Flash>⟧.chip (λ f. ⟦<NotedPlace as Backing>⟧.waiting f.backing) }
    ensures lean { WritesAreLean ⟦<NotedFlash as Flash>⟧.chip (λ f. ⟦<NotedPlace as Backing>⟧.waiting f.backing) }
{}
