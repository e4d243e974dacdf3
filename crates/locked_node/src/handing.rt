//! The writes of a node's flash that its caller makes.
#![tactic(auto)]

ghost use Rattle.std.specs.Prelude.{◌≡◌, ◌+◌, ◌<◌, ◌≤◌, length, [], All, Some, map};
ghost use Rattle.file_flash.specs.Handed.{IsHandedOut};
ghost use Rattle.file_flash.specs.Noted.{AreFronts, AreOnChip, IsInside, octets_given, put_of, written};

use crate::node::Node;
use file_flash::{Backing, NotedFlash, NotedPlace, Write};
use flash_model::Flash;
use machine_contract::Machine;

impl<M: Machine> Node<M, NotedFlash> {
    /// The writes of the flash since this was called last, or since it was made, in their order: made one after another on what was read then, they give
    /// what is read now (`writes`), each within one sector (`inside`). Each gives its octets on a chip too, where a program call clears bits alone
    /// (`on_chip`), and each front of them, with its last write torn or whole, is content that a power cut might have left since then (`fronts`). They
    /// are those that the flash noted, in that order (`noted`), at most so many as program and erase calls were counted since then, as long as that count
    /// isn't ffffffff (`few`), and those that are no erase have at most so many octets as program calls were given since then, with the same proviso
    /// (`lean`). None waits any more then (`none`). The flash stays but for what is saved of it (`flash`), and nothing else changes (`frame`). It takes
    /// no memory, and a node whose flash failed gives them too.
    ///
    /// Whoever takes them makes them durable, in their order, before anything leaves that a call of this node handed out.
    pub fn take_writes(&mut self) -> Vec<Write>
        ensures writes { written (map put_of result.items) (⟦<NotedFlash as Flash>⟧.chip self.old.flash).setting.saved
            ≡ (⟦<NotedFlash as Flash>⟧.chip self.old.flash).now }
        ensures inside { All IsInside result.items }
        ensures on_chip { AreOnChip (map put_of result.items) (⟦<NotedFlash as Flash>⟧.chip self.old.flash).setting.saved }
        ensures fronts { AreFronts (map put_of result.items) (⟦<NotedFlash as Flash>⟧.chip self.old.flash).setting.saved
            ((⟦<NotedFlash as Flash>⟧.chip self.old.flash).since (⟦<NotedFlash as Flash>⟧.chip self.old.flash).setting.moment) }
        ensures noted { Some (map put_of result.items) ≡ ⟦<NotedPlace as Backing>⟧.waiting self.old.flash.backing }
        ensures none { ⟦<NotedPlace as Backing>⟧.waiting self.new.flash.backing ≡ Some [] }
        ensures few { (⟦<NotedFlash as Flash>⟧.chip self.old.flash).changes < 4294967295
            → (⟦<NotedFlash as Flash>⟧.chip self.old.flash).setting.called + length result.items
            ≤ (⟦<NotedFlash as Flash>⟧.chip self.old.flash).changes }
        ensures lean { (⟦<NotedFlash as Flash>⟧.chip self.old.flash).octets < 4294967295
            → (⟦<NotedFlash as Flash>⟧.chip self.old.flash).setting.programmed + octets_given (map put_of result.items)
            ≤ (⟦<NotedFlash as Flash>⟧.chip self.old.flash).octets }
        ensures flash { IsHandedOut (⟦<NotedFlash as Flash>⟧.chip self.old.flash) (⟦<NotedFlash as Flash>⟧.chip self.new.flash) }
        ensures frame { self.new ≡ record self.old { flash = self.new.flash } }
    {
        let writes = self.held.flash.take_writes();
        // It does nothing when it runs: the proof uses what it says.
        M::stays::<NotedFlash>();
        writes
    }
}
