//! The calls of a [`Meshnode`].
#![tactic(auto)]

ghost use Rattle.std.specs.Prelude.{◌≡◌, ◌≢◌, ◌⊎◌, ◌↔◌, ◌+◌, ◌%◌, ◌<◌, ◌≤◌, [], None, false, length, take, true, IsSomeAnd};
ghost use Rattle.event_definitions.specs.Role.{node_role};
ghost use Rattle.file_flash.specs.Noted.{Put};
ghost use Rattle.linked_node.specs.Causes.{IsOpenCause};
ghost use Rattle.linked_node.specs.declared.faults.OpenFault.{OpenFault as Fault};
ghost use Rattle.locked_node.specs.Stands.{IsDueNode, IsIdleNode};
ghost use Rattle.node_layers.specs.NodeLayers.{node_layers};
ghost use Rattle.called_node.specs.Called.{IsOver, IsUsable};
ghost use Rattle.node_handle.specs.Nodes.{Became, HasNext, IsAnswered, IsClosedAs, IsErase, IsOpened, IsPassed, IsPhase, IsReported, open_status, told_put};

use crate::handing::{END, answer_line, hand_end, hand_report, hand_write, put_octets};
use crate::held::Meshnode;
use crate::opening::{OpenedNode, open_node, open_status};
use crate::status::{EMPTY, HELD, LENGTH, OK, OVER};
use file_flash::{Backing, NotedFlash, NotedPlace};
use flash_model::{FLASH_OCTETS, Flash};
use machine_contract::Machine;
use mesh_machine::MeshMachine;
use std::alloc::Global;

/// Octets of the first line of a life, at most.
const MOST_LINE: usize = 35;

impl Meshnode {
    /// Opens a node over an image of 65,536 octets: what it holds is checked. The first line of its life, `life 1` and so on with its LF, is put into
    /// the front of `text`, which has at least 35 octets, and `size` tells how many it has. The image is only read. Writes are left by the opening of an
    /// image of format 01 alone: they are made durable before the line leaves.
    pub fn open(&mut self, alloc: Global, image: &[u8], text: &mut [u8], size: &mut usize) -> u32
        ensures ok { result ≡ 0
            → IsSomeAnd self.new.value
            (λ n. IsOpened ⟦<NotedFlash as Flash>⟧.chip (λ f. ⟦<NotedPlace as Backing>⟧.waiting f.backing) image.now
            (take size.new text.new) n.calls) }
        ensures within { result ≡ 0 → size.new ≤ length text.old }
        ensures held { result ≢ 7 ↔ self.old.value ≡ None }
        ensures length { result ≡ 1 ↔ (self.old.value ≡ None) × ((length image.now ≢ 65536) ⊎ (length text.old < 35)) }
        ensures cause { result ≢ 0 → result ≢ 1 → result ≢ 7
            → (fault : Fault) × (result ≡ open_status fault) × IsOpenCause image.now fault }
        ensures refused { result ≢ 0 → (self.new.value ≡ self.old.value) × (text.new ≡ text.old) × (size.new ≡ size.old) }
    {
        if let Some(held) = self.take(alloc) {
            self.put(held);
            return HELD;
        }
        if image.len() != FLASH_OCTETS as usize || text.len() < MOST_LINE {
            return LENGTH;
        }
        match open_node(alloc, image) {
            Ok(opened) => {
                let OpenedNode { line, node } = opened;
                put_octets(line.as_slice(), text, size);
                self.put(node);
                OK
            }
            Err(fault) => open_status(&fault),
        }
    }

    /// Gives the node a line of what happens, without its LF, as `meshnoded` with one bearer reads it: `net`, `bcn`, `send`, `raw`, `tick`, `peer`,
    /// `talk` and so on, with or without `b0` in front. It is done as one phase: its writes and its report are there to be taken, all before the next
    /// line. Where the line is wrong `rule` tells by which rule it fails first: 1, 3, 4 or 5.
    pub fn line(&mut self, alloc: Global, line: &[u8], rule: &mut u32) -> u32
        ensures happened { result ≡ 0
            → Became
            (λ a b. IsPhase ⟦<NotedFlash as Flash>⟧.chip (λ f. ⟦<NotedPlace as Backing>⟧.waiting f.backing) line.now a.calls b.calls)
            self.old.value self.new.value }
        ensures lost { result ≡ 14 → IsSomeAnd self.new.value (λ n. n.calls ≡ record { life = None; writes = []; erases = []; report = [] }) }
        ensures empty { result ≡ 6 ↔ self.old.value ≡ None }
        ensures cause { result ≢ 6 → IsSomeAnd self.old.value (λ n. IsAnswered line.now n.calls rule.old result rule.new) }
        ensures same { result ≢ 0 → result ≢ 14 → self.new.value ≡ self.old.value }
        ensures same_rule { result ≢ 11 → rule.new ≡ rule.old }
    {
        let Some(mut held) = self.take(alloc) else {
            return EMPTY;
        };
        let called = held.calls.line(alloc, line);
        self.put(held);
        answer_line(called, rule)
    }

    /// Takes the next write, in their order. `erased` tells whether it is an erase of a sector: then the 4,096 octets from `at` on, the sector's first,
    /// are to become ff, `size` is 4,096, and `octets` is as it was, however long it is. Else the octets are put into the front of `octets`, `size`
    /// tells how many, and `at` the offset in the image from which on they are to stand. Made one after another on the image of before, the writes
    /// give the image that the node reads now; the caller makes each durable before the next, and all before the report leaves. A write has an octet at
    /// least and lies within one sector; one that is no erase only clears bits. Where `octets` is too short for one `size` tells how many it must have,
    /// and the write stays: 4,096 always do, and 31 as the code stands.
    pub fn write(
        &mut self,
        alloc: Global,
        at: &mut u32,
        octets: &mut [u8],
        size: &mut usize,
        erased: &mut bool,
    ) -> u32
        ensures ok { result ≡ 0
            → Became (λ a b. IsPassed a.calls b.calls (told_put at.new erased.new size.new octets.new) erased.new) self.old.value self.new.value }
        ensures erase { result ≡ 0 → erased.new ≡ true → IsErase at.new size.new octets.old octets.new }
        ensures within { result ≡ 0 → erased.new ≡ false → size.new ≤ length octets.old }
        ensures some { result ≡ 0 → 0 < size.new }
        ensures inside { result ≡ 0 → at.new + size.new ≤ 65536 }
        ensures one_sector { result ≡ 0 → at.new % 4096 + size.new ≤ 4096 }
        ensures length { result ≡ 1
            → IsSomeAnd self.old.value
            (λ n. (put : Put) × HasNext n.calls put false × (length octets.old < length put.octets) × (size.new ≡ length put.octets)) }
        ensures most { result ≡ 1 → size.new ≤ 4096 }
        ensures nothing { result ≡ 10 → IsSomeAnd self.old.value (λ n. n.calls.writes ≡ []) }
        ensures empty { result ≡ 6 ↔ self.old.value ≡ None }
        ensures same { result ≢ 0
            → (self.new.value ≡ self.old.value) × (at.new ≡ at.old) × (octets.new ≡ octets.old) × (erased.new ≡ erased.old) }
        ensures same_size { result ≢ 0 → result ≢ 1 → size.new ≡ size.old }
        ensures bound { (result ≡ 0) ⊎ (result ≡ 1) ⊎ (result ≡ 6) ⊎ (result ≡ 10) }
    {
        let Some(mut held) = self.take(alloc) else {
            return EMPTY;
        };
        let status = hand_write(&mut held.calls, at, octets, size, erased);
        self.put(held);
        status
    }

    /// Takes the report of the last phase, which may be no octet: its lines as `meshnoded --hex` writes them, each with its LF, are put into the front
    /// of `text`, and `size` tells how many octets they have. While a write is left it is `WAITING`. Where `text` is too short `size` tells how many
    /// octets it must have, and the report stays.
    pub fn report(&mut self, alloc: Global, text: &mut [u8], size: &mut usize) -> u32
        ensures ok { result ≡ 0
            → Became (λ a b. IsReported a.calls b.calls (take size.new text.new) × (size.new ≡ length a.calls.report)) self.old.value
            self.new.value }
        ensures length { result ≡ 1
            → IsSomeAnd self.old.value
            (λ n. (n.calls.writes ≡ []) × (length text.old < length n.calls.report) × (size.new ≡ length n.calls.report)) }
        ensures waiting { result ≡ 12 → IsSomeAnd self.old.value (λ n. n.calls.writes ≢ []) }
        ensures empty { result ≡ 6 ↔ self.old.value ≡ None }
        ensures same { result ≢ 0 → (self.new.value ≡ self.old.value) × (text.new ≡ text.old) }
        ensures same_size { result ≢ 0 → result ≢ 1 → size.new ≡ size.old }
        ensures bound { (result ≡ 0) ⊎ (result ≡ 1) ⊎ (result ≡ 6) ⊎ (result ≡ 12) }
    {
        let Some(mut held) = self.take(alloc) else {
            return EMPTY;
        };
        let status = hand_report(&mut held.calls, text, size);
        self.put(held);
        status
    }

    /// Tells in how many ticks of 10 ms behind the last line `tick` something of the node is due: an event of fewer ticks stores nothing and has no jobs. It
    /// may be 0, and as the code stands it is 2^32 - 1 where nothing is due any more; a line `tick` takes 1 to 100,000,000. `OVER` where the node takes
    /// no line more.
    pub fn due(&mut self, alloc: Global, ticks: &mut u32) -> u32
        ensures ok { result ≡ 0
            → IsSomeAnd self.old.value
            (λ n. IsSomeAnd n.calls.life
            (λ life. IsIdleNode (node_role node_layers) ⟦<NotedFlash as Flash>⟧.chip life.node ticks.new
            × IsDueNode (node_role node_layers) ⟦<MeshMachine as Machine>⟧.quiet ⟦<NotedFlash as Flash>⟧.chip life.node ticks.new)) }
        ensures usable { result ≡ 0 → IsSomeAnd self.old.value (λ n. IsUsable n.calls) }
        ensures over { result ≡ 13 → IsSomeAnd self.old.value (λ n. IsOver n.calls) }
        ensures empty { result ≡ 6 ↔ self.old.value ≡ None }
        ensures same { self.new.value ≡ self.old.value }
        ensures same_ticks { result ≢ 0 → ticks.new ≡ ticks.old }
        ensures bound { (result ≡ 0) ⊎ (result ≡ 6) ⊎ (result ≡ 13) }
    {
        let Some(held) = self.take(alloc) else {
            return EMPTY;
        };
        let due = held.calls.due();
        self.put(held);
        match due {
            Some(due) => {
                *ticks = due;
                OK
            }
            None => OVER,
        }
    }

    /// Ends the life of the node, and frees it: none is held then. Where the life ends in order its last line, `end` and an LF, is put into the front
    /// of `text`, which has at least 4 octets; `size` tells how many it has, and is 0 where a write or the report was left, the flash failed, or the
    /// node was lost.
    pub fn close(&mut self, alloc: Global, text: &mut [u8], size: &mut usize) -> u32
        ensures ok { result ≡ 0 → IsSomeAnd self.old.value (λ n. IsClosedAs n.calls (take size.new text.new)) }
        ensures freed { result ≡ 0 → self.new.value ≡ None }
        ensures within { result ≡ 0 → size.new ≤ 4 }
        ensures length { result ≡ 1 ↔ length text.old < 4 }
        ensures empty { result ≡ 6 → self.old.value ≡ None }
        ensures refused { result ≢ 0 → (self.new.value ≡ self.old.value) × (text.new ≡ text.old) × (size.new ≡ size.old) }
        ensures bound { (result ≡ 0) ⊎ (result ≡ 1) ⊎ (result ≡ 6) }
    {
        if text.len() < END.len() {
            return LENGTH;
        }
        let Some(held) = self.take(alloc) else {
            return EMPTY;
        };
        hand_end(&held.calls, text, size);
        OK
    }
}
