//! A node, held by C.
#![tactic(auto)]

ghost use Rattle.std.specs.Prelude.{◌≡◌, ◌≢◌, ◌⊎◌, ◌↔◌, ◌+◌, ◌%◌, ◌<◌, ◌≤◌, [], None, false, length, take, true, IsSomeAnd};
ghost use Rattle.event_definitions.specs.Role.{node_role};
ghost use Rattle.file_flash.specs.Noted.{Put};
ghost use Rattle.linked_node.specs.Causes.{IsOpenCause};
ghost use Rattle.linked_node.specs.declared.faults.OpenFault.{OpenFault as Fault};
ghost use Rattle.locked_node.specs.Stands.{IsDueNode, IsIdleNode};
ghost use Rattle.node_layers.specs.NodeLayers.{node_layers};
ghost use Rattle.called_node.specs.Called.{IsOver, IsUsable};
ghost use Rattle.node_handle.specs.Nodes.{Became, HasNext, IsAnswered, IsClosedAs, IsErase, IsOpened, IsPassed, IsPhase, IsReported, open_status, told_put};

use file_flash::{Backing, NotedFlash, NotedPlace};
use flash_model::Flash;
use machine_contract::Machine;
use mesh_machine::MeshMachine;
use node_handle::Meshnode;
use std::alloc::Global;

/// Opens a node over an image of 65,536 octets: what it holds is checked. The first line of its life, `life 1` and so on with its LF, is put into the
/// front of `text`, which has at least 35 octets, and `size` tells how many it has. The image is only read. Writes are left by the opening of an
/// image of format 01 alone: they are made durable before the line leaves.
#[unsafe(no_mangle)]
pub extern "C" fn meshnode_node_open(
    alloc: Global,
    node: &mut Meshnode,
    image: &[u8],
    text: &mut [u8],
    size: &mut usize,
) -> u32
    ensures ok { result ≡ 0
        → IsSomeAnd node.new.value
        (λ n. IsOpened ⟦<NotedFlash as Flash>⟧.chip (λ f. ⟦<NotedPlace as Backing>⟧.waiting f.backing) image.now
        (take size.new text.new) n.calls) }
    ensures within { result ≡ 0 → size.new ≤ length text.old }
    ensures held { result ≢ 7 ↔ node.old.value ≡ None }
    ensures length { result ≡ 1 ↔ (node.old.value ≡ None) × ((length image.now ≢ 65536) ⊎ (length text.old < 35)) }
    ensures cause { result ≢ 0 → result ≢ 1 → result ≢ 7
        → (fault : Fault) × (result ≡ open_status fault) × IsOpenCause image.now fault }
    ensures refused { result ≢ 0 → (node.new.value ≡ node.old.value) × (text.new ≡ text.old) × (size.new ≡ size.old) }
{
    node.open(alloc, image, text, size)
}

/// Gives the node a line of what happens, without its LF, as `meshnoded` with one bearer reads it: `net`, `bcn`, `send`, `raw`, `tick`, `peer`, `talk`
/// and so on, with or without `b0` in front. It is done as one phase: its writes and its report are there to be taken, all before the next line.
/// Where the line is wrong `rule` tells by which rule it fails first: 1, 3, 4 or 5.
#[unsafe(no_mangle)]
pub extern "C" fn meshnode_node_line(
    alloc: Global,
    node: &mut Meshnode,
    line: &[u8],
    rule: &mut u32,
) -> u32
    ensures happened { result ≡ 0
        → Became (λ a b. IsPhase ⟦<NotedFlash as Flash>⟧.chip (λ f. ⟦<NotedPlace as Backing>⟧.waiting f.backing) line.now a.calls b.calls)
        node.old.value node.new.value }
    ensures lost { result ≡ 14 → IsSomeAnd node.new.value (λ n. n.calls ≡ record { life = None; writes = []; erases = []; report = [] }) }
    ensures empty { result ≡ 6 ↔ node.old.value ≡ None }
    ensures cause { result ≢ 6 → IsSomeAnd node.old.value (λ n. IsAnswered line.now n.calls rule.old result rule.new) }
    ensures same { result ≢ 0 → result ≢ 14 → node.new.value ≡ node.old.value }
    ensures same_rule { result ≢ 11 → rule.new ≡ rule.old }
{
    node.line(alloc, line, rule)
}

/// Takes the next write, in their order. `erased` tells whether it is an erase of a sector: then the 4,096 octets from `at` on, the sector's first,
/// are to become ff, `size` is 4,096, and `octets` is as it was, however long it is. Else the octets are put into the front of `octets`, `size`
/// tells how many, and `at` the offset in the image from which on they are to stand. Made one after another on the image of before, the writes
/// give the image that the node reads now; the caller makes each durable before the next, and all before the report leaves. A write has an octet at
/// least and lies within one sector; one that is no erase only clears bits. Where `octets` is too short for one `size` tells how many it must have,
/// and the write stays: 4,096 always do, and 31 as the code stands.
#[unsafe(no_mangle)]
pub extern "C" fn meshnode_node_write(
    alloc: Global,
    node: &mut Meshnode,
    at: &mut u32,
    octets: &mut [u8],
    size: &mut usize,
    erased: &mut bool,
) -> u32
    ensures ok { result ≡ 0
        → Became (λ a b. IsPassed a.calls b.calls (told_put at.new erased.new size.new octets.new) erased.new) node.old.value node.new.value }
    ensures erase { result ≡ 0 → erased.new ≡ true → IsErase at.new size.new octets.old octets.new }
    ensures within { result ≡ 0 → erased.new ≡ false → size.new ≤ length octets.old }
    ensures some { result ≡ 0 → 0 < size.new }
    ensures inside { result ≡ 0 → at.new + size.new ≤ 65536 }
    ensures one_sector { result ≡ 0 → at.new % 4096 + size.new ≤ 4096 }
    ensures length { result ≡ 1
        → IsSomeAnd node.old.value
        (λ n. (put : Put) × HasNext n.calls put false × (length octets.old < length put.octets) × (size.new ≡ length put.octets)) }
    ensures most { result ≡ 1 → size.new ≤ 4096 }
    ensures nothing { result ≡ 10 → IsSomeAnd node.old.value (λ n. n.calls.writes ≡ []) }
    ensures empty { result ≡ 6 ↔ node.old.value ≡ None }
    ensures same { result ≢ 0
        → (node.new.value ≡ node.old.value) × (at.new ≡ at.old) × (octets.new ≡ octets.old) × (erased.new ≡ erased.old) }
    ensures same_size { result ≢ 0 → result ≢ 1 → size.new ≡ size.old }
    ensures bound { (result ≡ 0) ⊎ (result ≡ 1) ⊎ (result ≡ 6) ⊎ (result ≡ 10) }
{
    node.write(alloc, at, octets, size, erased)
}

/// Takes the report of the last phase, which may be no octet: its lines as `meshnoded --hex` writes them, each with its LF, are put into the front of
/// `text`, and `size` tells how many octets they have. While a write is left it is `MESHNODE_WAITING`. Where `text` is too short `size` tells how many
/// octets it must have, and the report stays.
#[unsafe(no_mangle)]
pub extern "C" fn meshnode_node_report(
    alloc: Global,
    node: &mut Meshnode,
    text: &mut [u8],
    size: &mut usize,
) -> u32
    ensures ok { result ≡ 0
        → Became (λ a b. IsReported a.calls b.calls (take size.new text.new) × (size.new ≡ length a.calls.report)) node.old.value
        node.new.value }
    ensures length { result ≡ 1
        → IsSomeAnd node.old.value
        (λ n. (n.calls.writes ≡ []) × (length text.old < length n.calls.report) × (size.new ≡ length n.calls.report)) }
    ensures waiting { result ≡ 12 → IsSomeAnd node.old.value (λ n. n.calls.writes ≢ []) }
    ensures empty { result ≡ 6 ↔ node.old.value ≡ None }
    ensures same { result ≢ 0 → (node.new.value ≡ node.old.value) × (text.new ≡ text.old) }
    ensures same_size { result ≢ 0 → result ≢ 1 → size.new ≡ size.old }
    ensures bound { (result ≡ 0) ⊎ (result ≡ 1) ⊎ (result ≡ 6) ⊎ (result ≡ 12) }
{
    node.report(alloc, text, size)
}

/// Tells in how many ticks of 10 ms behind the last line `tick` something of the node is due: an event of fewer ticks stores nothing and has no jobs. It
/// may be 0, and as the code stands it is 2^32 - 1 where nothing is due any more; a line `tick` takes 1 to 100,000,000. `MESHNODE_OVER` where the node takes
/// no line more.
#[unsafe(no_mangle)]
pub extern "C" fn meshnode_node_due(alloc: Global, node: &mut Meshnode, ticks: &mut u32) -> u32
    ensures ok { result ≡ 0
        → IsSomeAnd node.old.value
        (λ n. IsSomeAnd n.calls.life
        (λ life. IsIdleNode (node_role node_layers) ⟦<NotedFlash as Flash>⟧.chip life.node ticks.new
        × IsDueNode (node_role node_layers) ⟦<MeshMachine as Machine>⟧.quiet ⟦<NotedFlash as Flash>⟧.chip life.node ticks.new)) }
    ensures usable { result ≡ 0 → IsSomeAnd node.old.value (λ n. IsUsable n.calls) }
    ensures over { result ≡ 13 → IsSomeAnd node.old.value (λ n. IsOver n.calls) }
    ensures empty { result ≡ 6 ↔ node.old.value ≡ None }
    ensures same { node.new.value ≡ node.old.value }
    ensures same_ticks { result ≢ 0 → ticks.new ≡ ticks.old }
    ensures bound { (result ≡ 0) ⊎ (result ≡ 6) ⊎ (result ≡ 13) }
{
    node.due(alloc, ticks)
}

/// Ends the life of the node, and frees it: the struct holds none then. Where the life ends in order its last line, `end` and an LF, is put into the
/// front of `text`, which has at least 4 octets; `size` tells how many it has, and is 0 where a write or the report was left, the flash failed, or
/// the node was lost.
#[unsafe(no_mangle)]
pub extern "C" fn meshnode_node_close(
    alloc: Global,
    node: &mut Meshnode,
    text: &mut [u8],
    size: &mut usize,
) -> u32
    ensures ok { result ≡ 0 → IsSomeAnd node.old.value (λ n. IsClosedAs n.calls (take size.new text.new)) }
    ensures freed { result ≡ 0 → node.new.value ≡ None }
    ensures within { result ≡ 0 → size.new ≤ 4 }
    ensures length { result ≡ 1 ↔ length text.old < 4 }
    ensures empty { result ≡ 6 → node.old.value ≡ None }
    ensures refused { result ≢ 0 → (node.new.value ≡ node.old.value) × (text.new ≡ text.old) × (size.new ≡ size.old) }
    ensures bound { (result ≡ 0) ⊎ (result ≡ 1) ⊎ (result ≡ 6) }
{
    node.close(alloc, text, size)
}
