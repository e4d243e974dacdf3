//! The life of a node.
#![tactic(auto)]

ghost use Rattle.std.specs.Prelude.{◌≡◌, ◌≤◌, [], ◌∷◌, None, Some, false};
ghost use Rattle.event_definitions.specs.Role.{node_role};
ghost use Rattle.flash_model.specs.Chip.{IsFresh, Keeps};
ghost use Rattle.machine_contract.specs.Opening.{IsNodeFlash, MigratesOnly, found_of};
ghost use Rattle.machine_contract.specs.Started.{IsStarted};
ghost use Rattle.mesh_machine.specs.Machine.{Stands, shown};
ghost use Rattle.mesh_node.specs.Given.{Stood};
ghost use Rattle.mesh_types.specs.declared.report.Opened.TheVariants as W;
ghost use Rattle.node_layers.specs.NodeLayers.{node_layers};
ghost use Rattle.node_limits.specs.declared.TheConstants.{BEARERS};
ghost use Rattle.node_store.specs.Tie.{IsNode};
ghost use Rattle.report_definitions.specs.Report.{opened_line};
ghost use Rattle.report_writer.specs.Writing.{SinkView, Written, view_of};
ghost use Rattle.live_node.specs.Begun.{IsBegun};
ghost use Rattle.live_node.specs.Ending.{IsResetTold};
ghost use Rattle.live_node.specs.Ends.{EndsAs, EndsByStatus, IsClosedBy, IsErrorsCause, IsSinkCause, IsSourceCause};
ghost use Rattle.live_node.specs.Lived.{streams_at};

use crate::ending::end_status;
use crate::status::{Ended, Status, Streams, stop_status};
use flash_model::Flash;
use live_lines::held::Held;
use live_lines::{ClockedSource, LinePhases, LineSource};
use live_report::LiveReport;
use live_report::laws::{life_law, told_law};
use locked_node::Known;
use machine_contract::{Machine, StartFault, Started};
use mesh_base::outside::Sink;
use mesh_machine::MeshMachine;
use mesh_node::{Beginning, Gate, Host, live_on};
use mesh_types::report::Opened;
use report_writer::write_opening;
use std::alloc::Global;
use std::sync::Wait;
use std::thread::Threads;
use store_definitions::recovery::one_list_is_recovered;

/// A life that was given up before its first phase.
fn unopened<F, S, E, K>(status: Status, flash: F, streams: Streams<S, E, K>) -> Ended<F, S, E, K>
    ensures value { result ≡ record { status = status; closed = false; flash = Some flash; streams = streams } }
{
    Ended {
        status,
        closed: false, // nothing was asked of the flash but to open
        flash: Some(flash),
        streams,
    }
}

/// Tells that there was a Node Reset.
fn tell_reset<F, S, E, K: Sink>(
    alloc: Global,
    flash: F,
    streams: Streams<S, E, K>,
) -> Ended<F, S, E, K>
    ensures told { IsResetTold result.status (view_of K.held K.pieces streams.sink) (K.faults streams.sink)
        (view_of K.held K.pieces result.streams.sink) (K.faults result.streams.sink) }
    ensures rest { (result.closed ≡ false) × (result.flash ≡ Some flash) }
    ensures closed { IsClosedBy result.status result.closed }
    ensures streams { (result.streams.source ≡ streams.source) × (result.streams.errors ≡ streams.errors) }
{
    let Streams {
        source,
        errors,
        mut sink,
    } = streams;
    let status = match write_opening(alloc, &mut sink, 1, Opened::WasReset) {
        Ok(()) => Status::WasReset,
        Err(stop) => stop_status(stop),
    };
    let streams = Streams {
        source,
        errors,
        sink,
    };
    unopened(status, flash, streams)
}

/// The phases of a source, for a machine.
fn phases_for<M: Machine, S: ClockedSource + Drop, E: Sink + Drop>(
    alloc: Global,
    held: Held,
    machine: &M,
    bearers: u8,
    source: S,
    errors: E,
) -> LinePhases<S, E>
    requires held { held ≡ [] }
    ensures streams { (result.lines.source ≡ source) × (result.lines.errors ≡ errors) }
    ensures begun { IsBegun result bearers (M.view machine.now).elements }
{
    LinePhases::with_held(alloc, held, source, errors, bearers, machine.elements())
}

/// The streams, out of what was run over them.
fn streams_of<S: ClockedSource + Drop, E: Sink + Drop, K: Sink + Drop>(
    lines: LinePhases<S, E>,
    report: LiveReport<K>,
) -> Streams<S, E, K>
    ensures value { result
        ≡ record { source = lines.lines.source; errors = lines.lines.errors; sink = report.sink } }
{
    let LinePhases { lines, .. } = lines;
    let LineSource { source, errors, .. } = lines;
    let LiveReport { sink, .. } = report;
    Streams {
        source,
        errors,
        sink,
    }
}

/// Runs a life that was opened, whose line was written.
fn go_on<
    M: Machine,
    R: Threads + Wait + Sync,
    F: Flash + Send + Drop,
    S: ClockedSource + Drop,
    E: Sink + Drop,
    K: Sink + Drop,
    G: Gate,
>(
    host: &Host<R, G>,
    opened: Opened,
    beginning: Beginning<M, F>,
    lines: LinePhases<S, E>,
    report: LiveReport<K>,
) -> Ended<F, S, E, K>
    requires started { IsStarted M.view M.stands (F.chip beginning.start) (F.chip beginning.flash) beginning.started }
    requires kept { Keeps (F.chip beginning.start) (F.chip beginning.flash) }
    requires writes { MigratesOnly (F.chip beginning.start) (F.chip beginning.flash) }
    requires few { beginning.bearers ≤ BEARERS }
    requires opened { opened ≡ W.On beginning.started.state beginning.started.mark }
    requires lines { IsBegun lines beginning.bearers (M.view beginning.started.machine).elements }
    requires report { report.stopped ≡ None }
    ensures ended { (before : SinkView)
        → Written (opened_line 1 opened ∷ []) before (view_of K.held K.pieces report.sink)
        → EndsAs M.role M.image report.hex beginning.bearers S.clocked (F.chip beginning.start)
        (streams_at S.left S.faults S.time E.held E.pieces E.faults
        (record { source = lines.lines.source; errors = lines.lines.errors; sink = report.sink }))
        (streams_at S.left S.faults S.time E.held E.pieces E.faults result.streams) before
        (view_of K.held K.pieces result.streams.sink) F.chip (Stood M.view (M.stands (found_of (F.chip beginning.start))) F.chip) result.status
        result.closed result.flash }
    ensures sink { IsSinkCause result.status (K.faults report.sink) (K.faults result.streams.sink) }
    ensures closed { IsClosedBy result.status result.closed }
{
    // They do nothing when they run: the proof uses what they say.
    M::tells::<F>();
    one_list_is_recovered();
    told_law::<K>();
    life_law();
    let mut lines = lines;
    let mut report = report;
    let Host { rt, alloc, gate } = *host;
    let lived = live_on(rt, alloc, gate, beginning, &mut lines, &mut report);
    match lived {
        Ok(lived) => {
            let status = end_status(alloc, &mut report, opened, lived.last, lines.lines.why);
            Ended {
                status,
                closed: lived.closed,
                flash: Some(lived.flash),
                streams: streams_of(lines, report),
            }
        }
        Err(_) => Ended {
            status: Status::Memory,
            closed: false,
            flash: None,
            streams: streams_of(lines, report),
        },
    }
}

/// Runs a life that was opened: its line is written, and then its phases come.
fn run_started<
    M: Machine,
    R: Threads + Wait + Sync,
    F: Flash + Send + Drop,
    S: ClockedSource + Drop,
    E: Sink + Drop,
    K: Sink + Drop,
    G: Gate,
>(
    host: &Host<R, G>,
    beginning: Beginning<M, F>,
    hex: bool,
    streams: Streams<S, E, K>,
) -> Ended<F, S, E, K>
    requires started { IsStarted M.view M.stands (F.chip beginning.start) (F.chip beginning.flash) beginning.started }
    requires kept { Keeps (F.chip beginning.start) (F.chip beginning.flash) }
    requires writes { MigratesOnly (F.chip beginning.start) (F.chip beginning.flash) }
    requires few { beginning.bearers ≤ BEARERS }
    ensures ended { EndsAs M.role M.image hex beginning.bearers S.clocked (F.chip beginning.start)
        (streams_at S.left S.faults S.time E.held E.pieces E.faults streams)
        (streams_at S.left S.faults S.time E.held E.pieces E.faults result.streams)
        (view_of K.held K.pieces streams.sink) (view_of K.held K.pieces result.streams.sink) F.chip
        (Stood M.view (M.stands (found_of (F.chip beginning.start))) F.chip) result.status result.closed result.flash }
    ensures sink { IsSinkCause result.status (K.faults streams.sink) (K.faults result.streams.sink) }
    ensures closed { IsClosedBy result.status result.closed }
{
    // They do nothing when they run: the proof uses what they say.
    M::tells::<F>();
    one_list_is_recovered();
    let Ok(held) = Held::new(host.alloc) else {
        return unopened(Status::Memory, beginning.flash, streams);
    };
    let Streams {
        source,
        errors,
        mut sink,
    } = streams;
    let opened = Opened::On(beginning.started.state, beginning.started.mark);
    match write_opening(host.alloc, &mut sink, 1, opened) {
        Ok(()) => {}
        Err(stop) => {
            let streams = Streams {
                source,
                errors,
                sink,
            };
            return unopened(stop_status(stop), beginning.flash, streams);
        }
    }
    let lines = phases_for(
        host.alloc,
        held,
        &beginning.started.machine,
        beginning.bearers,
        source,
        errors,
    );
    let report = LiveReport::new(host.alloc, hex, sink);
    go_on(host, opened, beginning, lines, report)
}

/// What a life is run over.
#[derive(Drop)]
struct Over<F, S, E, K> {
    /// Its flash.
    flash: F,
    /// How many bearers the node has.
    bearers: u8,
    /// Whether the report shows the octets of network PDUs.
    hex: bool,
    /// Its streams.
    streams: Streams<S, E, K>,
}

/// Runs one life of a node, by any machine.
fn run_machine<
    M: Machine,
    R: Threads + Wait + Sync,
    F: Flash + Send + Drop,
    S: ClockedSource + Drop,
    E: Sink + Drop,
    K: Sink + Drop,
    G: Gate,
>(host: &Host<R, G>, over: Over<F, S, E, K>) -> Ended<F, S, E, K>
    requires fresh { IsFresh (F.chip over.flash) }
    requires node { IsNodeFlash M.image (F.chip over.flash) }
    requires began { (F.chip over.flash).setting.faults ≤ (F.chip over.flash).faults }
    requires few { over.bearers ≤ BEARERS }
    ensures ended { EndsAs M.role M.image over.hex over.bearers S.clocked (F.chip over.flash)
        (streams_at S.left S.faults S.time E.held E.pieces E.faults over.streams)
        (streams_at S.left S.faults S.time E.held E.pieces E.faults result.streams)
        (view_of K.held K.pieces over.streams.sink) (view_of K.held K.pieces result.streams.sink) F.chip
        (Stood M.view (M.stands (found_of (F.chip over.flash))) F.chip) result.status result.closed result.flash }
    ensures sink { IsSinkCause result.status (K.faults over.streams.sink) (K.faults result.streams.sink) }
    ensures closed { IsClosedBy result.status result.closed }
{
    let Over {
        mut flash,
        bearers,
        hex,
        streams,
    } = over;
    let Ok(start) = Known::of(host.alloc, &flash) else {
        return unopened(Status::Memory, flash, streams);
    };
    // It does nothing when it runs: the proof uses what it says.
    one_list_is_recovered();
    match M::start(host.alloc, &mut flash) {
        Ok(started) => {
            let beginning = Beginning {
                flash,
                start,
                started,
                bearers,
            };
            run_started(host, beginning, hex, streams)
        }
        Err(StartFault::WasReset) => tell_reset(host.alloc, flash, streams),
        Err(StartFault::Flash) => unopened(Status::FlashFault, flash, streams),
        Err(StartFault::Memory) => unopened(Status::Memory, flash, streams),
    }
}

/// Runs one life of a node with so many bearers: it is opened over what its flash recovers; each line of the source that says an event is a phase,
/// and what became of it is written before the next line is read. Where the source tells time, time that passed is a phase between lines, as the
/// line `b0 tick N` would be. At the end of the source the life ends in order.
///
/// The report is that of the life with number 1: its opening, for each phase a line for each entry and then one for each job that was done in it,
/// and its end. A life that is given up has no line of an end; where its report is broken off in the lines of a phase, that is its last. With `hex`
/// the octets of network PDUs are shown. A line that is wrong is told on `errors`, and has no phase.
///
/// The flash is handed back, but for want of memory it may be lost. Where it is handed back a next life can be opened over it, or over whatever
/// an image of it is now. Where the life was given up before its first phase, whatever the cause, the flash recovers what it did, and unless it
/// failed as the life was opened it isn't told as failed.
pub fn run_node<
    R: Threads + Wait + Sync,
    F: Flash + Send + Drop,
    S: ClockedSource + Drop,
    E: Sink + Drop,
    K: Sink + Drop,
    G: Gate,
>(
    host: &Host<R, G>,
    flash: F,
    bearers: u8,
    hex: bool,
    streams: Streams<S, E, K>,
) -> Ended<F, S, E, K>
    requires fresh { IsFresh (F.chip flash) }
    requires node { IsNode (F.chip flash).now }
    requires began { (F.chip flash).setting.faults ≤ (F.chip flash).faults }
    requires few { bearers ≤ BEARERS }

    // What each status says of the life, of its lines and of what was written.
    ensures ended { EndsByStatus (node_role node_layers) IsNode hex bearers S.clocked (F.chip flash)
        (streams_at S.left S.faults S.time E.held E.pieces E.faults streams)
        (streams_at S.left S.faults S.time E.held E.pieces E.faults result.streams)
        (view_of K.held K.pieces streams.sink) (view_of K.held K.pieces result.streams.sink) F.chip
        (Stood shown (Stands (found_of (F.chip flash))) F.chip) result.status result.closed result.flash }
    ensures closed { IsClosedBy result.status result.closed }

    // No fault is swallowed: the count of a stream's faults rises exactly where that is why the life ended.
    ensures sink_cause { IsSinkCause result.status (K.faults streams.sink) (K.faults result.streams.sink) }
    ensures source_cause { IsSourceCause result.status (S.faults streams.source) (S.faults result.streams.source) }
    ensures errors_cause { IsErrorsCause result.status (E.faults streams.errors) (E.faults result.streams.errors) }
{
    let over = Over {
        flash,
        bearers,
        hex,
        streams,
    };
    run_machine::<MeshMachine, _, _, _, _, _, _>(host, over)
}
