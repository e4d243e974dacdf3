//! What the passing of hours does to the state.
#![tactic(auto)]

ghost use Rattle.std.specs.Prelude.{◌≡◌};
ghost use Rattle.mesh_base.specs.IvState.{HasTransmit};
ghost use Rattle.layer_definitions.specs.IvIndex.{aged, iv_due, iv_hours};

use mesh_base::iv_state::{IvState, IvStep};

/// The hours for which Normal Operation lasts at least (section 3.10.5).
const LEAST_HOURS: u16 = 96;

/// The hours after which the node ends an update on its own: it is in progress for 96 to 144 hours (section 3.10.5).
const MOST_HOURS: u16 = 144;

/// The SEQ from which the node begins an update on its own: three quarters of the numbers are used.
const MOST_USED: u32 = 0xc0_0000;

/// The state with the hours that passed.
fn aged_state(s: &IvState, passed: u32) -> IvState
    ensures { result ≡ aged s.now passed }
{
    let passed = u16::try_from(passed).unwrap_or(u16::MAX);
    IvState {
        hours: s.hours.saturating_add(passed),
        since: s.since.saturating_add(passed),
        ..*s
    }
}

/// What is due at the end of an hour.
#[tactic(auto, unfolding(layer_definitions::specs::IvIndex::iv_due))]
fn due_step(s: &IvState, mark_seq: u32, busy: bool) -> IvStep
    ensures { result ≡ iv_due s.now mark_seq busy }
{
    if s.progress {
        if s.hours >= MOST_HOURS && !busy {
            return IvStep::Finish(IvState {
                progress: false,
                hours: 0,
                ..*s
            });
        }
    } else if s.hours >= LEAST_HOURS && mark_seq >= MOST_USED {
        if let Some(next) = s.current.checked_add(1) {
            return IvStep::Begin(IvState {
                current: next,
                progress: true,
                hours: 0,
                ..*s
            });
        }
    }
    IvStep::Ignore { rule: 0 }
}

/// The state after `passed` hours more, and the step that is due then: an update begins, one ends, or neither is made
/// (rule 0, as where no hour passed). The hours stop at 65,535.
///
/// `mark_seq` is the SEQ of the durable mark, and `busy` says that an own segmented message is not acknowledged yet.
/// The state isn't in progress with an IV Index of 0.
pub fn on_hours(s: &IvState, passed: u32, mark_seq: u32, busy: bool) -> (IvState, IvStep)
    requires { HasTransmit s.now }
    ensures value { result ≡ iv_hours s.now passed mark_seq busy }
{
    let aged = aged_state(s, passed);
    let step = if passed == 0 {
        IvStep::Ignore { rule: 0 }
    } else {
        due_step(&aged, mark_seq, busy)
    };
    (aged, step)
}
