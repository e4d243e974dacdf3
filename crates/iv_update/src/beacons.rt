//! What a Secure Network beacon does to the state.
#![tactic(auto)]

ghost use Rattle.std.specs.Prelude.{◌≡◌, ◌+◌, ◌<◌, false};
ghost use Rattle.mesh_base.specs.IvState.{HasTransmit};
ghost use Rattle.layer_definitions.specs.IvIndex.{iv_next};

use mesh_base::iv_state::{IvState, IvStep};

/// How far above the known IV Index a beacon's may be (section 3.10.6).
const MOST_AHEAD: u32 = 42;

/// The hours for which each state lasts at least (section 3.10.5).
const LEAST_HOURS: u16 = 96;

/// The hours between two recoveries (section 3.10.6).
const RECOVERY_HOURS: u16 = 192;

/// A beacon with the known IV Index: it can end an update in progress.
#[tactic(auto, unfolding(layer_definitions::specs::IvIndex::iv_next))]
fn on_known(s: &IvState, flag: bool, busy: bool) -> IvStep
    ensures { result ≡ iv_next s.now false 0 s.now.current flag busy }
{
    if !s.progress || flag {
        IvStep::Ignore { rule: 5 }
    } else if s.hours < LEAST_HOURS {
        IvStep::Ignore { rule: 4 }
    } else if busy {
        IvStep::Wait
    } else {
        IvStep::Finish(IvState {
            progress: false,
            hours: 0,
            ..*s
        })
    }
}

/// A beacon with an IV Index above the known one: an update begins, or the state is recovered.
#[tactic(auto, unfolding(layer_definitions::specs::IvIndex::iv_next))]
fn on_ahead(s: &IvState, iv: u32, flag: bool) -> IvStep
    requires above { s.now.current < iv }
    requires within { iv < s.now.current + 43 }
    ensures { result ≡ iv_next s.now false 0 iv flag false }
{
    if iv - s.current == 1 && flag && !s.progress {
        if s.hours < LEAST_HOURS {
            IvStep::Ignore { rule: 4 }
        } else {
            IvStep::Begin(IvState {
                current: iv,
                progress: true,
                hours: 0,
                ..*s
            })
        }
    } else if s.since < RECOVERY_HOURS {
        IvStep::Ignore { rule: 6 }
    } else {
        IvStep::Recover(IvState {
            current: iv,
            progress: flag,
            hours: 0,
            since: 0,
        })
    }
}

/// What an authentic beacon of the network key with index `from` does, whose IV Index is `iv` and whose IV Update
/// flag is `flag`.
///
/// `primary` says that the node holds the primary network key, index 000: then the beacons of other keys raise no IV
/// Index. `busy` says that an own segmented message is not acknowledged yet: then an update in progress doesn't end.
/// The state isn't in progress with an IV Index of 0.
///
/// A beacon that is ignored names the rule:
///
/// 1. its IV Index is below the known one;
/// 2. it is more than 42 above;
/// 3. it is above, and the beacon is of another key than the primary one, which the node holds;
/// 4. the step would end a state that has lasted fewer than 96 hours;
/// 5. it has the known IV Index, and no update ends by it;
/// 6. the last recovery was fewer than 192 hours ago.
#[tactic(auto, unfolding(layer_definitions::specs::IvIndex::iv_next))]
pub fn on_beacon(s: &IvState, primary: bool, from: u16, iv: u32, flag: bool, busy: bool) -> IvStep
    requires { HasTransmit s.now }
    ensures value { result ≡ iv_next s.now primary from iv flag busy }
{
    if iv < s.current {
        return IvStep::Ignore { rule: 1 };
    }
    let ahead = iv - s.current;
    if ahead > MOST_AHEAD {
        IvStep::Ignore { rule: 2 }
    } else if ahead == 0 {
        on_known(s, flag, busy)
    } else if primary && from != 0 {
        IvStep::Ignore { rule: 3 }
    } else {
        on_ahead(s, iv, flag)
    }
}
