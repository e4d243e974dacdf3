//! Who is told of the steps of bearers.
#![tactic(auto)]

/// It is told when a bearer comes to an event from outside, has it handled, and is through with its jobs. `number` is that of the event's
/// entry. A call may wait: no lock is held.
pub trait Gate: Sync {
    /// Whether it is to be told of each event at its time. Where it isn't, a bearer may have several events handled in one turn at the lock,
    /// and then it tells of the first of them alone.
    fn is_told(&self) -> bool;

    /// Before the bearer takes the lock for the event.
    fn before(&self, bearer: u8, number: u32);

    /// Once the event is handled and the lock is left, before its jobs.
    fn between(&self, bearer: u8, number: u32);

    /// Once the jobs are done.
    fn after(&self, bearer: u8, number: u32);
}

/// A gate that does nothing.
pub struct FreeGate;

impl Gate for FreeGate {
    fn is_told(&self) -> bool {
        false
    }

    fn before(&self, _bearer: u8, _number: u32) {}

    fn between(&self, _bearer: u8, _number: u32) {}

    fn after(&self, _bearer: u8, _number: u32) {}
}
