//! The octets of an access payload.
#![tactic(auto)]

ghost use Rattle.std.specs.Prelude.{◌≡◌};

use std::marker::Model;

/// The octets of an access payload, in as much memory as they need. A clause sees the list of them.
#[derive(Drop)]
pub struct Payload {
    octets: Vec<u8>,
}

impl Model for Payload {
    ghost use Rattle.std.specs.Prelude.{ℕ, List};

    ghost Value = { List ℕ };

    ghost view = { λ p. p.octets.items };
}

impl Payload {
    /// The payload of these octets.
    pub fn of(octets: Vec<u8>) -> Payload
        ensures value { result ≡ octets.items }
    {
        Payload { octets }
    }

    /// The octets, in their order.
    pub fn as_slice(&self) -> &[u8]
        ensures value { result.now ≡ self.now }
    {
        self.octets.as_slice()
    }
}
