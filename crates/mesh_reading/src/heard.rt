//! How far octets heard as a network PDU were read.
#![tactic(auto)]

ghost use Rattle.std.specs.Prelude.{◌≡◌, Some};
ghost use Rattle.std.specs.Option.{option_copied, option_map};
ghost use Rattle.mesh_reading.specs.Held.{low_in, opened_in, opening_of, pdu_insight, reading_in, reading_of};
ghost use Rattle.event_definitions.specs.History.{OfPdu, Opening};

use crate::opening::Opened;
use mesh_base::keys::UpperKey;
use mesh_base::lower::Lower;
use network_layer::NetReading;

/// What octets heard as a network PDU were read as, as far as a layer came to them. It may hold a key, so it isn't printed.
#[derive(Drop)]
pub enum HeardPdu {
    /// A Node Reset came before in this life, after which nothing is read.
    Reset,
    /// The octets read as no network PDU.
    Unread,
    /// A network PDU. The network layer had the answer, or there is no lower transport PDU in it.
    Network(NetReading),
    /// A lower transport PDU that completes no access message, or one that no key opened.
    Lower {
        /// The network PDU that it came in.
        reading: NetReading,
        /// The lower transport PDU.
        low: Lower,
    },
    /// A lower transport PDU that completes an access message, which opened.
    Opened {
        /// The network PDU that it came in.
        reading: NetReading,
        /// The lower transport PDU.
        low: Lower,
        /// What the access message opened to.
        opened: Opened,
    },
}

impl HeardPdu {
    /// A lower transport PDU, and what the access message that it completes opened to, if there is one that did.
    pub fn lower(reading: NetReading, low: Lower, opened: Option<Opened>) -> HeardPdu
        ensures insight { pdu_insight result ≡ OfPdu (Some (reading_of reading)) (Some low) (option_map opening_of opened) }
        ensures reading { reading_in result ≡ Some reading }
    {
        match opened {
            Some(opened) => HeardPdu::Opened {
                reading,
                low,
                opened,
            },
            None => HeardPdu::Lower { reading, low },
        }
    }

    /// The network PDU, if the octets read as one.
    pub fn reading(&self) -> Option<&NetReading>
        ensures value { option_copied result ≡ reading_in self.now }
    {
        match self {
            HeardPdu::Reset | HeardPdu::Unread => None,
            HeardPdu::Network(reading) => Some(reading),
            HeardPdu::Lower { reading, .. } => Some(reading),
            HeardPdu::Opened { reading, .. } => Some(reading),
        }
    }

    /// The key that opened an access message, if one did.
    pub fn key(&self) -> Option<&UpperKey>
        ensures value { option_copied result
            ≡ option_map (λ (o : Opening). o.key) (option_map opening_of (opened_in self.now)) }
    {
        match self {
            HeardPdu::Opened { opened, .. } => Some(&opened.key),
            _ => None,
        }
    }

    /// The lower transport PDU, if a layer came to one.
    pub fn low(&self) -> Option<&Lower>
        ensures value { option_copied result ≡ low_in self.now }
    {
        match self {
            HeardPdu::Lower { low, .. } => Some(low),
            HeardPdu::Opened { low, .. } => Some(low),
            _ => None,
        }
    }
}
