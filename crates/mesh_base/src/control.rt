//! The control messages of the transport layers (Mesh Profile 1.0.1, sections 3.5.2.3.1 and 3.6.5.1 to 3.6.5.9).
#![tactic(auto)]

use crate::address::Address;
use crate::table::Table;

/// A control message, without the network PDU's fields.
#[derive(Drop)]
pub enum ControlMsg {
    /// Segment Acknowledgment, opcode 00 (section 3.5.2.3.1).
    Acknowledgment(Acknowledgment),
    /// Friend Poll, opcode 01 (section 3.6.5.1).
    Poll {
        /// FSN, the Friend Sequence Number, 1 bit. The 7 bits before it are padding.
        fsn: bool,
    },
    /// Friend Update, opcode 02 (section 3.6.5.2).
    Update(Update),
    /// Friend Request, opcode 03 (section 3.6.5.3).
    Request(Request),
    /// Friend Offer, opcode 04 (section 3.6.5.4).
    Offer(Offer),
    /// Friend Clear, opcode 05 (section 3.6.5.5).
    Clear(Clear),
    /// Friend Clear Confirm, opcode 06 (section 3.6.5.6).
    ClearConfirm(Clear),
    /// Friend Subscription List Add, opcode 07 (section 3.6.5.7).
    ListAdd(SubscriptionList),
    /// Friend Subscription List Remove, opcode 08 (section 3.6.5.8).
    ListRemove(SubscriptionList),
    /// Friend Subscription List Confirm, opcode 09 (section 3.6.5.9).
    ListConfirm {
        /// TransactionNumber, 8 bits, of the list message that is confirmed.
        transaction: u8,
    },
    /// A control message of any other opcode, or of parameters that its opcode doesn't have. It is accepted and has no effect.
    Other,
}

/// Which segments of a message were heard (section 3.5.2.3.1).
#[derive(Clone, Copy)]
pub struct Acknowledgment {
    /// OBO, 1 bit: whether a Friend node sends it on behalf of a Low Power node.
    pub obo: bool,
    /// SeqZero, 13 bits: the low bits of the SeqAuth of the message.
    pub seq_zero: u16,
    /// BlockAck, 32 bits: bit i stands for the segment with SegO i. 0 cancels the message.
    pub block_ack: u32,
}

/// The security state that a Friend node tells (section 3.6.5.2).
#[derive(Clone, Copy)]
pub struct Update {
    /// Flags, 8 bits: bit 0 is Key Refresh, bit 1 IV Update.
    pub flags: u8,
    /// The IV Index, 32 bits.
    pub iv: u32,
    /// MD, 8 bits: 0 where the Friend Queue is empty.
    pub more_data: u8,
}

/// What a Low Power node asks of a Friend node (section 3.6.5.3).
#[derive(Clone, Copy, Debug, Default, PartialEq, Eq)]
pub struct Request {
    /// Criteria, 8 bits: MinQueueSizeLog in the low 3, then ReceiveWindowFactor and RSSIFactor.
    pub criteria: u8,
    /// ReceiveDelay in milliseconds, 8 bits.
    pub receive_delay: u8,
    /// PollTimeout in units of 100 milliseconds, 24 bits.
    pub poll_timeout: u32,
    /// PreviousAddress, 16 bits: the Friend node before this one, or 0000.
    pub previous: Address,
    /// NumElements, 8 bits: how many elements the Low Power node has.
    pub elements: u8,
    /// LPNCounter, 16 bits: how many Requests the node sent before.
    pub lpn_counter: u16,
}

/// What a Friend node offers a Low Power node (section 3.6.5.4).
#[derive(Clone, Copy, PartialEq, Eq)]
pub struct Offer {
    /// ReceiveWindow in milliseconds, 8 bits.
    pub receive_window: u8,
    /// QueueSize, 8 bits: how many messages the Friend Queue holds.
    pub queue_size: u8,
    /// SubscriptionListSize, 8 bits: how many addresses the list holds.
    pub subscription_list_size: u8,
    /// RSSI in dBm, 8 bits in two's complement; 7f where it isn't known.
    pub rssi: u8,
    /// FriendCounter, 16 bits: how many Offers the node sent before.
    pub friend_counter: u16,
}

/// The friendship that ends, or ended (sections 3.6.5.5 and 3.6.5.6).
#[derive(Clone, Copy, PartialEq, Eq)]
pub struct Clear {
    /// LPNAddress, 16 bits: the Low Power node.
    pub lpn: Address,
    /// LPNCounter of the new friendship's Request, 16 bits.
    pub lpn_counter: u16,
}

/// The addresses that one control message has room for.
pub type AddressList = Table<Address, 5>;

/// Addresses that come to a Friend Subscription List, or go from it (sections 3.6.5.7 and 3.6.5.8).
#[derive(Drop)]
pub struct SubscriptionList {
    /// TransactionNumber, 8 bits.
    pub transaction: u8,
    /// The addresses, 1 to 5.
    pub addresses: AddressList,
}
