//! Worked cases, as contracts of functions that do nothing.
#![tactic(auto)]

ghost use Rattle.node_layers.specs.NodeLayers.{node_layers};
ghost use Rattle.worked_layers.specs.Friendship.{FriendshipStands, MessagesAreStored};
ghost use Rattle.worked_layers.specs.IvIndex.{PdusAreReadUnder, UpdateEnds};
ghost use Rattle.worked_layers.specs.LowPower.{LowPowerBefriends, LowPowerHears, LowPowerLists};
ghost use Rattle.worked_layers.specs.Models.{HeartBeats, LevelMoves, OnOffSwitches};
ghost use Rattle.worked_layers.specs.Published.{LabelsAreHeard, StatusIsPublished};
ghost use Rattle.worked_layers.specs.Segments.{SegmentsHeard, SegmentsRepeated, SegmentsTimed, SegmentsUnopened};
ghost use Rattle.worked_layers.specs.Sending.{EightAreHeld, PdusGoOn, SegmentsAreSent, UpdateWaits};

/// An AppKey Add in two pieces, in either order: the second is delivered, acknowledged with both bits, stored and answered; a piece once more is
/// in the message cache, or acknowledged again; after 10 seconds the first piece is forgotten; and a message that no key opens is done, and is
/// delivered under its next name.
pub fn segment_rows()
    ensures heard { SegmentsHeard }
    ensures repeated { SegmentsRepeated }
    ensures timed { SegmentsTimed }
    ensures unopened { SegmentsUnopened }
{}

/// A Friend Request is answered by an Offer, a Poll by an Update, the same Poll by the octets once more; a short message to the Low Power node
/// is stored, and answers its next Poll; a long one is sent, and begins no segments; and what came under the friendship goes on under the
/// master credentials.
pub fn friendship_rows()
    ensures stands { FriendshipStands }
    ensures stored { MessagesAreStored }
{}

/// A binding, then OnOff is set and kept for the next life; Level moves half of its way in half of its time; and a heartbeat is sent twice, a
/// second apart.
pub fn model_rows()
    ensures onoff { OnOffSwitches node_layers }
    ensures level { LevelMoves node_layers }
    ensures heartbeat { HeartBeats node_layers }
{}

/// A PDU to another node goes on with one TTL less, from TTL 2 on; of nine messages in segments the ninth finds no room until the others are
/// forgotten; an own message of two segments is begun, a fifth one isn't, and its segments go once more when their round is due; and an
/// IV Update that is in progress waits for its acknowledgment.
pub fn sending_rows()
    ensures relay { PdusGoOn }
    ensures room { EightAreHeld }
    ensures begin { SegmentsAreSent }
    ensures update { UpdateWaits }
{}

/// Under the known IV Index 5 a PDU is heard under 5 or 4, as its lowest bit says, and under none below: neither is the node's own, and what
/// doesn't read is unread. And an IV Update from 5 to 6 that is in progress ends by a beacon of IV Index 6 with flags 00 once 96 hours have
/// passed, not a tick before; what is stored starts SEQ at 0 under 6.
pub fn iv_index_rows()
    ensures read { PdusAreReadUnder }
    ensures ended { UpdateEnds }
{}

/// A model subscribes to a label, whose virtual address is put in, and takes a message that opened by it; and a model publishes its Status once
/// its period is over.
pub fn published_rows()
    ensures label { LabelsAreHeard }
    ensures publication { StatusIsPublished }
{}

/// A Low Power node sends its Request, answers the first Offer by a Poll and no other one, is updated, and polls with the same FSN until a PDU of
/// its friend closes the Poll; that PDU isn't asked for after it, and is a repeat at the next Poll; in the next life there is no friend. An
/// address that was listed is its own from then on, and of a full list nothing more is sent. And each row of its answers to a PDU has a case.
pub fn low_power_rows()
    ensures befriends { LowPowerBefriends }
    ensures lists { LowPowerLists }
    ensures hears { LowPowerHears }
{}
