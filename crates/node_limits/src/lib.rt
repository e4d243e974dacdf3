//! The sizes of the node: how many of each thing it holds, and what follows from them. A maker changes a size here; definitions, contracts
//! and code name it, and what follows is written as a sum. Sizes that the standard fixes by the width of a field aren't here.
//!
//! A definition names them by `use Rattle.node_limits.specs.declared.TheConstants.{..}`, and a proof computes with them as with numerals.
//! docs/CHANGING.md says what else a changed size asks for.
#![tactic(auto)]

// The node and its configuration

/// Elements of the node.
pub const ELEMENTS: usize = 4;

/// Servers: an OnOff and a Level Server on each element. Each keeps a value over lives.
pub const SERVERS: usize = 2 * ELEMENTS;

/// Network keys.
pub const NETWORK_KEYS: usize = 4;

/// Network keys that PDUs are read under: each with the one that follows it in a Key Refresh.
pub const HEARD_NETWORK_KEYS: usize = 2 * NETWORK_KEYS;

/// Application keys, under all network keys together.
pub const APPLICATION_KEYS: usize = 8;

/// Application keys that messages are opened with: each with the one that follows it.
pub const HEARD_APPLICATION_KEYS: usize = 2 * APPLICATION_KEYS;

/// Bindings of application keys to models.
pub const BINDINGS: usize = 32;

/// Subscriptions of models to groups.
pub const GROUP_SUBSCRIPTIONS: usize = 32;

/// Subscriptions of models to virtual addresses.
pub const LABEL_SUBSCRIPTIONS: usize = 32;

/// Subscriptions of both kinds together, which configuration messages keep to. The records alone could say as many as both tables hold.
pub const SUBSCRIPTIONS: usize = 32;

/// Models that publish.
pub const PUBLICATIONS: usize = 8;

/// Entries of the replay list: sources whose messages are taken.
pub const REPLAY_ENTRIES: usize = 512;

// The store

/// Slots of a bank: its header, and its records.
pub const BANK_SLOTS: u32 = 1024;

/// Records of a bank.
pub const BANK_RECORDS: u32 = BANK_SLOTS - 1;

/// Sectors of a bank, each of which a compaction erases.
pub const BANK_SECTORS: u32 = 8;

/// Records that say a network key anew: the key, the one that follows it in a Key Refresh, and the phase.
pub const RECORDS_OF_NETWORK_KEY: usize = 3;

/// Records that say an application key anew: the key, and the one that follows it.
pub const RECORDS_OF_APPLICATION_KEY: usize = 2;

/// Features that the records say: beacon, Default TTL, friend, relay, network transmit.
pub const FEATURES: usize = 5;

/// Records that say the replay list anew, two names in each.
pub const REPLAY_RECORDS: usize = (REPLAY_ENTRIES + 1) / 2;

/// Records of a snapshot: Identity, Numbers, the tables, the features, the values of the servers, the replay list, and Reset.
pub const SNAPSHOT_RECORDS: usize = 1
    + 1
    + RECORDS_OF_NETWORK_KEY * NETWORK_KEYS
    + RECORDS_OF_APPLICATION_KEY * APPLICATION_KEYS
    + BINDINGS
    + GROUP_SUBSCRIPTIONS
    + LABEL_SUBSCRIPTIONS
    + FEATURES
    + SERVERS
    + REPLAY_RECORDS
    + 1
    + PUBLICATIONS;

/// Calls to the flash of a record: its octets, then its gate.
pub const RECORD_CALLS: usize = 2;

/// Calls to the flash of a compaction beside those of its records: its sectors are erased, and the header is written.
pub const BANK_CALLS: usize = BANK_SECTORS as usize + RECORD_CALLS;

/// Calls to the flash of a compaction.
pub const COMPACTION_CALLS: usize = BANK_CALLS + RECORD_CALLS * SNAPSHOT_RECORDS;

/// Calls to the flash of a put: a compaction, then the record.
pub const PUT_CALLS: usize = COMPACTION_CALLS + RECORD_CALLS;

// What a life holds

/// PDUs whose names the message cache remembers.
pub const MESSAGE_CACHE: usize = 128;

/// Messages of other nodes of which segments were heard, and that aren't whole.
pub const MESSAGES_IN_PROGRESS: usize = 8;

/// Own messages in segments that aren't acknowledged.
pub const OWN_MESSAGES: usize = 4;

/// Segments of a message: SegO has five bits.
pub const SEGMENTS: usize = 32;

/// Segments that are due at once: those of all own messages.
pub const DUE_SEGMENTS: usize = OWN_MESSAGES * SEGMENTS;

/// Friendships and offers.
pub const FRIENDSHIPS: usize = 2;

/// The size of a Friend Queue as a Friend Request asks for it, MinQueueSizeLog: its logarithm.
pub const FRIEND_QUEUE_LOG: u8 = 4;

/// Messages of a Friend Queue.
pub const FRIEND_QUEUE: usize = 1 << FRIEND_QUEUE_LOG;

/// Addresses of a Friend Subscription List.
pub const FRIEND_ADDRESSES: usize = 16;

/// Bearers of a node, each with a thread of its own.
pub const BEARERS: usize = 8;

/// Jobs of one event.
pub const JOBS: usize = 160;

// A script

/// Lives of a script.
pub const LIVES: usize = 64;

/// Lines of bearers in a life.
pub const BEARER_LINES: usize = 4096;

/// Octets of a script, and of a report.
pub const SCRIPT_OCTETS: usize = 4_194_304;

/// Octets of a line of a script.
pub const LINE_OCTETS: usize = 1200;
