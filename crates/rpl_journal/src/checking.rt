//! Whether a message is newer than what was accepted of its source.
#![tactic(auto)]

ghost use Rattle.std.specs.Prelude.{◌≡◌, ◌↔◌, List, Some, IsErr, IfErr};
ghost use Rattle.node_records.specs.Meaning.{IsMeaningOf};
ghost use Rattle.node_records.specs.Tables.{entry_in};
ghost use Rattle.record_types.specs.declared.records.StoreRecord.{StoreRecord};
ghost use Rattle.rpl_journal.specs.Accepting.{IsNoNewer};
ghost use Rattle.store_definitions.specs.Entries.{entry_of};

use mesh_base::pair::{Name, Pair};
use node_records::Persist;
use thiserror::Error;

/// The message isn't newer than what was accepted of its source.
#[derive(Clone, Copy, Debug, PartialEq, Eq, Error)]
#[error("the message isn't newer than the last one accepted of its source")]
pub struct Old {
    /// The entry of its source: the greatest pair accepted.
    pub kept: Pair,
}

/// Whether a message is newer than the entry of its source in the replay list (Mesh Profile 1.0.1, section 3.8.8). It writes nothing, and
/// asks nothing. `name` is the source with the pair, of a segmented message with its SeqAuth.
///
/// # Errors
///
/// `Old` exactly where its source has an entry and the pair isn't newer (`exact`; by the records, `records`). It tells that entry (`kept`).
pub fn check(p: &Persist, name: &Name) -> Result<(), Old>
    ensures exact { IsErr result ↔ IsNoNewer (entry_in p.now name.now.src.0) name.now.pair }
    ensures kept { IfErr result (λ e. entry_in p.now name.now.src.0 ≡ Some e.kept) }
    ensures records { (records : List StoreRecord) → IsMeaningOf records p.now
        → IsErr result ↔ IsNoNewer (entry_of records name.now.src.0) name.now.pair }
{
    match p.entry(name.src) {
        Some(kept) if name.pair <= kept => Err(Old { kept }),
        _ => Ok(()),
    }
}
