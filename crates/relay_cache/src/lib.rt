//! The network message cache (Mesh Profile 1.0.1, section 3.4.5.5): [`Cache`] holds the names of the last 128 network
//! PDUs that it didn't hold already.
//!
//! - `cache`: the cache and its calls
#![tactic(auto)]

mod cache;

pub use cache::Cache;
