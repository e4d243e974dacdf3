//! What the layers above the lower transport layer say of a life, as one constant for the whole node. There is no code here: the definitions
//! stand in `specs/`, over those of `layer_states`, `model_states` and `config_definitions`:
//!
//! - `Reassembly`, `Sending`: segments heard in a life, and own segmented messages
//! - `Configuration`, `Models`, `Publishing`: the Configuration Server, the models, and what is published
//! - `Friendship`: what is stored for Low Power nodes, and what their messages ask for
//! - `NodeLayers`: the constant, `node_layers`
//! - `BuiltLayers`: reassembly and own segmented messages alone, `built_layers`
//! - `ConfiguredLayers`: these with the configuration, the models and what is published, `configured_layers`: all but friendships
//! - `Segments`, `Steps`: what the laws of `laws` say: the answer to a segment by the state of reassembly, and that an entry more is one step
//!   of each state
//!
//! That `node_layers` and `built_layers` have the properties `AreSafe` and `AreFit` of `event_definitions` is proved in `layer_laws`.
#![tactic(auto)]

pub mod laws;
