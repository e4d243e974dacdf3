//! The models that messages are about.
#![tactic(auto)]

ghost use Rattle.std.specs.Prelude.{◌≡◌};
ghost use Rattle.config_definitions.specs.Models.{has_model, model_number, model_of};
ghost use Rattle.node_records.specs.Tables.{config_in};

use config_definitions::acts::Status;
use config_definitions::messages::{ElementModel, ModelId};
use mesh_base::address::Address;
use node_records::Persist;

/// The Configuration Server.
const CONFIGURATION_SERVER: u16 = 0x0000;

/// The Generic OnOff Server.
const ONOFF_SERVER: u16 = 0x1000;

/// The Generic Level Server.
const LEVEL_SERVER: u16 = 0x1002;

// Whether an element has a model.
fn has_model(p: &Persist, element: Address, model: u16) -> bool
    ensures { result ≡ has_model (config_in p.now) element model }
{
    model == ONOFF_SERVER
        || model == LEVEL_SERVER
        || (model == CONFIGURATION_SERVER && element.0 == p.unicast.0)
}

// The number of a model of the Bluetooth SIG.
fn model_number(model: ModelId) -> Option<u16>
    ensures { result ≡ model_number model }
{
    match model {
        ModelId::Sig(number) => Some(number),
        ModelId::Vendor { .. } => None,
    }
}

/// The number of the model that is meant, or why it is refused: no such element, no such model, or this status where it is the
/// Configuration Server.
pub fn model_of(p: &Persist, holder: &ElementModel, status: Status) -> Result<u16, Status>
    ensures { result ≡ model_of (config_in p.now) holder.now status }
{
    if !p.is_element(holder.element) {
        return Err(Status::InvalidAddress);
    }
    match model_number(holder.model) {
        None => Err(Status::InvalidModel),
        Some(number) => {
            if !has_model(p, holder.element, number) {
                Err(Status::InvalidModel)
            } else if number == CONFIGURATION_SERVER {
                Err(status)
            } else {
                Ok(number)
            }
        }
    }
}
