//! What a script says of its node.
#![tactic(auto)]

ghost use Rattle.std.specs.Prelude.{◌≡◌, All};
ghost use Rattle.life_plans.specs.Plans as Said;
ghost use Rattle.node_store.specs.Provisioning.{IsProvision};
ghost use Rattle.script_definitions.specs.Ranges.{IsLife, IsScriptOf};
ghost use Rattle.script_definitions.specs.declared.kind.Grammar.{Grammar};
ghost use Rattle.script_definitions.specs.declared.script.Script.{Script as ScriptValue};
ghost use Rattle.script_events.specs.Happenings.{IsRead};

use node_store::Provision;
use script_definitions::script::ProvisionLine;

/// What the node of a script is provisioned with.
pub fn provision_of(line: &ProvisionLine) -> Provision
    ensures value { result ≡ Said.provision_of line.now }
{
    Provision {
        unicast: line.unicast,
        elements: line.elements,
        iv: line.iv,
        flags: line.flags,
        net_index: line.net_index,
        net_key: line.net_key,
        dev_key: line.dev_key,
    }
}

/// Of a script of either grammar that was read: the lines of each life are those that `plan_of` asks for, and the node can be provisioned.
pub fn script_law()
    ensures lives { (grammar : Grammar) (s : ScriptValue) → IsScriptOf grammar s
        → All (λ lines. All IsRead lines × IsLife grammar (Said.script_of s).node.elements lines) s.lives }
    ensures node { (grammar : Grammar) (s : ScriptValue) → IsScriptOf grammar s
        → IsProvision (Said.provision_of s.provision) }
{}
