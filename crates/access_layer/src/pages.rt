//! Composition Data Page 0 (Mesh Profile 1.0.1, section 4.2.1).
#![tactic(auto)]

ghost use Rattle.std.specs.Prelude.{◌≡◌, ◌≤◌, ◌+◌, ◌*◌, ◌++◌, length};
ghost use Rattle.std.specs.List.{flat_map};
ghost use Rattle.model_states.specs.Access.{composition, element_text, two_low_first};

use mesh_base::octets::Octets;

/// The Configuration Server, which stands on the first element alone.
const CONFIGURATION_SERVER: u16 = 0x0000;

/// The Generic OnOff Server.
const ONOFF_SERVER: u16 = 0x1000;

/// The Generic Level Server.
const LEVEL_SERVER: u16 = 0x1002;

// Puts numbers of 16 bits behind the octets, the low octet first.
fn put_all(page: &mut Octets<48>, numbers: &[u16])
    requires { length page.old + 2 * length numbers.now ≤ 48 }
    ensures value { page.new ≡ page.old ++ flat_map two_low_first numbers.now }
{
    for number in numbers {
        page.extend(&number.to_le_bytes());
    }
}

// Puts an element with these models, at most 3, behind the octets.
fn put_element(page: &mut Octets<48>, models: &[u16])
    requires few { length models.now ≤ 3 }
    requires room { length page.old + 4 + 2 * length models.now ≤ 48 }
    ensures value { page.new ≡ page.old ++ element_text models.now }
{
    page.extend(&[0, 0, models.len() as u8, 0]);
    put_all(page, models);
}

/// Composition Data Page 0 of a node of so many elements, at most 4, whose replay list has `crpl` places: CID ffff, PID 0001, VID 0001,
/// CRPL, features Relay and Friend. Each element has a Generic OnOff Server and a Generic Level Server, the first a Configuration Server
/// before them.
#[tactic(auto, unfolding(model_states::specs::Access::composition))]
pub fn composition(elements: u8, crpl: u16) -> Octets<48>
    requires { elements ≤ 4 }
    ensures value { result ≡ composition elements crpl }
    ensures length { length result ≤ 44 }
{
    let mut page = Octets::new();
    put_all(&mut page, &[0xffff, 0x0001, 0x0001, crpl, 0x0005]);
    if elements == 0 {
        return page;
    }
    put_element(
        &mut page,
        &[CONFIGURATION_SERVER, ONOFF_SERVER, LEVEL_SERVER],
    );
    for _place in 1..elements {
        put_element(&mut page, &[ONOFF_SERVER, LEVEL_SERVER]);
    }
    page
}
