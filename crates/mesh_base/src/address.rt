//! Addresses of a mesh network (Mesh Profile 1.0.1, section 3.4.2).
#![tactic(auto)]

/// A 16-bit address, of any kind.
#[derive(Clone, Copy, Debug, Default, PartialEq, Eq, Hash)]
pub struct Address(pub u16);

/// What an address names.
#[derive(Clone, Copy, Debug, PartialEq, Eq)]
pub enum AddressKind {
    /// 0000: no element yet.
    Unassigned,
    /// 0001 to 7fff: one element.
    Unicast,
    /// 8000 to bfff: the elements that know one label.
    Virtual,
    /// c000 to ffff: the elements that subscribe to it, or one of the fixed groups.
    Group,
}

impl Address {
    ghost use Rattle.std.specs.Prelude.{◌≡◌, ◌↔◌, IsTrue};
    ghost use Rattle.mesh_base.specs.Address.{is_group, is_unassigned, is_unicast, is_virtual, kind_of};
    ghost use Rattle.mesh_base.specs.declared.address.AddressKind.TheVariants.{Unassigned, Unicast, Virtual, Group};

    /// The kind of this address, by its two highest bits (section 3.4.2.1 to 3.4.2.4).
    #[tactic(auto, unfolding(crate::specs::Address::kind_of))]
    pub fn kind(&self) -> AddressKind
        ensures value { result ≡ kind_of self.now }
        ensures unassigned { IsTrue (is_unassigned self.now) ↔ (result ≡ Unassigned) }
        ensures unicast { IsTrue (is_unicast self.now) ↔ (result ≡ Unicast) }
        ensures virtual_address { IsTrue (is_virtual self.now) ↔ (result ≡ Virtual) }
        ensures group { IsTrue (is_group self.now) ↔ (result ≡ Group) }
    {
        match self.0 {
            0 => AddressKind::Unassigned,
            0x0001..=0x7fff => AddressKind::Unicast,
            0x8000..=0xbfff => AddressKind::Virtual,
            0xc000..=0xffff => AddressKind::Group,
        }
    }

    /// Whether it is the address of no element yet (section 3.4.2.1).
    pub fn is_unassigned(&self) -> bool
        ensures value { result ≡ is_unassigned self.now }
    {
        matches!(self.kind(), AddressKind::Unassigned)
    }

    /// Whether it is the address of one element (section 3.4.2.2).
    pub fn is_unicast(&self) -> bool
        ensures value { result ≡ is_unicast self.now }
    {
        matches!(self.kind(), AddressKind::Unicast)
    }

    /// Whether it is the address of a label (section 3.4.2.3).
    pub fn is_virtual(&self) -> bool
        ensures value { result ≡ is_virtual self.now }
    {
        matches!(self.kind(), AddressKind::Virtual)
    }

    /// Whether it is the address of a group: one that models subscribe to, or a fixed one (section 3.4.2.4).
    pub fn is_group(&self) -> bool
        ensures value { result ≡ is_group self.now }
    {
        matches!(self.kind(), AddressKind::Group)
    }
}
