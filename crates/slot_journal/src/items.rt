// Items that a bank is filled with, told one at a time.
ghost use Rattle.std.specs.Prelude.{◌≡◌, List, slice_get};
ghost use Rattle.mesh_base.specs.declared.slot.Slot.{Slot};

use mesh_base::slot::Slot;

/// Items in an order, told one at a time by their places. So they needn't all lie in memory at once.
pub trait Items {
    // the slots of all items
    ghost slots: { Self → List Slot };

    /// The slot of the item at a place, counted from 0; none behind the last.
    fn slot(&self, place: usize) -> Option<Slot>
        ensures value { result ≡ slice_get (slots self.now) place };
}

impl Items for &[Slot] {
    ghost slots = { λ items. items.now };

    fn slot(&self, place: usize) -> Option<Slot> {
        self.get(place).copied()
    }
}
