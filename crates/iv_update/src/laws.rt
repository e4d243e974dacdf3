//! The laws of the steps.
#![tactic(auto)]

ghost use Rattle.std.specs.Prelude.{ℕ, Bool};
ghost use Rattle.mesh_base.specs.IvState.{HasTransmit};
ghost use Rattle.mesh_base.specs.declared.iv_state.IvState.{IvState};
ghost use Rattle.layer_definitions.specs.IvIndex.{iv_hours, iv_next};
ghost use Rattle.iv_update.specs.Steps.{IsLater, state_after};

/// No step lets the IV Index that the node sends with fall, and the known IV Index neither falls nor moves up by more
/// than 42.
pub fn steps_law()
    ensures beacon { (s : IvState) (primary : Bool) (from iv : ℕ) (flag busy : Bool) → HasTransmit s
        → IsLater s (state_after s (iv_next s primary from iv flag busy)) }
    ensures hours { (s : IvState) (passed mark_seq : ℕ) (busy : Bool) → HasTransmit s
        → let end = iv_hours s passed mark_seq busy in IsLater s (state_after end.0 end.1) }
{}
