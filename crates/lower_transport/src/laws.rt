//! The law of the codec.
#![tactic(auto)]

ghost use Rattle.std.specs.Prelude.{◌≡◌, ℕ, Bool, List};
ghost use Rattle.mesh_base.specs.declared.lower.Lower.{Lower};
ghost use Rattle.layer_definitions.specs.Lower.{Fits, is_control, lower_text, ReadsLower};

/// Octets read as one PDU at most, and the text of a PDU reads as that PDU.
pub fn one_reading_law()
    ensures one { (ctl : Bool) (text : List ℕ) (l m : Lower) → ReadsLower ctl text l → ReadsLower ctl text m → l ≡ m }
    ensures itself { (l : Lower) → Fits l → ReadsLower (is_control l) (lower_text l) l }
{}
