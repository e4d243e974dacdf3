//! What is true of the texts of opcodes.
#![tactic(auto)]

ghost use Rattle.std.specs.Prelude.{◌≡◌, ℕ, List};
ghost use Rattle.model_states.specs.Access.{ReadsOpcode};
ghost use Rattle.model_states.specs.declared.access.Opcode.{Opcode};

/// A payload begins with at most one opcode: the octets of one are never the first octets of another's.
pub fn opcode_law()
    ensures one { (payload : List ℕ) (a b : Opcode) (m n : ℕ) → ReadsOpcode payload a m → ReadsOpcode payload b n
        → (a.0 ≡ b.0) × (m ≡ n) }
{}
