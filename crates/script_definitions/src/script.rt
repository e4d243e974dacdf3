//! The node's data, and the lines of each life.
#![tactic(auto)]

ghost use Rattle.std.specs.Prelude.{◌≡◌, ◌<◌, [], ◌∷◌, ◌++◌, length, OnOk};

use crate::line::ScriptLine;
use mesh_base::address::Address;
use std::alloc::{AllocError, Global};
use std::marker::Model;

/// What the line `provision` says of the node.
#[derive(Clone, Copy)]
pub struct ProvisionLine {
    /// The address of the first element. All element addresses are 0001 to 7fff.
    pub unicast: Address,
    /// How many elements the node has, 1 to 4.
    pub elements: u8,
    /// The IV Index, at least 1 with bit 1 of the flags.
    pub iv: u32,
    /// Bit 0 is the Key Refresh flag, bit 1 says that the IV Update is in progress; 0 to 3.
    pub flags: u8,
    /// The index of the network key, 12 bits.
    pub net_index: u16,
    /// The network key.
    pub net_key: [u8; 16],
    /// The device key.
    pub dev_key: [u8; 16],
}

/// The lines of one life, in their order. A clause sees the list of them.
#[derive(Drop)]
pub struct ScriptLife {
    lines: Vec<ScriptLine>,
}

impl Model for ScriptLife {
    ghost use Rattle.std.specs.Prelude.{List};
    ghost use Rattle.script_definitions.specs.declared.line.ScriptLine.{ScriptLine};

    ghost Value = { List ScriptLine };

    ghost view = { λ l. l.lines.items };
}

impl ScriptLife {
    /// A life without lines.
    pub fn new(alloc: Global) -> ScriptLife
        ensures value { result ≡ [] }
    {
        ScriptLife {
            lines: Vec::new(alloc),
        }
    }

    /// Puts a line behind the others.
    pub fn push(&mut self, line: ScriptLine) -> Result<(), AllocError>
        ensures ok { OnOk result (self.new ≡ self.old ++ line ∷ []) }
    {
        self.lines.push(line)?;
        Ok(())
    }

    /// The lines.
    pub fn as_slice(&self) -> &[ScriptLine]
        ensures value { result.now ≡ self.now }
    {
        self.lines.as_slice()
    }
}

/// The lives of a script, in their order. A clause sees the list of their lists of lines.
#[derive(Drop)]
pub struct ScriptLives {
    lives: Vec<ScriptLife>,
}

impl Model for ScriptLives {
    ghost use Rattle.std.specs.Prelude.{List};
    ghost use Rattle.script_definitions.specs.declared.line.ScriptLine.{ScriptLine};

    ghost Value = { List (List ScriptLine) };

    ghost view = { λ l. l.lives.items };
}

impl ScriptLives {
    ghost use Rattle.script_definitions.specs.Lives.{in_last_life};

    /// No lives.
    pub fn new(alloc: Global) -> ScriptLives
        ensures value { result ≡ [] }
    {
        ScriptLives {
            lives: Vec::new(alloc),
        }
    }

    /// Puts a life without lines behind the others.
    pub fn begin(&mut self, alloc: Global) -> Result<(), AllocError>
        ensures ok { OnOk result (self.new ≡ self.old ++ [] ∷ []) }
    {
        self.lives.push(ScriptLife::new(alloc))?;
        Ok(())
    }

    /// Puts a line behind those of the last life.
    pub fn push_line(&mut self, line: ScriptLine) -> Result<(), AllocError>
        requires { 0 < length self.old }
        ensures ok { OnOk result (self.new ≡ in_last_life self.old line) }
    {
        let last = self.lives.len() - 1;
        self.lives[last].push(line)
    }

    /// The lives.
    pub fn as_slice(&self) -> &[ScriptLife]
        ensures value { result.now ≡ self.now }
    {
        self.lives.as_slice()
    }
}

/// A script: the node's data, and its lives.
#[derive(Drop)]
pub struct Script {
    /// The node's data.
    pub provision: ProvisionLine,
    /// The lines of each life.
    pub lives: ScriptLives,
}
