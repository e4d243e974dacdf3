//! Where the lives of a script come from.
#![tactic(auto)]

ghost use Rattle.std.specs.Prelude.{◌≡◌, ◌<◌, [], length, slice_index_or, IfOk};
ghost use Rattle.life_sources.specs.Lines.{lines_of};
ghost use Rattle.script_definitions.specs.declared.script.Script.{Script as Said};
ghost use Rattle.script_generator.specs.Generated.{generated};

use script_definitions::line::ScriptLine;
use script_definitions::script::{ProvisionLine, Script, ScriptLife};
use script_generator::GeneratedScript;
use std::alloc::{AllocError, Global};

/// The lines of a life.
#[derive(Drop)]
pub enum LifeLines<'a> {
    /// They stand in the script.
    Held(&'a ScriptLife),
    /// They were made.
    Made(ScriptLife),
}

impl<'a> LifeLines<'a> {
    /// The lines.
    pub fn as_slice(&self) -> &[ScriptLine]
        ensures value { result.now ≡ lines_of self.now }
    {
        match self {
            LifeLines::Held(life) => life.as_slice(),
            LifeLines::Made(life) => life.as_slice(),
        }
    }
}

/// Where the lives of a script come from.
pub trait LifeSource {
    // The script.
    ghost script: { Self → Said };

    /// What its line `provision` says.
    fn node(&self) -> ProvisionLine
        ensures value { result ≡ (script self.now).provision };

    /// How many lives there are.
    fn count(&self) -> usize
        ensures value { result ≡ length (script self.now).lives };

    /// The lines of the life at this place, from 0 on.
    ///
    /// # Errors
    ///
    /// `AllocError` where there is no memory.
    fn lines(&self, alloc: Global, i: usize) -> Result<LifeLines<'_>, AllocError>
        requires place { i < length (script self.now).lives }
        ensures value { IfOk result (λ lines. lines_of lines ≡ slice_index_or (script self.now).lives i []) };
}

/// A script that was read, in which its lives stand.
impl LifeSource for Script {
    ghost script = { λ script. script };

    fn node(&self) -> ProvisionLine {
        self.provision
    }

    fn count(&self) -> usize {
        self.lives.as_slice().len()
    }

    fn lines(&self, _alloc: Global, i: usize) -> Result<LifeLines<'_>, AllocError> {
        Ok(LifeLines::Held(&self.lives.as_slice()[i]))
    }
}

/// A script that is generated, whose lives are made as they are asked for.
impl LifeSource for GeneratedScript {
    ghost script = { λ numbers. generated numbers.count numbers.start };

    fn node(&self) -> ProvisionLine {
        self.provision_line()
    }

    fn count(&self) -> usize {
        self.lives()
    }

    fn lines(&self, alloc: Global, i: usize) -> Result<LifeLines<'_>, AllocError> {
        Ok(LifeLines::Made(self.life(alloc, i)?))
    }
}
