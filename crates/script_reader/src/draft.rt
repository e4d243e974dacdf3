//! The script that the lines read so far are.
#![tactic(auto)]

ghost use Rattle.std.specs.Prelude.{◌≡◌, ◌==◌, ◌≤◌, ◌<◌, [], length, count_by, IfOk, IsTrue};
ghost use Rattle.std.specs.List.{list_any};
ghost use Rattle.script_definitions.specs.Lives.{last_life};
ghost use Rattle.script_definitions.specs.Reading.{is_arm, is_bearer_line, with_life, with_line, with_counted};
ghost use Rattle.script_definitions.specs.Ranges.{IsCounted, IsLine, IsProvision, IsScriptOf};

use crate::counted::Rule;
use node_limits::{BEARER_LINES, LIVES};
use script_definitions::kind::Grammar;
use script_definitions::line::{CountedLine, ScriptLine};
use script_definitions::script::{ProvisionLine, Script, ScriptLives};
use std::alloc::{AllocError, Global};
use std::marker::Model;

/// A script so far. A clause sees the script.
#[derive(Drop)]
pub struct Draft {
    script: Script,
    /// Whether the last life has an `arm`.
    armed: bool,
    /// How many lines of bearers the last life has.
    events: u32,
}

impl Model for Draft {
    ghost use Rattle.std.specs.Prelude.{◌≡◌, ◌≤◌, count_by};
    ghost use Rattle.std.specs.List.{list_any};
    ghost use Rattle.script_definitions.specs.Lives.{last_life};
    ghost use Rattle.script_definitions.specs.Reading.{is_arm, is_bearer_line};
    ghost use Rattle.script_definitions.specs.declared.script.Script.{Script};

    ghost Value = { Script };

    ghost view = { λ d. d.script };

    ghost invariant = { λ d. (d.armed ≡ list_any is_arm (last_life d.script.lives))
        × (d.events ≡ count_by is_bearer_line (last_life d.script.lives)) };
}

/// Whether a line is an `arm`.
fn is_arm(line: &ScriptLine) -> bool
    ensures value { result ≡ is_arm line.now }
{
    match line {
        ScriptLine::Arm(_) => true,
        _ => false,
    }
}

/// Whether a line is one of a bearer.
fn is_bearer_line(line: &ScriptLine) -> bool
    ensures value { result ≡ is_bearer_line line.now }
{
    match line {
        ScriptLine::Sync | ScriptLine::Arm(_) => false,
        _ => true,
    }
}

impl Draft {
    /// A script without lives.
    pub fn new(alloc: Global, provision: ProvisionLine) -> Draft
        ensures value { result ≡ record { provision = provision; lives = [] } }
    {
        Draft {
            script: Script {
                provision,
                lives: ScriptLives::new(alloc),
            },
            armed: false,
            events: 0,
        }
    }

    /// How many elements the node has.
    pub fn elements(&self) -> u8
        ensures value { result ≡ self.now.provision.elements }
    {
        self.script.provision.elements
    }

    /// The script.
    pub fn into_script(self) -> Script
        ensures value { result ≡ self }
    {
        let Draft { script, .. } = self;
        script
    }

    /// The script with one more life, or the rule that fails.
    #[tactic(auto, unfolding(script_definitions::specs::Reading::with_life))]
    fn with_life(self, alloc: Global) -> Result<Result<Draft, Rule>, AllocError>
        ensures value { IfOk result (λ r. r ≡ with_life self) }
    {
        let Draft { mut script, .. } = self;
        if script.lives.as_slice().len() == LIVES {
            return Ok(Err(7));
        }
        script.lives.begin(alloc)?;
        Ok(Ok(Draft {
            script,
            armed: false,
            events: 0,
        }))
    }

    /// The script with one more line in its last life, or the rule that fails.
    #[tactic(auto, unfolding(script_definitions::specs::Reading::with_line))]
    fn with_line(self, line: ScriptLine) -> Result<Result<Draft, Rule>, AllocError>
        ensures value { IfOk result (λ r. r ≡ with_line self line) }
    {
        let Draft {
            mut script,
            armed,
            events,
        } = self;
        let arm = is_arm(&line);
        let event = is_bearer_line(&line);
        if script.lives.as_slice().len() == 0 || (arm && armed) {
            return Ok(Err(6));
        }
        if event && events as usize >= BEARER_LINES {
            return Ok(Err(7));
        }
        script.lives.push_line(line)?;
        Ok(Ok(Draft {
            script,
            armed: armed || arm,
            events: if event { events + 1 } else { events },
        }))
    }

    /// The script with one more line, or the rule that fails.
    pub fn with_counted(
        self,
        alloc: Global,
        line: CountedLine,
    ) -> Result<Result<Draft, Rule>, AllocError>
        ensures value { IfOk result (λ r. r ≡ with_counted self line) }
    {
        match line {
            CountedLine::Provision(_) => Ok(Err(6)),
            CountedLine::Life => self.with_life(alloc),
            CountedLine::Line(line) => self.with_line(line),
        }
    }
}
