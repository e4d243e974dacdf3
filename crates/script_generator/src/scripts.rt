//! Generated scripts, whose lives are made one at a time.
#![tactic(auto, using(crate::proofs::Growing::number_more, crate::proofs::Growing::lines_more, crate::proofs::Growing::lives_are))]

ghost use Rattle.std.specs.Prelude.{◌≡◌, ℕ, ◌<◌, ◌≤◌, ◌+◌, ◌-◌, ◌*◌, ◌^◌, [], length, min, slice_index_or, IfOk};
ghost use Rattle.script_definitions.specs.Ranges.{IsScriptOf};
ghost use Rattle.script_definitions.specs.declared.kind.Grammar.TheVariants as Grammars;
ghost use Rattle.script_generator.specs.Generated.{generated, life_at, lives_of, number_at, provision_line};

use crate::lines::{line, next_number, provision};
use script_definitions::script::{ProvisionLine, ScriptLife};
use std::alloc::{AllocError, Global};

/// The lines of a life.
const LIFE_LINES: u32 = 4_096;

/// A script that follows from two numbers. Each life has 4,096 lines, and the last one what is left.
#[derive(Clone, Copy, Debug, PartialEq, Eq)]
pub struct GeneratedScript {
    /// How many lines of bearers it has.
    pub count: u32,
    /// The number behind which those of its lines begin.
    pub start: u32,
}

impl GeneratedScript {
    /// The node's data.
    pub fn provision_line(&self) -> ProvisionLine
        ensures value { result ≡ provision_line }
    {
        provision()
    }

    /// How many lives it has.
    pub fn lives(&self) -> usize
        ensures value { result ≡ length (lives_of self.now.count self.now.start) }
    {
        self.count.div_ceil(LIFE_LINES) as usize
    }

    /// The number of the line at this place, from 1 on.
    fn number_at(&self, place: u32) -> u32
        ensures value { result ≡ number_at self.now.start place }
    {
        let mut number = self.start;
        for _ in 0..place {
            number = next_number(number);
        }
        number
    }

    /// How many lines the life behind so many lines has.
    fn lines_behind(&self, done: u32) -> u32
        requires within { done ≤ self.now.count }
        ensures value { result ≡ min 4096 (self.now.count - done) }
    {
        LIFE_LINES.min(self.count - done)
    }

    /// The lines of the life at this place, from 0 on, where lines are left for it.
    fn make_life(&self, alloc: Global, i: usize) -> Result<ScriptLife, AllocError>
        requires place { 4096 * i < self.now.count }
        ensures value { IfOk result (λ lines. lines ≡ life_at self.now.count self.now.start i) }
    {
        let first = i as u32 * LIFE_LINES;
        let mut number = self.number_at(first);
        let mut life = ScriptLife::new(alloc);
        for at in 0..self.lines_behind(first) {
            number = next_number(number);
            life.push(line(first + at + 1, number))?;
        }
        Ok(life)
    }

    /// The lines of the life at this place, from 0 on. They are made anew each time, and the numbers before them too.
    ///
    /// # Errors
    ///
    /// `AllocError` where there is no memory.
    pub fn life(&self, alloc: Global, i: usize) -> Result<ScriptLife, AllocError>
        requires place { i < length (lives_of self.now.count self.now.start) }
        ensures value { IfOk result
            (λ lines. lines ≡ slice_index_or (lives_of self.now.count self.now.start) i []) }
    {
        self.make_life(alloc, i)
    }
}

/// A generated script of at most 32,768 lines is a script. It does nothing.
pub fn generated_law()
    ensures read { (count start : ℕ) → count ≤ 32768 → start < 2 ^ 32
        → IsScriptOf Grammars.Node (generated count start) }
{}
