//! The verdict of an audit, and its line.
#![tactic(auto, using(std::proofs::Common::append_assoc))]

ghost use Rattle.std.specs.Prelude.{◌≡◌, ◌++◌, IfOk, OnOk, codes};
ghost use Rattle.std.specs.Fmt.{decimal};
ghost use Rattle.audit_definitions.specs.Verdicts.{verdict_text};

use report_lines::LineText;
use std::alloc::{AllocError, Global};

/// The verdict of an audit. Lines are those of the input, counted from 1.
#[derive(Clone, Copy, Debug, PartialEq, Eq)]
pub enum Verdict {
    /// Nothing is wrong.
    Sound {
        /// How many lines the input has.
        lines: u32,
    },
    /// A nonce was used twice: by these two lines.
    Reuse {
        /// The line before.
        a: u32,
        /// The line at which it shows.
        b: u32,
    },
    /// A message was accepted twice: by these two lines.
    Twice {
        /// The line before.
        a: u32,
        /// The line at which it shows.
        b: u32,
    },
    /// The octets of a line aren't those of the network PDU that it tells, under any key given.
    Bad {
        /// The line.
        line: u32,
    },
}

/// A word and two numbers.
fn push_two(text: &mut LineText, word: &[u8], a: u32, b: u32) -> Result<(), AllocError>
    ensures ok { OnOk result (text.new ≡ text.old ++ (word.now ++ decimal a ++ codes " " ++ decimal b)) }
{
    text.push(word)?;
    text.push_decimal(u64::from(a))?;
    text.push(b" ")?;
    text.push_decimal(u64::from(b))
}

/// A word and a number.
fn push_one(text: &mut LineText, word: &[u8], n: u32) -> Result<(), AllocError>
    ensures ok { OnOk result (text.new ≡ text.old ++ (word.now ++ decimal n)) }
{
    text.push(word)?;
    text.push_decimal(u64::from(n))
}

/// The line of a verdict, with its LF: `sound N`, `reuse A B`, `twice A B` or `bad B`.
pub fn write_verdict(alloc: Global, verdict: &Verdict) -> Result<LineText, AllocError>
    ensures value { IfOk result (λ text. text ≡ verdict_text verdict.now) }
{
    let mut text = LineText::new(alloc);
    match verdict {
        Verdict::Sound { lines } => push_one(&mut text, b"sound ", *lines)?,
        Verdict::Reuse { a, b } => push_two(&mut text, b"reuse ", *a, *b)?,
        Verdict::Twice { a, b } => push_two(&mut text, b"twice ", *a, *b)?,
        Verdict::Bad { line } => push_one(&mut text, b"bad ", *line)?,
    }
    text.push(b"\n")?;
    Ok(text)
}
