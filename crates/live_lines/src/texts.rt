//! What is told of a line that is wrong, and of one that isn't ended.
#![tactic(auto, using(std::proofs::Common::append_assoc))]

ghost use Rattle.std.specs.Prelude.{◌≡◌, IfOk};
ghost use Rattle.live_lines.specs.Texts.{shown, unended_text, wrong_text};

use report_lines::LineText;
use script_reader::counted::Rule;
use std::alloc::{AllocError, Global};

/// The first word of a line as it is shown: up to 40 octets, of which those that are printable.
fn shown(alloc: Global, line: &[u8]) -> Result<Vec<u8>, AllocError>
    ensures value { IfOk result (λ word. word.items ≡ shown line.now) }
{
    line.iter()
        .take(40)
        .take_while(|b| **b != b' ')
        .filter(|b| **b >= 0x20 && **b <= 0x7e)
        .copied()
        .collect(alloc)
}

/// `line N: rule R: WORD` of a line with this number that fails by this rule, with an LF behind it. WORD is its first word, up to 40 octets of it.
#[tactic(auto, unfolding(crate::specs::Texts::wrong_text), using(std::proofs::Common::append_assoc))]
pub fn wrong_text(
    alloc: Global,
    number: u64,
    rule: Rule,
    line: &[u8],
) -> Result<LineText, AllocError>
    ensures value { IfOk result (λ text. text ≡ wrong_text number rule line.now) }
{
    let word = shown(alloc, line)?;
    let mut text = LineText::new(alloc);
    text.push(b"line ")?;
    text.push_decimal(number)?;
    text.push(b": rule ")?;
    text.push_decimal(u64::from(rule))?;
    text.push(b": ")?;
    text.push(word.as_slice())?;
    text.push(b"\n")?;
    Ok(text)
}

/// `line N: not ended` of a line with this number that has no LF, with an LF behind it.
#[tactic(auto, unfolding(crate::specs::Texts::unended_text), using(std::proofs::Common::append_assoc))]
pub fn unended_text(alloc: Global, number: u64) -> Result<LineText, AllocError>
    ensures value { IfOk result (λ text. text ≡ unended_text number) }
{
    let mut text = LineText::new(alloc);
    text.push(b"line ")?;
    text.push_decimal(number)?;
    text.push(b": not ended\n")?;
    Ok(text)
}
