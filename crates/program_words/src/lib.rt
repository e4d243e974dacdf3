//! The words that a program was started with: its arguments, without its name.
#![tactic(auto)]

ghost use Rattle.std.specs.Prelude.{◌≡◌, map, string_bytes, IfOk};

use std::alloc::{AllocError, Global};
use std::env::Env;
use std::{env, io};

/// Why there are no words.
#[derive(Clone, Copy, Debug, PartialEq, Eq)]
pub enum NoWords {
    /// An argument isn't text, and so no word of a command.
    NotText,
    /// There was no memory.
    Memory,
}

/// The arguments of the program, without its name, as the system gives them.
fn read_arguments<R: Env + AllocGlobal>(rt: &R) -> io::Result<Vec<String>> {
    let mut arguments = Vec::new(rt.alloc());
    for argument in env::args(rt)?.skip(1) {
        arguments.push(argument)?;
    }
    Ok(arguments)
}

/// The arguments of the program, without its name.
///
/// # Errors
///
/// `NotText` where one isn't text; where there is no memory, `Memory`.
pub fn arguments_of<R: Env + AllocGlobal>(rt: &R) -> Result<Vec<String>, NoWords> {
    match read_arguments(rt) {
        Ok(arguments) => Ok(arguments),
        Err(error) if error.kind() == io::ErrorKind::InvalidData => Err(NoWords::NotText),
        Err(_) => Err(NoWords::Memory),
    }
}

/// Arguments as words.
///
/// # Errors
///
/// `AllocError` where there is no memory.
pub fn words_of(alloc: Global, arguments: &[String]) -> Result<Vec<&str>, AllocError>
    ensures value { IfOk result (λ v. map (λ w. w.now) v.items ≡ map (λ a. string_bytes a) arguments.now) }
{
    let mut words = Vec::new(alloc);
    for argument in arguments {
        words.push(argument.as_str())?;
    }
    Ok(words)
}
