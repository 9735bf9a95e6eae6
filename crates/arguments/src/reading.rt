//! Reading the arguments.
ghost use Rattle.std.specs.Prelude.{◌≡◌, ◌∷◌, ◌++◌, ◌+◌, [], IfErr, IfOk, IfSome, length, map, string_bytes};
ghost use Rattle.std.specs.declared.option.Option.TheVariants.{None};
ghost use Rattle.arguments.specs.declared.refusal.ArgumentFault.TheVariants.{NotText};

use crate::Asked;
use crate::refusal::ArgumentFault;
use std::alloc::{AllocError as Memory, Global};
use std::env::FillError;
use std::rt::Env;

/// The size of the first buffer for an argument.
const FIRST_SIZE: usize = 256;

// The bytes of the argument at that place, if there is one. The buffer is doubled until they fit.
fn bytes_at<E: Env>(env: &E, alloc: Global, place: usize) -> Result<Option<Vec<u8>>, Memory> {
    let mut size = FIRST_SIZE;
    for _ in 0..usize::BITS {
        let mut bytes = vec![in alloc; 0u8; size]?;
        match env.arg(place, &mut bytes) {
            Ok(count) => {
                bytes.truncate(count);
                return Ok(Some(bytes));
            }
            Err(FillError::NotPresent) => return Ok(None),
            Err(FillError::TooLong) => size = size.saturating_mul(2),
        }
    }
    Err(Memory)
}

// The argument at the next place, if there is one: it is noted.
fn ask_at<E: Env>(
    env: &E,
    alloc: Global,
    asked: &mut Asked,
    place: usize,
) -> Result<Option<Vec<u8>>, Memory>
    requires { place ≡ length asked.old.words + 1 }
    ensures given { IfOk result (λ found. IfSome found
        (λ bytes. asked.new.words ≡ asked.old.words ++ bytes.items ∷ [])) }
    ensures none { IfOk result (λ found. found ≡ None → asked.new.words ≡ asked.old.words) }
{
    let found = bytes_at(env, alloc, place)?;
    if let Some(bytes) = &found {
        asked.note_at(place, bytes);
    }
    Ok(found)
}

// The argument at that place, with these bytes, as a text.
fn text_of(place: usize, bytes: Vec<u8>) -> Result<String, ArgumentFault>
    ensures text { IfOk result (λ text. string_bytes text ≡ bytes.items) }
    ensures refusal { IfErr result (λ refusal. refusal ≡ NotText place bytes) }
{
    match String::from_utf8(bytes) {
        Ok(text) => Ok(text),
        Err(error) => {
            let bytes = error.into_bytes();
            Err(ArgumentFault::NotText { place, bytes })
        }
    }
}

/// The arguments, without the name of the program, with what the runtime gave.
#[derive(Drop)]
pub struct Arguments {
    /// The words.
    pub words: Vec<String>,
    /// What the runtime gave, place by place.
    pub asked: Asked,
}

/// The arguments, without the name of the program: all that the runtime gave, from place 1 on, in
/// order. That a call of the runtime gives the argument at the place that it is asked for is the
/// runtime's to keep, and no clause says that the last one was asked for.
pub fn read_arguments<E: Env>(env: &E, alloc: Global) -> Result<Arguments, ArgumentFault>
    ensures all { IfOk result
        (λ read. map string_bytes read.words.items ≡ read.asked.words) }
{
    let mut words = Vec::new(alloc);
    let mut asked = Asked::new();
    'asking: for place in 1..usize::MAX {
        let Some(bytes) = ask_at(env, alloc, &mut asked, place)? else {
            return Ok(Arguments { words, asked });
        };
        let word = text_of(place, bytes)?;
        if words.push(word).is_err() {
            return Err(ArgumentFault::Memory);
        }
    }
    Ok(Arguments { words, asked })
}
