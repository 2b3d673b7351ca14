ghost use Rattle.std.specs.Prelude.{◌≡◌, IfOk, IfErr, OnOk, IsOk, map};
ghost use Rattle.dsm_top.specs.Plans.{texts};
ghost use Rattle.dsm_top.specs.CommandLine.{words_of};

use dsm_entry::entry::NoMemory;
use std::alloc::Global;
use std::env::{Env, FillError};

/// The status where there is no memory for the words.
const NO_MEMORY: u8 = 6;

/// Room for an argument at first, in bytes. It doubles until the argument fits.
const ROOM: usize = 64;

/// The words of these arguments, for the top call, or the exit status where there was no memory for the arguments or
/// for the words.
pub fn words(alloc: Global, arguments: Result<Vec<Vec<u8>>, NoMemory>) -> Result<Vec<String>, u8>
    ensures words { IfOk result (λ words. IfOk arguments (λ list. texts words.items ≡ words_of (map (λ a. a.items) list.items))) }
    ensures arguments { OnOk result (IsOk arguments) }
    ensures memory { IfErr result (λ status. status ≡ 6) }
{
    let Ok(arguments) = arguments else {
        return Err(NO_MEMORY);
    };
    match as_texts(alloc, arguments.as_slice()) {
        Ok(words) => Ok(words),
        Err(_) => Err(NO_MEMORY),
    }
}

/// Each argument but the first as text.
fn as_texts(alloc: Global, arguments: &[Vec<u8>]) -> Result<Vec<String>, NoMemory>
    ensures { IfOk result (λ words. texts words.items ≡ words_of (map (λ a. a.items) arguments.now)) }
{
    let mut words = Vec::new(alloc);
    let Some((_, others)) = arguments.split_first() else {
        return Ok(words);
    };
    for argument in others {
        words.push(String::from_utf8_lossy(alloc, argument.as_slice())?)?;
    }
    Ok(words)
}

/// The arguments of the program in order, the first of which is its name.
pub fn arguments<R: Env>(rt: &R, alloc: Global) -> Result<Vec<Vec<u8>>, NoMemory> {
    let mut all = Vec::new(alloc);
    for i in 0..usize::MAX {
        match argument(rt, alloc, i)? {
            Some(bytes) => all.push(bytes)?,
            None => break,
        }
    }
    Ok(all)
}

/// Argument `i`, from 0, where there is one.
fn argument<R: Env>(rt: &R, alloc: Global, i: usize) -> Result<Option<Vec<u8>>, NoMemory> {
    let mut bytes = vec![in alloc; 0u8; ROOM]?;
    // No memory has room for so many doublings.
    for _ in 0..usize::BITS {
        match rt.arg(i, bytes.as_mut_slice()) {
            Ok(count) => {
                bytes.truncate(count);
                return Ok(Some(bytes));
            }
            Err(FillError::NotPresent) => return Ok(None),
            Err(FillError::TooLong) => bytes.resize(bytes.len().saturating_mul(2), 0)?,
        }
    }
    Ok(None)
}
