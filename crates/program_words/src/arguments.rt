//! The words of the command line as the system gives them.
ghost use Rattle.std.specs.Prelude.{◌≡◌};
ghost use Rattle.program_words.specs.declared.arguments.ArgumentFault.TheVariants as faults;

use copy_text::Text;
use std::alloc::{AllocError, Global};
use std::env::{Env, FillError};

/// How many bytes of a word are asked for at first.
const ROOM: usize = 256;

/// Why the words weren't read.
#[derive(Drop)]
pub enum ArgumentFault {
    /// This word, counted from 0, is the first that isn't UTF-8.
    NotText(usize),
    /// Memory ran out.
    Memory,
}

impl From<AllocError> for ArgumentFault {
    ghost from_gives = { λ _ fault. fault ≡ faults.Memory };

    fn from(_error: AllocError) -> ArgumentFault {
        ArgumentFault::Memory
    }
}

/// The words behind the program's name.
pub fn read_arguments<R: Env>(alloc: Global, env: &R) -> Result<Vec<Text>, ArgumentFault> {
    let mut words = Vec::new(alloc);
    for word in 0..usize::MAX {
        let Some(bytes) = read_argument(alloc, env, word + 1)? else {
            break;
        };
        let Some(text) = Text::new(bytes) else {
            return Err(ArgumentFault::NotText(word));
        };
        words.push(text).map_err(AllocError::from)?;
    }
    Ok(words)
}

/// The bytes of an argument; `None` behind the last one.
fn read_argument<R: Env>(
    alloc: Global,
    env: &R,
    number: usize,
) -> Result<Option<Vec<u8>>, AllocError> {
    let mut room = ROOM;
    for _ in 0..u64::MAX {
        let mut bytes = vec![in alloc; 0u8; room]?;
        match env.arg(number, bytes.as_mut_slice()) {
            Ok(len) => {
                bytes.truncate(len);
                return Ok(Some(bytes));
            }
            Err(FillError::NotPresent) => return Ok(None),
            Err(FillError::TooLong) => room = room.checked_mul(2).ok_or(AllocError)?,
        }
    }
    Err(AllocError)
}
