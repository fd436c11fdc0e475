// This module reads the program's arguments.
ghost use Rattle.std.specs.Prelude.{◌≤◌, length, IfSome};

use std::env::FillError;
use std::rt::Env;

// An argument is read into this many bytes, which hold any path.
pub(crate) const ARGUMENT_BYTES: usize = 4096;

// Returns how many arguments the program was started with, its own name among them.
pub(crate) fn argument_count(rt: &HostRuntime) -> usize {
    let mut none = [0u8; 0];
    for i in 0..usize::MAX {
        if let Err(FillError::NotPresent) = rt.arg(i, &mut none) {
            return i;
        }
    }
    usize::MAX
}

// Returns argument i, which is read into `word`, or None if it is missing or too long for `word`.
pub(crate) fn argument<'a>(rt: &HostRuntime, i: usize, word: &'a mut [u8]) -> Option<&'a [u8]>
    ensures { IfSome result (λ a. length a.now ≤ length word.old) }
{
    let n = rt.arg(i, word).ok()?;
    Some(&word[..n])
}
