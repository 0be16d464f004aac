// The arguments that a program was started with.
ghost use Rattle.std.specs.Prelude.{◌≤◌, length, IfOk};
ghost use Rattle.streams.specs.Reading.{SaysNumber};

use std::env::FillError;
use std::io;
use std::io::Error;
use std::rt::Env;

// The system's numbers of an argument that is missing, and of one that is longer than the space.
const INVALID: i32 = 22;

const TOO_LONG: i32 = 36;

// Space of so many octets holds any name of a file.
pub const NAME_SPACE: usize = 4096;

fn is_given(rt: &impl Env, i: usize) -> bool {
    let mut none = [0u8; 1];
    !matches!(rt.arg(i, &mut none), Err(FillError::NotPresent))
}

// How many arguments the program was started with, its own name among them; `most` where there are more.
pub fn arg_count(rt: &impl Env, most: usize) -> usize
    ensures { result ≤ most }
{
    for i in 0..most {
        if !is_given(rt, i) {
            return i;
        }
    }
    most
}

// Puts argument i at the front of the space. It cannot where there is no such argument, or one that is longer.
pub fn argument(rt: &impl Env, i: usize, space: &mut [u8]) -> io::Result<usize>
    ensures { IfOk result (λ n. n ≤ length space.new) }
{
    rt.arg(i, space).map_err(|error| match error {
        FillError::NotPresent => Error::from_raw_os_error(INVALID),
        FillError::TooLong => Error::from_raw_os_error(TOO_LONG),
    })
}

// Puts argument i at the front of the space, and answers the number that it says.
pub fn number_argument(rt: &impl Env, i: usize, space: &mut [u8]) -> Option<u32>
    ensures { SaysNumber space.new result }
{
    let n = argument(rt, i, space).ok()?;
    texts::decimal_of(&space[..n])
}
