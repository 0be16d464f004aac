// Files that are read to their end.
ghost use Rattle.std.specs.Prelude.{◌≤◌, length, IfOk, IsUtf8};

use crate::arguments::{NAME_SPACE, argument};
use crate::saying::say_why;
use std::fs::OpenOptions;
use std::io::{Error, ErrorKind, Print, Read};
use std::rt::{Env, Files};
use std::{io, str};

// Reads to the end of the file or of the space, or until a read fails, which is the caller's to say (`say_why`), and
// answers how many octets stand at the front of the space then.
pub fn read_all(file: &mut impl Read, space: &mut [u8]) -> io::Result<usize>
    ensures { IfOk result (λ n. n ≤ length space.new) }
{
    let mut at: usize = 0;
    while at < space.len() {
        let n = file.read(&mut space[at..])?;
        if n == 0 {
            break;
        }
        at += n;
    }
    Ok(at)
}

// Opens the file of that name. The library opens none by a name that is no text in UTF-8.
pub fn open<R: Files>(rt: &R, how: &OpenOptions, name: &[u8]) -> io::Result<R::File>
    ensures { IfOk result (λ file. IsUtf8 name.now) }
{
    match str::from_utf8(name) {
        Ok(path) => how.open(rt, path),
        Err(_) => Err(Error::from(ErrorKind::InvalidFilename)),
    }
}

// Reads the file of that name into the space.
fn read_named(rt: &impl Files, name: &[u8], space: &mut [u8]) -> io::Result<usize>
    ensures { IfOk result (λ n. n ≤ length space.new) }
{
    let mut how = OpenOptions::new();
    how.read(true);
    read_all(&mut open(rt, &how, name)?, space)
}

// The same, and says on standard error why it cannot.
fn load_named(
    rt: &impl Files,
    errors: &impl Print,
    name: &[u8],
    space: &mut [u8],
) -> io::Result<usize>
    ensures { IfOk result (λ n. n ≤ length space.new) }
{
    read_named(rt, name, space).inspect_err(|error| say_why(errors, name, *error))
}

// Reads the file that argument i names. Where it cannot, it says why on standard error.
pub fn load(
    rt: &(impl Env + Files),
    errors: &impl Print,
    i: usize,
    space: &mut [u8],
) -> io::Result<usize>
    ensures { IfOk result (λ n. n ≤ length space.new) }
{
    let mut name = octets::zeros::<NAME_SPACE>();
    let n = argument(rt, i, &mut name).inspect_err(|error| say_why(errors, b"file name", *error))?;
    load_named(rt, errors, &name[..n], space)
}
