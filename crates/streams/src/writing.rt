// Files that are written. No contract can say which octets a call of the system takes.
ghost use Rattle.std.specs.Prelude.{◌≡◌, length};
ghost use Rattle.streams.specs.Writing.{Delivered};

use crate::saying::say_why;
use std::io;
use std::io::{Print, Write};

// Writes the octets to the file, and answers whether it could. Where not, some of them may have been written, and
// standard error has a line: `what`, and why.
pub fn write_to(file: &mut impl Write, errors: &impl Print, octets: &[u8], what: &[u8]) -> bool
    ensures { Delivered (length octets.now) result }
{
    if octets.len() == 0 {
        return true;
    }
    match file.write_all(octets) {
        Ok(()) => true,
        Err(error) => {
            say_why(errors, what, error);
            false
        }
    }
}

// The same to standard output.
pub fn write_out(output: &impl Print, errors: &impl Print, octets: &[u8], what: &[u8]) -> bool
    ensures { Delivered (length octets.now) result }
{
    write_to(&mut io::writer(output), errors, octets, what)
}
