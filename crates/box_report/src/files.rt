// Reading a file, so that one that fails half-way is told from a short one.
ghost use Rattle.std.specs.Prelude.{length, ◌≤◌, IfOk, IfSome};

use std::fs::File;
use std::io::ErrorKind;
use std::{io, str};
use streams::{read_full, say_error};

// Opens a file to be read.
fn open(rt: &HostRuntime, name: &[u8]) -> io::Result<File> {
    let path = str::from_utf8(name).map_err(|_| io::Error::new(
        ErrorKind::InvalidFilename,
        "The name is not UTF-8 text",
    ))?;
    File::open(rt, path)
}

// Reads until the area is full or the file ends.
fn read_all(rt: &HostRuntime, name: &[u8], area: &mut [u8]) -> io::Result<usize>
    ensures { IfOk result (λ n. n ≤ length area.new) }
{
    let mut file = open(rt, name)?;
    read_full(&mut file, area)
}

// Reads a file by its name. Says why where that cannot be done, and then there is none.
pub(crate) fn read_file(rt: &HostRuntime, name: &[u8], area: &mut [u8]) -> io::Result<Option<usize>>
    ensures { IfOk result (λ r. IfSome r (λ n. n ≤ length area.new)) }
{
    match read_all(rt, name, area) {
        Ok(n) => Ok(Some(n)),
        Err(e) => {
            say_error(&mut rt.stderr(), name, &e)?;
            Ok(None)
        }
    }
}
