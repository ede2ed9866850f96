// A file's bytes by its name.
#![tactic(auto)]

ghost use Rattle.std.specs.Prelude.{◌≡◌, ◌≤◌, length, take};
ghost use Rattle.std.specs.Io.{ReadsAtMost};

use std::fs::File;
use std::io;
use std::io::{ErrorKind, Read};
use std::rt::Files;
use std::str::from_utf8;

// Reads the front of a file into `bytes` and gives back how many there are: none of a file that cannot be read, which is empty by RULES 11.1.
pub fn read_file(files: &impl Files, path: &[u8], bytes: &mut [u8]) -> usize
    ensures in_bounds { result ≤ length bytes.new }
    ensures front { result ≡ length (take result bytes.new) }
{
    read_front(files, path, bytes).unwrap_or(0)
}

// Reads the front of a file, and then a byte more, so that a failure after the front is found. At the end of a file none is found.
fn read_front(files: &impl Files, path: &[u8], bytes: &mut [u8]) -> io::Result<usize>
    ensures { ReadsAtMost result bytes.new }
{
    let mut file = open_read(files, path)?;
    let end = read_full(&mut file, bytes)?;
    file.read(&mut [0u8; 1])?;
    Ok(end)
}

// A file's name is text. Bytes that are not text name no file.
fn open_read<R: Files>(files: &R, path: &[u8]) -> io::Result<R::File> {
    let name = from_utf8(path).map_err(|_| io::Error::from(ErrorKind::InvalidInput))?;
    File::open(files, name)
}

// Reads until `bytes` is full or the file ends, and gives back how many bytes were read.
// std's `read_exact` gives no count where the file ends early, and its `read_to_end` allocates.
fn read_full(file: &mut impl Read, bytes: &mut [u8]) -> io::Result<usize>
    ensures { ReadsAtMost result bytes.new }
{
    let mut done = 0;
    while done < bytes.len() {
        let n = file.read(&mut bytes[done..])?;
        if n == 0 {
            break;
        }
        done += n;
    }
    Ok(done)
}
