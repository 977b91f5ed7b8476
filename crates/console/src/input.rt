// Input, read into a lent buffer.
ghost use Rattle.std.specs.Prelude.{◌≤◌, length};
ghost use Rattle.console.specs.Input.{read_in};

use std::io::{self, Read};

// Reads into the buffer until it is full or the input ends, and answers how many bytes were read.
pub fn read_input<R: Read>(reader: &mut R, buffer: &mut [u8]) -> io::Result<usize>
    ensures { read_in result ≤ length buffer.new }
{
    let mut done = 0;
    // A read may give fewer bytes than asked, so the loop moves on by what it gave.
    while done < buffer.len() {
        let count = reader.read(&mut buffer[done..])?;
        if count == 0 {
            break;
        }
        done += count;
    }
    Ok(done)
}
