// What the programs share at their edges: a read that fills a buffer, and which of the two streams failed.

#![tactic(auto)]

ghost use Rattle.std.specs.Io.{ReadsAtMost};
ghost use Rattle.program_io.specs.Reading.{Filled};

use std::io;
use std::io::Read;
use thiserror::Error;

// What failed: a read of standard input or a write to standard output.
#[derive(Debug, Drop, Error)]
pub enum Failure {
    #[error("standard input: {0}")]
    Input(io::Error),
    #[error("standard output: {0}")]
    Output(io::Error),
}

// Reads until the buffer is full, the input ends or a read fails; how many bytes. The place moves by what each read gave:
// the library's `read_exact` does not say how much there was, and reads again after an interrupted read.
pub fn read_full<R: Read>(input: &mut R, buffer: &mut [u8]) -> io::Result<usize>
    ensures bound { ReadsAtMost result buffer.new }
    ensures bytes { Filled (R.remaining input.old) (R.remaining input.new) result buffer.new }
{
    let mut at = 0;
    while at < buffer.len() {
        match input.read(&mut buffer[at..])? {
            0 => break,
            count => at += count,
        }
    }
    Ok(at)
}
