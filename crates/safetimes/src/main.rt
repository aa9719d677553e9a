// The safe times of a scene (docs/01-scope.md, "The scene file", "The listing"): reads a scene file from standard
// input and writes its listing to standard output. What fails is said on standard error. The listing that it must
// write is the example's, as docs/01-scope.md has it.

#![tactic(auto)]

use program_io::{Failure, read_full};
use std::env::{Env, FillError};
use std::io;
use std::io::{Read, Write};

// Whether a word follows the program's name. It stands in each program that asks: a public function has a contract, and
// of what the environment has none can be written that a wrong program would break.
fn has_argument(rt: &impl Env) -> bool {
    !matches!(rt.arg(1, &mut []), Err(FillError::NotPresent))
}

fn usage(rt: &impl Eprint) -> io::Result<()> {
    eprint!(rt;
        "usage: safetimes < FILE\nReads a scene file and writes the safe time of each of its pairs.\n"
    )
}

// Lists the scene that these bytes are.
fn list(output: &mut impl Write, bytes: &[u8]) -> io::Result<()> {
    let mut text = [0u8; 65536];
    let n = listing::listing(bytes, &mut text);
    output.write_all(&text[..n])
}

// Reads a scene and lists it. The buffer is longer than any scene file, so that a file that fills it is refused for its
// length; fixed memory, and no heap.
fn read_and_list(input: &mut impl Read, output: &mut impl Write) -> Result<(), Failure> {
    let mut buffer = [0u8; 65536];
    let n = read_full(input, &mut buffer).map_err(Failure::Input)?;
    list(output, &buffer[..n]).map_err(Failure::Output)
}

fn main(rt: HostRuntime) -> io::Result<()> {
    if has_argument(&rt) {
        return usage(&rt);
    }
    match read_and_list(&mut rt.stdin(), &mut rt.stdout()) {
        Ok(()) => Ok(()),
        Err(failure) => eprintln!(rt; "safetimes: {failure}"),
    }
}
