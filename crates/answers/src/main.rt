// Answers a stream of calls of the library's public functions (docs/TESTING.md, "The stream"): reads the calls from
// standard input, block by block, and writes the answers of each block to standard output. Its calls and the answers
// that it must give are the frozen list (docs/TESTING.md), which tests/freeze makes with the oracle.

#![tactic(auto)]

ghost use Rattle.io.specs.Counts.{IsPrefixLen};

mod calls;
mod points;
mod roots;
mod safe_time;
mod scaling;
mod sizes;
mod words;

use crate::words::{Answer, Call};
use program_io::read_full;
use std::io;
use std::io::{Read, Write};

// How many bytes a block of calls has, and its answers at most: fixed memory, and no heap.
const BLOCK: usize = 65536;

// Answers the calls of one block, and says how many bytes the answers take. The calls end with the block, at a word
// that is no function's number, or where there is no room for an answer.
fn answer_block(block: &[u8], out: &mut [u8]) -> usize
    ensures { IsPrefixLen result out.new }
{
    let mut calls = block;
    let mut to = 0;
    while let Some((word, arguments)) = calls.split_first_chunk() {
        let function = u32::from_le_bytes(*word);
        let Some(sizes) = sizes::of(function) else {
            break;
        };
        if out.len() - to < sizes.answer {
            break;
        }
        let mut answer = Answer::of(&mut out[to..to + sizes.answer]);
        calls::answer(function, &mut Call::of(arguments), &mut answer);
        calls = calls.get(sizes.call..).unwrap_or(&[]);
        to += sizes.answer;
    }
    to
}

// Reads a block and writes its answers. Says whether to go on.
fn answer_some(input: &mut impl Read, output: &mut impl Write) -> io::Result<bool> {
    let mut block = [0u8; BLOCK];
    let n = read_full(input, &mut block)?;
    if n == 0 {
        return Ok(false);
    }
    let mut out = [0u8; BLOCK];
    let m = answer_block(&block[..n], &mut out);
    output.write_all(&out[..m])?;
    Ok(true)
}

// A proved loop has to end, and nothing says that the input does: the turns are of a number that no run uses up.
fn main(rt: HostRuntime) -> io::Result<()> {
    let mut input = rt.stdin();
    let mut output = rt.stdout();
    for _ in 0..u64::MAX {
        if !answer_some(&mut input, &mut output)? {
            break;
        }
    }
    Ok(())
}
