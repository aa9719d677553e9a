// The square root by hand (docs/01-scope.md, "The root by hand"): reads bit patterns from standard input, words of
// eight hexadecimal digits, and writes the sheet of each to standard output as soon as its word ends. A word that is no
// pattern is told by its number. What fails is said on standard error.

#![tactic(auto)]

mod word;

use crate::word::{Word, is_blank};
use program_io::Failure;
use std::env::{Env, FillError};
use std::io::{Read, Write};
use std::{io, mem};

fn write_sheet(output: &mut impl Write, bits: u32) -> io::Result<()> {
    let mut text = [0u8; 4096];
    let n = root_sheet::sheet(bits, &mut text);
    output.write_all(&text[..n])
}

fn write_refused(output: &mut impl Write, number: u32) -> io::Result<()> {
    writeln!(
        output,
        "word {number} refused: a pattern has eight hexadecimal digits"
    )
}

// How far the input is read: the word that is being read, and how many have ended.
#[derive(Drop)]
struct Reading {
    word: Word,
    ended: u32,
}

impl Reading {
    // The word has ended: answers it, where there is one.
    fn end(&mut self, output: &mut impl Write) -> io::Result<()> {
        let word = mem::replace(&mut self.word, Word::EMPTY);
        if let Word::Digits { count: 0, .. } = word {
            return Ok(());
        }
        self.ended = self.ended.saturating_add(1);
        match word {
            Word::Digits { count: 8, bits } => write_sheet(output, bits),
            _ => write_refused(output, self.ended),
        }
    }

    // Reads on. The word is in a local until it or the block ends: in `self`, byte by byte, a long one costs a third more.
    fn read(&mut self, output: &mut impl Write, bytes: &[u8]) -> io::Result<()> {
        let mut word = self.word;
        for byte in bytes {
            if is_blank(*byte) {
                self.word = word;
                self.end(output)?;
                word = Word::EMPTY;
            } else {
                word = word.longer(*byte);
            }
        }
        self.word = word;
        Ok(())
    }
}

// Whether a word follows the program's name. It stands in each program that asks: a public function has a contract, and
// of what the environment has none can be written that a wrong program would break.
fn has_argument(rt: &impl Env) -> bool {
    !matches!(rt.arg(1, &mut []), Err(FillError::NotPresent))
}

fn usage(rt: &impl Eprint) -> io::Result<()> {
    eprint!(rt;
        "usage: root_by_hand < FILE\nReads patterns of eight hexadecimal digits and writes how each root is found.\n"
    )
}

// Reads to the end, a block at a time; the last word may end with the input. A proved loop has to end, and nothing says
// that the input does: the turns are of a number that no run uses up. Fixed memory, and no heap.
fn read_all(input: &mut impl Read, output: &mut impl Write) -> Result<(), Failure> {
    let mut buffer = [0u8; 4096];
    let mut reading = Reading {
        word: Word::EMPTY,
        ended: 0,
    };
    for _ in 0..u64::MAX {
        let n = input.read(&mut buffer).map_err(Failure::Input)?;
        if n == 0 {
            break;
        }
        reading.read(output, &buffer[..n]).map_err(Failure::Output)?;
    }
    reading.end(output).map_err(Failure::Output)
}

fn main(rt: HostRuntime) -> io::Result<()> {
    if has_argument(&rt) {
        return usage(&rt);
    }
    match read_all(&mut rt.stdin(), &mut rt.stdout()) {
        Ok(()) => Ok(()),
        Err(failure) => eprintln!(rt; "root_by_hand: {failure}"),
    }
}
