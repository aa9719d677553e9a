// A test program: the square root of each bit pattern on standard input. A pattern is four bytes, lowest first; an
// answer is five: 0 and the root's pattern, or 1 and the refusal number. Bytes after the last whole pattern are left.
// What it must write is the processor's own root, and the refusals of docs/01-scope.md (tests/root_oracle.c, which also
// makes the longer run of tests/square_root).

#![tactic(auto)]

ghost use Rattle.std.specs.Prelude.{◌*◌, ◌/◌, ◌≡◌, ◌≤◌, length};
ghost use Rattle.io.specs.Counts.{IsPrefixLen};

use number::pattern::{bits_of, float_of};
use number::root;
use program_io::read_full;
use std::io;
use std::io::{Read, Write};

// The answer to a pattern.
fn answer(pattern: [u8; 4]) -> [u8; 5] {
    let (kind, word) = match root::square_root(float_of(u32::from_le_bytes(pattern))) {
        Ok(root) => (0, bits_of(root)),
        Err(refusal) => (1, u32::from(refusal)),
    };
    let [a, b, c, d] = word.to_le_bytes();
    [kind, a, b, c, d]
}

// The answers to the patterns of `input`, put at the start of `output`; how many bytes that are.
fn answer_all(input: &[u8], output: &mut [u8]) -> usize
    requires { 5 * length input.now ≤ 4 * length output.old }
    ensures prefix { IsPrefixLen result output.new }
    ensures five_for_four { result ≡ 5 * (length input.now / 4) }
{
    let (patterns, _) = input.as_chunks::<4>();
    let (answers, _) = output.as_chunks_mut::<5>();
    let mut answered = 0;
    for (pattern, place) in patterns.iter().zip(answers) {
        *place = answer(*pattern);
        answered += place.len();
    }
    answered
}

// One block of patterns, in fixed memory; whether there may be more.
fn turn(from: &mut impl Read, to: &mut impl Write) -> io::Result<bool> {
    let mut input = [0u8; 4096];
    let n = read_full(from, &mut input)?;
    let mut output = [0u8; 5120];
    let m = answer_all(&input[..n], &mut output);
    to.write_all(&output[..m])?;
    Ok(n == 4096)
}

// A proved loop has to end, and nothing says that the input does: the turns are of a number that no run uses up.
fn main(rt: HostRuntime) -> io::Result<()> {
    let mut from = rt.stdin();
    let mut to = rt.stdout();
    for _ in 0..u64::MAX {
        if !turn(&mut from, &mut to)? {
            break;
        }
    }
    Ok(())
}
