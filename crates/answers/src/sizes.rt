// How many bytes a call and its answer take, by the number of the function. A call has the word of that number before
// its arguments. Made of tests/calls.txt by tests/calls_written.py.
ghost use Rattle.std.specs.Prelude.{◌<◌, ◌≤◌, IfSome};

#[derive(Clone, Copy)]
pub(crate) struct Sizes {
    pub call: usize,
    pub answer: usize,
}

// None for a number that is no function's.
pub(crate) fn of(function: u32) -> Option<Sizes>
    ensures call { IfSome result (λ sizes. (0 < sizes.call) × (sizes.call ≤ 124)) }
    ensures answer { IfSome result (λ sizes. sizes.answer ≤ 104) }
{
    let (call, answer) = match function {
        1 => (8, 8),
        2 => (32, 16),
        3 => (104, 52),
        4 => (52, 52),
        5 => (56, 52),
        6 => (56, 24),
        7 => (56, 8),
        8 => (104, 104),
        9 => (16, 20),
        10 => (28, 20),
        11 => (100, 20),
        12 => (120, 20),
        13 => (124, 20),
        _ => return None,
    };
    Some(Sizes { call, answer })
}
