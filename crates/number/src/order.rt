// Absolute value, smaller, larger, clamp, a zero as it is written, and the next f32 down (docs/01-scope.md, "Number
// helpers"). The definitions say which of equals is answered, and what of a NaN: the library's `min` and `max` leave the
// first open, its `clamp` asks for ends in order, its `next_down` is of any number and would stand behind the same test,
// and `written` it does not have. With its `abs` a walk takes 7 % longer for edges, and 12 % for a face and a vertex.
ghost use Rattle.std.specs.Prelude.{◌≡◌};
ghost use Rattle.number.specs.Number as Def;

// The absolute value. Either zero becomes plus zero, and a compiler makes it one instruction.
#[tactic(auto, unfolding(crate::specs::Number::size))]
pub fn size(x: f32) -> f32
    ensures { result ≡ Def.size x }
{
    if x <= 0.0 { 0.0 - x } else { x }
}

// The smaller of two, the first of equals.
#[tactic(auto, unfolding(crate::specs::Number::smaller))]
pub fn smaller(a: f32, b: f32) -> f32
    ensures { result ≡ Def.smaller a b }
{
    if b < a { b } else { a }
}

// The larger of two, the first of equals.
#[tactic(auto, unfolding(crate::specs::Number::larger))]
pub fn larger(a: f32, b: f32) -> f32
    ensures { result ≡ Def.larger a b }
{
    if a < b { b } else { a }
}

// x held to low..high.
#[tactic(auto, unfolding(crate::specs::Number::clamp))]
pub fn clamp(x: f32, low: f32, high: f32) -> f32
    ensures { result ≡ Def.clamp x low high }
{
    if x < low {
        low
    } else if high < x {
        high
    } else {
        x
    }
}

// A zero of either sign is written plus zero.
#[tactic(auto, unfolding(crate::specs::Number::written))]
pub fn written(x: f32) -> f32
    ensures { result ≡ Def.written x }
{
    if x == 0.0 { 0.0 } else { x }
}

// The greatest f32 below a number above zero.
#[tactic(auto, unfolding(crate::specs::Number::next_down))]
pub fn next_down(x: f32) -> f32
    ensures { result ≡ Def.next_down x }
{
    if 0.0 < x {
        f32::from_bits(f32::to_bits(x) - 1)
    } else {
        x
    }
}
