// Words of four bytes, little-endian, and numbers by their bits. Where the bytes end, zeros follow.
ghost use Rattle.std.specs.Prelude.{◌≡◌, get_or, drop};
ghost use Rattle.scene.specs.Scene as Def;

use number::pattern::float_of;

// The bytes from place `at` on.
pub(crate) fn from(s: &[u8], at: usize) -> &[u8]
    ensures { result.now ≡ drop at s.now }
{
    s.get(at..).unwrap_or(&[])
}

// Byte `at`.
fn byte(s: &[u8], at: usize) -> u8
    ensures { result ≡ get_or s.now at 0 }
{
    s.get(at).copied().unwrap_or(0)
}

// The word at byte `at`.
#[tactic(auto, using(crate::proofs::Parts::word_begins), unfolding(crate::specs::Scene::word))]
pub(crate) fn word(s: &[u8], at: usize) -> u32
    ensures { result ≡ Def.word s.now at }
{
    let rest = from(s, at);
    u32::from_le_bytes([byte(rest, 0), byte(rest, 1), byte(rest, 2), byte(rest, 3)])
}

// The number at byte `at`.
pub(crate) fn number(s: &[u8], at: usize) -> f32
    ensures { result ≡ Def.number s.now at }
{
    float_of(word(s, at))
}

// The point at byte `at`: three numbers.
#[tactic(auto, using(crate::proofs::Parts::point_begins))]
pub(crate) fn point(s: &[u8], at: usize) -> [f32; 3]
    ensures { result ≡ Def.point s.now at }
{
    let rest = from(s, at);
    [number(rest, 0), number(rest, 4), number(rest, 8)]
}
