// Vectors of three numbers (vec3.rs: `sub`, `dot`, `scalar_triple_product`). Sums of three go left to right.
// Three numbers are three formulas in a line, and by an index no shorter.
ghost use Rattle.std.specs.Prelude.{◌≡◌};
ghost use Rattle.geometry.specs.Geometry as Def;

// a - b
pub fn sub(a: [f32; 3], b: [f32; 3]) -> [f32; 3]
    ensures { result ≡ Def.minus a b }
{
    [a[0] - b[0], a[1] - b[1], a[2] - b[2]]
}

// a · b
pub fn dot(a: [f32; 3], b: [f32; 3]) -> f32
    ensures { result ≡ Def.dot a b }
{
    a[0] * b[0] + a[1] * b[1] + a[2] * b[2]
}

// a + t b
pub fn along(a: [f32; 3], t: f32, b: [f32; 3]) -> [f32; 3]
    ensures { result ≡ Def.along a t b }
{
    [a[0] + t * b[0], a[1] + t * b[1], a[2] + t * b[2]]
}

// a s, each of the three numbers times s
pub(crate) fn times(a: [f32; 3], s: f32) -> [f32; 3]
    ensures { result ≡ Def.times a s }
{
    [a[0] * s, a[1] * s, a[2] * s]
}

// a · (b × c)
pub fn scalar_triple_product(a: [f32; 3], b: [f32; 3], c: [f32; 3]) -> f32
    ensures { result ≡ Def.triple a b c }
{
    a[0] * (b[1] * c[2] - b[2] * c[1])
        + a[1] * (b[2] * c[0] - b[0] * c[2])
        + a[2] * (b[0] * c[1] - b[1] * c[0])
}
