// A polynomial of degree three at most, its value and its slope (polynomial_root.rs, `eval_f`).
ghost use Rattle.std.specs.Prelude.{◌≡◌};
ghost use Rattle.polynomial_root.specs.Roots as Def;

// c0 + c1 x + c2 x² + c3 x³
#[derive(Clone, Copy)]
pub struct Cubic {
    pub c0: f32,
    pub c1: f32,
    pub c2: f32,
    pub c3: f32,
}

impl Cubic {
    pub(crate) fn value_at(self, r: f32) -> f32
        ensures { result ≡ Def.value_at self r }
    {
        ((self.c3 * r + self.c2) * r + self.c1) * r + self.c0
    }

    pub(crate) fn slope_at(self, r: f32) -> f32
        ensures { result ≡ Def.slope_at self r }
    {
        self.c1 + 2.0 * self.c2 * r + 3.0 * self.c3 * r * r
    }
}
