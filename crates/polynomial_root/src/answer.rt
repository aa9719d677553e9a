// What the root finders answer (docs/01-scope.md, "Roots"): three places and a count stand in for the Vec.
ghost use Rattle.std.specs.Prelude.{◌≡◌};
ghost use Rattle.polynomial_root.specs.Roots as Def;

use number::order::written;

// The roots in the first `count` places, zero in the others. docs/01-scope.md fixes the two fields; that they are tidy is
// a clause (`Tidy`) and no invariant of the type, since the definitions make an answer of these two alone.
#[derive(Clone, Copy)]
pub struct Roots {
    pub count: u32,
    pub roots: [f32; 3],
}

impl Roots {
    pub fn none() -> Roots
        ensures { result ≡ Def.none }
    {
        Roots {
            count: 0,
            roots: [0.0; 3],
        }
    }

    // One root more, in the next place; a full answer stands.
    #[tactic(auto, unfolding(crate::specs::Roots::push))]
    pub(crate) fn push(mut self, r: f32) -> Roots
        ensures { result ≡ Def.push self r }
    {
        if self.count < 3 {
            self.roots[self.count as usize] = written(r);
            self.count += 1;
        }
        self
    }

    // With what one more span gave.
    #[tactic(auto, unfolding(crate::specs::Roots::joined))]
    pub(crate) fn joined(self, found: Option<f32>) -> Roots
        ensures { result ≡ Def.joined self found }
    {
        match found {
            Some(r) => self.push(r),
            None => self,
        }
    }
}
