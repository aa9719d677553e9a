// One line of the output: an answer by the number of its refusal, 0 for none, the count, and the bits of the three
// places.
use number::pattern::bits_of;
use number::refusal::Refusal;
use polynomial_root::answer::Roots;
use std::fmt;

#[derive(Drop)]
pub(crate) struct Line(pub(crate) Result<Roots, Refusal>);

impl fmt::Display for Line {
    fn fmt<W: fmt::Write>(&self, f: &mut fmt::Formatter<W>) -> fmt::Result {
        let (refusal, roots) = match self.0 {
            Ok(roots) => (0, roots),
            Err(refusal) => (u32::from(refusal), Roots::none()),
        };
        write!(f, "{refusal} {}", roots.count)?;
        for r in roots.roots {
            write!(f, " {:08x}", bits_of(r))?;
        }
        Ok(())
    }
}
