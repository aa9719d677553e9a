// Calls of the square root and of the root finders.
use crate::words::{Answer, Call};
use motion::coplanar;
use number::refusal::Refusal;
use number::root;
use polynomial_root::answer::Roots;

pub(crate) fn square_root(call: &mut Call, out: &mut Answer) {
    out.answered(root::square_root(call.number()));
}

fn put_roots(out: &mut Answer, answer: Result<Roots, Refusal>) {
    out.refusal(answer.err());
    if let Ok(found) = answer {
        out.word(found.count);
        out.point(found.roots);
    }
}

pub(crate) fn quadratic_root(call: &mut Call, out: &mut Answer) {
    let c0 = call.number();
    let c1 = call.number();
    let c2 = call.number();
    put_roots(out, polynomial_root::quadratic_root(c0, c1, c2));
}

pub(crate) fn cubic_roots_in_range_zero_to_t(call: &mut Call, out: &mut Answer) {
    let c0 = call.number();
    let c1 = call.number();
    let c2 = call.number();
    let c3 = call.number();
    let t = call.number();
    let epsilon = call.number();
    put_roots(
        out,
        polynomial_root::cubic_roots_in_range_zero_to_t(c0, c1, c2, c3, t, epsilon),
    );
}

pub(crate) fn coplanar_time_mat3x4(call: &mut Call, out: &mut Answer) {
    put_roots(
        out,
        coplanar::coplanar_time_mat3x4(call.points(), call.points()),
    );
}
