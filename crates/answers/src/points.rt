// Calls on points: `lerp`, `add_scaled`, `centerize`, `scale_in_place`, `squared_distance`, `max_relative_norm`.
use crate::words::{Answer, Call};
use pair::{norm, points, separation};

pub(crate) fn lerp(call: &mut Call, out: &mut Answer) {
    let placed = points::lerp(call.point(), call.point(), call.number());
    out.refusal(placed.err());
    if let Ok(place) = placed {
        out.point(place);
    }
}

pub(crate) fn add_scaled(call: &mut Call, out: &mut Answer) {
    let mut x = [[0.0; 3]; 4];
    let moved = points::add_scaled(call.points(), call.points(), call.number(), &mut x);
    out.refusal(moved.err());
    out.points(x);
}

pub(crate) fn centerize(call: &mut Call, out: &mut Answer) {
    let mut x = call.points();
    out.refusal(points::centerize(&mut x).err());
    out.points(x);
}

pub(crate) fn scale_in_place(call: &mut Call, out: &mut Answer) {
    let mut x = call.points();
    out.refusal(points::scale_in_place(&mut x, call.number()).err());
    out.points(x);
}

pub(crate) fn squared_distance(call: &mut Call, out: &mut Answer) {
    let measured = separation::squared_distance(call.points(), call.split());
    out.refusal(measured.err());
    if let Ok(nearest) = measured {
        out.number(nearest.squared);
        out.point(nearest.direction);
        out.word(nearest.candidate);
    }
}

pub(crate) fn max_relative_norm(call: &mut Call, out: &mut Answer) {
    out.answered(norm::max_relative_norm(call.points(), call.split()));
}
