// Calls of `normalize_centerized_configuration`, which scales a lent pair.
use crate::words::{Answer, Call};
use motion::record::Pair;
use motion::scaling;

pub(crate) fn normalize_centerized_configuration(call: &mut Call, out: &mut Answer) {
    let x = call.points();
    let dx = call.points();
    let mut pair = Pair { x, dx };
    out.answered(scaling::normalize_centerized_configuration(&mut pair, call.number()));
    out.points(pair.x);
    out.points(pair.dx);
}
