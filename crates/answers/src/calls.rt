// One call of each public function, by its number (tests/calls.txt): the arguments are read from the call, and the
// answer's words, which are zeros until then, are written. A `match` is the plainest table: an arm for each function.
use crate::words::{Answer, Call};
use crate::{points, roots, safe_time, scaling};

pub(crate) fn answer(function: u32, call: &mut Call, out: &mut Answer) {
    match function {
        1 => roots::square_root(call, out),
        2 => points::lerp(call, out),
        3 => points::add_scaled(call, out),
        4 => points::centerize(call, out),
        5 => points::scale_in_place(call, out),
        6 => points::squared_distance(call, out),
        7 => points::max_relative_norm(call, out),
        8 => scaling::normalize_centerized_configuration(call, out),
        9 => roots::quadratic_root(call, out),
        10 => roots::cubic_roots_in_range_zero_to_t(call, out),
        11 => roots::coplanar_time_mat3x4(call, out),
        12 => safe_time::maximum_safe_time_accurate(call, out),
        13 => safe_time::maximum_safe_time_allowing(call, out),
        _ => {}
    }
}
