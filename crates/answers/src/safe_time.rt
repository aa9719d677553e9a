// Calls of the safe time.
use crate::words::{self, Call};
use admission::Limits;
use ccd3::safe_time;

fn put_safe_time(out: &mut words::Answer, safe: ccd3::SafeTime) {
    let (refusal, kind, time) = safe.answer.numbers();
    out.word(refusal);
    out.word(kind);
    out.number(time);
    out.word(safe.probes);
    out.word(safe.halvings);
}

fn limits(call: &mut Call) -> Limits {
    Limits {
        offset: call.number(),
        clearance: call.number(),
        max_t: call.number(),
        u_max: call.number(),
    }
}

pub(crate) fn maximum_safe_time_accurate(call: &mut Call, out: &mut words::Answer) {
    let safe = safe_time::maximum_safe_time_accurate(
        call.points(),
        call.points(),
        call.split(),
        limits(call),
    );
    put_safe_time(out, safe);
}

pub(crate) fn maximum_safe_time_allowing(call: &mut Call, out: &mut words::Answer) {
    let safe = safe_time::maximum_safe_time_allowing(
        call.points(),
        call.points(),
        call.split(),
        limits(call),
        call.word(),
    );
    put_safe_time(out, safe);
}
