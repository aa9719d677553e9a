// The line of a pair in the listing (docs/01-scope.md, "The listing").
ghost use Rattle.text.specs.Text.{Written};
ghost use Rattle.listing.specs.Listing as Def;

use ccd3::{Answer, SafeTime};
use number::pattern::bits_of;
use text::Page;

fn put_spaced(page: &mut Page, n: u32)
    ensures { Written page.old (Def.spaced n) page.new }
{
    page.bytes(b" ");
    page.decimal(n);
}

// The word of a kind, the time's bits and the two counts.
fn put_timed(page: &mut Page, kind: &[u8], t: f32, safe: SafeTime)
    ensures { Written page.old (Def.timed kind.now t safe) page.new }
{
    page.bytes(kind);
    page.hex(bits_of(t));
    put_spaced(page, safe.probes);
    put_spaced(page, safe.halvings);
}

// How a pair ends: a time of its kind, or a refusal. Document 01 fixes `ccd3::Answer`, whose refusal is a number.
#[tactic(auto, unfolding(crate::specs::Listing::ending, crate::specs::Listing::timed))]
fn put_ending(page: &mut Page, safe: SafeTime)
    ensures { Written page.old (Def.ending safe.answer safe) page.new }
{
    match safe.answer {
        Answer::Touching(t) => put_timed(page, b" touching ", t, safe),
        Answer::Contact(t) => put_timed(page, b" contact ", t, safe),
        Answer::Clear(t) => put_timed(page, b" clear ", t, safe),
        Answer::Budget(t) => put_timed(page, b" budget ", t, safe),
        Answer::Refused(n) => {
            page.bytes(b" refused ");
            page.decimal(n);
        }
    }
}

// The line of pair `index`, whose safe time this is.
pub(crate) fn put_line(page: &mut Page, index: u32, safe: SafeTime)
    ensures { Written page.old (Def.line index safe) page.new }
{
    page.decimal(index);
    put_ending(page, safe);
    page.bytes(b"\n");
}
