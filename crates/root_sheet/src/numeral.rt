// Numbers in decimal (docs/01-scope.md, "The root by hand").
ghost use Rattle.std.specs.Prelude.{◌≡◌, ◌+◌, ◌-◌, ◌*◌, ◌^◌, ◌≤◌, ◌<◌};
ghost use Rattle.text.specs.Text.{Written};
ghost use Rattle.root_sheet.specs.RootSheet as Def;

use number::by_hand::{Argument, argument_of};
use number::pattern::float_of;
use text::Page;

// The digits behind the point of fraction / 2 ^ 60.
fn put_places(page: &mut Page, fraction: u64)
    requires { fraction < 2 ^ 60 }
    ensures { Written page.old (Def.places 60 fraction) page.new }
{
    let mut rest = fraction;
    for _ in 0..60u32 {
        if rest == 0 {
            return;
        }
        let ten = rest * 10;
        // Below 10, so that `u32::try_from` could not fail: the cast is the plainer form.
        page.decimal((ten >> 60) as u32);
        rest = ten % 0x1000_0000_0000_0000;
    }
}

// whole + fraction / 2 ^ 60.
#[tactic(auto, using(crate::proofs::Numerals::numeral_whole))]
fn put_numeral(page: &mut Page, whole: u32, fraction: u64)
    requires { fraction < 2 ^ 60 }
    ensures { Written page.old (Def.numeral (whole * 2 ^ 60 + fraction)) page.new }
{
    page.decimal(whole);
    if fraction == 0 {
        return;
    }
    page.bytes(b".");
    put_places(page, fraction);
}

// k - c, which may be below zero.
#[tactic(auto, unfolding(crate::specs::RootSheet::difference))]
pub(crate) fn put_difference(page: &mut Page, k: u32, c: u32)
    ensures { Written page.old (Def.difference k c) page.new }
{
    if k < c {
        page.bytes(b"-");
        page.decimal(c - k);
    } else {
        page.decimal(k - c);
    }
}

// digits / 2 ^ places, for a number of at most 60 binary places.
fn put_binary(page: &mut Page, digits: u32, places: u32)
    requires { (digits < 2 ^ 24) × (places ≤ 60) }
    ensures { Written page.old (Def.numeral (digits * 2 ^ (60 - places))) page.new }
{
    let wide = u64::from(digits);
    let whole = wide >> places;
    let fraction = (wide - (whole << places)) << (60 - places);
    // Below 2 ^ 24, so that `u32::try_from` could not fail: the cast is the plainer form.
    put_numeral(page, whole as u32, fraction);
}

// From 2 ^ -37 to below 2 ^ 32 a number is put as it is.
#[tactic(auto, using(std::proofs::lemmas::Bool::Decides::nat_tests), unfolding(crate::specs::RootSheet::is_plain))]
fn is_plain(exponent: u32) -> bool
    ensures { result ≡ Def.is_plain exponent }
{
    (113..=181).contains(&exponent)
}

// A number above zero.
fn put_value(page: &mut Page, a: Argument)
    requires { a.digits < 2 ^ 24 }
    ensures { Written page.old (Def.value a) page.new }
{
    if is_plain(a.exponent) {
        if a.exponent < 173 {
            put_binary(page, a.digits, 173 - a.exponent);
        } else {
            put_numeral(page, a.digits << (a.exponent - 173), 0);
        }
    } else {
        put_binary(page, a.digits, 23);
        page.bytes(b" * 2^");
        put_difference(page, a.exponent, 150);
    }
}

// What is behind the pattern: a zero by its sign, or a number above zero.
#[tactic(auto, unfolding(crate::specs::RootSheet::decimal_of))]
fn put_decimal_of(page: &mut Page, bits: u32)
    ensures { Written page.old (Def.decimal_of bits) page.new }
{
    let a = argument_of(float_of(bits));
    if a.digits == 0 {
        page.bytes(if bits == 0 { b"0" } else { b"-0" });
    } else {
        put_value(page, a);
    }
}

// A word, a pattern and its number.
pub(crate) fn put_named(page: &mut Page, word: &[u8], bits: u32)
    ensures { Written page.old (Def.named word.now bits) page.new }
{
    page.bytes(word);
    page.hex(bits);
    page.bytes(b" = ");
    put_decimal_of(page, bits);
    page.bytes(b"\n");
}
