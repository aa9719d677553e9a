// Numbers and their bit patterns, NaN included. The logic has one NaN: every NaN's pattern stands for it.
ghost use Rattle.std.specs.Prelude.{◌≡◌};
ghost use Rattle.number.specs.Pattern as Def;

// The number with this pattern. The library's `from_bits` takes no NaN's, so one NaN stands for all of them.
pub fn float_of(bits: u32) -> f32
    ensures { result ≡ Def.float_of bits }
{
    if bits % 0x8000_0000 <= 0x7f80_0000 {
        f32::from_bits(bits)
    } else {
        f32::NAN
    }
}

// The pattern of a number. The library's `to_bits` takes no NaN.
pub fn bits_of(x: f32) -> u32
    ensures { result ≡ Def.bits_of x }
{
    if x.is_nan() {
        return 0x7fc0_0000;
    }
    x.to_bits()
}
