// Text in a lent buffer: a page over it, on which bytes and numbers are written one after the other.

#![tactic(auto)]

ghost use Rattle.std.specs.Prelude.{◌≡◌, ◌≤◌, length};
ghost use Rattle.text.specs.Text.{Starts, Written};
ghost use Rattle.text.specs.Text as Def;

// A lent buffer and the place of the next byte. What lies past the buffer's end is counted and not written.
#[derive(Drop)]
pub struct Page<'a> {
    out: &'a mut [u8],
    at: usize,
}

impl<'a> Page<'a> {
    // A page whose first byte goes to place `at`.
    pub fn new(out: &'a mut [u8], at: usize) -> Page<'a>
        ensures { Starts out.entry at result }
    {
        Page { out, at }
    }

    // The place of the next byte: of a page that began at 0, how many bytes were written, those past the end too.
    pub fn next_place(&self) -> usize
        ensures { result ≡ self.now.at }
    {
        self.at
    }

    // A text, behind what was written before.
    pub fn bytes(&mut self, text: &[u8])
        ensures { Written self.old text.now self.new }
    {
        let start = self.at.min(self.out.len());
        let shown = text.len().min(self.out.len() - start);
        self.out[start..start + shown].copy_from_slice(&text[..shown]);
        self.at = self.at.saturating_add(text.len());
    }

    // The decimal digits of n, none of them a zero in front. The kit's writers of digits fill an array and say how far;
    // std writes numbers through `fmt`, of whose bytes no clause speaks.
    pub fn decimal(&mut self, n: u32)
        ensures written { Written self.old (Def.decimal n) self.new }
        ensures short { length (Def.decimal n) ≤ 10 }
    {
        let mut digits = [0u8; 20];
        let k = io::decimal(u64::from(n), &mut digits);
        self.bytes(&digits[..k]);
    }

    // The eight hexadecimal digits of n, in lower case.
    pub fn hex(&mut self, n: u32)
        ensures written { Written self.old (Def.hex n) self.new }
        ensures short { length (Def.hex n) ≤ 8 }
    {
        let mut digits = [0u8; 16];
        let k = io::hex(u64::from(n), 8, &mut digits);
        self.bytes(&digits[..k]);
    }
}
