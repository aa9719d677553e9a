// Words of hexadecimal digits, character by character.

// A word, as far as it has been read.
#[derive(Clone, Copy)]
pub(crate) enum Word {
    // None, or up to eight hexadecimal digits: how many, and what they say.
    Digits { count: u32, bits: u32 },
    // Another character, or more than eight digits.
    NoPattern,
}

impl Word {
    // Before its first character.
    pub(crate) const EMPTY: Word = Word::Digits { count: 0, bits: 0 };

    // The word with one character more.
    pub(crate) fn longer(self, character: u8) -> Word {
        match self {
            Word::Digits { count, bits } if count < 8 => {
                match char::from(character).to_digit(16) {
                    Some(digit) => {
                        Word::Digits {
                            count: count + 1,
                            bits: bits << 4 | digit,
                        }
                    }
                    None => Word::NoPattern,
                }
            }
            _ => Word::NoPattern,
        }
    }
}

// What stands between words. The library's `is_ascii_whitespace` has one character more, the form feed.
pub(crate) fn is_blank(character: u8) -> bool {
    matches!(character, b' ' | b'\n' | b'\t' | b'\r')
}
