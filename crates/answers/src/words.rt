// The fields of a call and of its answer, one after another: words of four bytes, little-endian; a number is its bits.
use number::pattern::{bits_of, float_of};
use number::refusal::Refusal;
use std::slice;

// The arguments of a call that are still to be read. What lies past the end is read as zeros.
#[derive(Drop)]
pub(crate) struct Call<'a>(slice::Iter<'a, [u8; 4]>);

impl<'a> Call<'a> {
    pub(crate) fn of(arguments: &'a [u8]) -> Call<'a> {
        let (words, _) = arguments.as_chunks();
        Call(words.iter())
    }

    pub(crate) fn word(&mut self) -> u32 {
        match self.0.next() {
            Some(bytes) => u32::from_le_bytes(*bytes),
            None => 0,
        }
    }

    pub(crate) fn number(&mut self) -> f32 {
        float_of(self.word())
    }

    pub(crate) fn split(&mut self) -> usize {
        self.word() as usize
    }

    pub(crate) fn point(&mut self) -> [f32; 3] {
        [self.number(), self.number(), self.number()]
    }

    pub(crate) fn points(&mut self) -> [[f32; 3]; 4] {
        [self.point(), self.point(), self.point(), self.point()]
    }
}

// The words of an answer that are still to be written. What lies past the end is not written.
#[derive(Drop)]
pub(crate) struct Answer<'a>(slice::IterMut<'a, [u8; 4]>);

impl<'a> Answer<'a> {
    pub(crate) fn of(bytes: &'a mut [u8]) -> Answer<'a> {
        let (words, _) = bytes.as_chunks_mut();
        Answer(words.iter_mut())
    }

    pub(crate) fn word(&mut self, word: u32) {
        if let Some(bytes) = self.0.next() {
            *bytes = word.to_le_bytes();
        }
    }

    pub(crate) fn number(&mut self, number: f32) {
        self.word(bits_of(number));
    }

    pub(crate) fn point(&mut self, point: [f32; 3]) {
        for number in point {
            self.number(number);
        }
    }

    pub(crate) fn points(&mut self, points: [[f32; 3]; 4]) {
        for point in points {
            self.point(point);
        }
    }

    // The number of a refusal, 0 for none.
    pub(crate) fn refusal(&mut self, refusal: Option<Refusal>) {
        self.word(refusal.map_or(0, u32::from));
    }

    // The refusal, and the number, 0 where it is refused.
    pub(crate) fn answered(&mut self, answer: Result<f32, Refusal>) {
        self.refusal(answer.err());
        self.number(answer.unwrap_or(0.0));
    }
}
