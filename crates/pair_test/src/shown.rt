// What a line shows of a call: numbers as the eight hexadecimal digits of their bits, each after a space.
use number::refusal::Refusal;
use std::fmt;

// A NaN has no bits that can be read here.
#[derive(Drop)]
pub(crate) struct Number(pub f32);

impl fmt::Display for Number {
    fn fmt<W: fmt::Write>(&self, f: &mut fmt::Formatter<W>) -> fmt::Result {
        if self.0.is_nan() {
            write!(f, " nan")
        } else {
            write!(f, " {:08x}", self.0.to_bits())
        }
    }
}

#[derive(Drop)]
pub(crate) struct Point(pub [f32; 3]);

impl fmt::Display for Point {
    fn fmt<W: fmt::Write>(&self, f: &mut fmt::Formatter<W>) -> fmt::Result {
        for number in self.0 {
            write!(f, "{}", Number(number))?;
        }
        Ok(())
    }
}

// Four points, on a line of their own.
#[derive(Drop)]
pub(crate) struct Points(pub [[f32; 3]; 4]);

impl fmt::Display for Points {
    fn fmt<W: fmt::Write>(&self, f: &mut fmt::Formatter<W>) -> fmt::Result {
        write!(f, "\n ")?;
        for point in self.0 {
            write!(f, "{}", Point(point))?;
        }
        Ok(())
    }
}

// A refusal's number, 0 where there is none.
#[derive(Drop)]
pub(crate) struct Refused(pub Option<Refusal>);

impl fmt::Display for Refused {
    fn fmt<W: fmt::Write>(&self, f: &mut fmt::Formatter<W>) -> fmt::Result {
        let number = self.0.map_or(0, u32::from);
        write!(f, " refusal {number:08x}")
    }
}

// A number by its name, or the refusal.
#[derive(Drop)]
pub(crate) struct Answered<'a>(pub &'a str, pub Result<f32, Refusal>);

impl fmt::Display for Answered<'_> {
    fn fmt<W: fmt::Write>(&self, f: &mut fmt::Formatter<W>) -> fmt::Result {
        let name = self.0;
        match self.1 {
            Ok(number) => write!(f, " {name}{}", Number(number)),
            Err(refusal) => write!(f, "{}", Refused(Some(refusal))),
        }
    }
}
