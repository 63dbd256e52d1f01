// Results that are out of range.
use std::error::Error;
use std::fmt;

/// A result of more than 10^21 millionths either way, which no number holds.
#[derive(Clone, Copy, Debug, PartialEq, Eq)]
pub struct Range;

impl fmt::Display for Range {
    fn fmt<W: fmt::Write>(&self, f: &mut fmt::Formatter<W>) -> fmt::Result {
        write!(f, "the result is out of range")
    }
}

impl Error for Range {}
