//! The files whose texts were joined, and where in which of them something stands.

use rs_places::line_and_column;
use rs_texts::Joined;
use std::fmt;

/// Files as one text, and the name of each.
#[derive(Clone, Copy)]
pub struct Files<'a> {
    pub texts: &'a Joined,
    pub names: &'a [String],
}

/// Files, and their text.
#[derive(Clone, Copy)]
pub struct Source<'a> {
    pub files: Files<'a>,
    pub text: &'a str,
}

/// Where something stands, as a line begins with it.
#[derive(Clone, Copy)]
pub(crate) enum Position<'a> {
    /// It wasn't found.
    Unknown,
    /// In the only file, at this line and column.
    At(usize, usize),
    /// In the file of this name.
    In(&'a str, usize, usize),
}

impl fmt::Display for Position<'_> {
    fn fmt<W: fmt::Write>(&self, f: &mut fmt::Formatter<W>) -> fmt::Result {
        match self {
            Position::Unknown => Ok(()),
            Position::At(line, column) => write!(f, "line {line}, column {column}: "),
            Position::In(name, line, column) => {
                write!(f, "{name}, line {line}, column {column}: ")
            }
        }
    }
}

impl<'a> Files<'a> {
    /// The line and the column behind so many octets of the text, in the file in which that is.
    pub(crate) fn position(&self, front: usize) -> Position<'a> {
        let octets = self.texts.octets.as_slice();
        let place = self.texts.place(front);
        let start = self.texts.starts.get(place).copied().unwrap_or(0);
        let own = octets.get(start..front.min(octets.len())).unwrap_or(&[]);
        let (line, column) = line_and_column(own);
        match self.names.get(place) {
            Some(name) if self.names.len() > 1 => Position::In(name.as_str(), line, column),
            _ => Position::At(line, column),
        }
    }
}
