//! The lines on standard output: in a second at most one of each kind for each client, and one of
//! strangers, so that nobody can fill a disk by coming and going. None is left out: of what comes more
//! often a later line has the count.

use crate::names::Names;
use rs_live::ports::Line;
use rs_reports::rate_limits::RateLimit;
use rs_shown::tally::Tally;
use rs_streams::printer::Printer;
use rs_streams::streams::Stream;
use std::alloc::{AllocError, Global};
use std::{fmt, mem};

/// The lines of someone that wait: how many of each kind, and which came last; and when some were printed.
#[derive(Clone, Copy)]
struct Waiting {
    tally: Tally,
    last: RateLimit<Line>,
}

impl Waiting {
    /// Nothing was printed yet, and nothing waits.
    fn new() -> Waiting {
        Waiting {
            tally: Tally::new(),
            last: RateLimit::new(),
        }
    }

    /// A line has come, and waits.
    fn put(&mut self, line: &Line) {
        self.tally.count(line);
        self.last.put(*line);
    }

    /// All that waits, unless something was printed in this second already: the counts, and the last line.
    fn take(&mut self, second: u64) -> Option<(Tally, Line)> {
        let due = self.last.take(second)?;
        Some((mem::replace(&mut self.tally, Tally::new()), due.item))
    }
}

/// What waits of each client and, at the place after the last client, of strangers.
#[derive(Drop)]
pub struct Lines<'a> {
    names: &'a Names,
    all: Vec<Waiting>,
}

impl<'a> Lines<'a> {
    /// Nothing was printed yet.
    pub fn new(alloc: Global, names: &'a Names) -> Result<Lines<'a>, AllocError> {
        let count = names.count().saturating_add(1);
        Ok(Lines {
            names,
            all: vec![in alloc; Waiting::new(); count]?,
        })
    }

    /// Prints a line, now or in a later second; one of rules or their file now.
    pub fn print<S: Stream>(&mut self, output: &mut Printer<S>, second: u64, line: &Line) {
        let Some(place) = self.place(line) else {
            print_line(output, self.names, line, 1);
            return;
        };
        if let Some(waiting) = self.all.get_mut(place) {
            waiting.put(line);
        }
        self.print_waiting_at(output, second, place);
    }

    /// Prints what waits for this second. In the greatest, which never comes, it is all that waits.
    pub fn print_waiting<S: Stream>(&mut self, output: &mut Printer<S>, second: u64) {
        for place in 0..self.all.len() {
            self.print_waiting_at(output, second, place);
        }
    }

    /// Prints what waits for this second at one place.
    fn print_waiting_at<S: Stream>(&mut self, output: &mut Printer<S>, second: u64, place: usize) {
        if let Some(waiting) = self.all.get_mut(place)
            && let Some((tally, last)) = waiting.take(second)
        {
            print_all(output, self.names, &tally, &last);
        }
    }

    /// Where the lines like this one wait; `None` for those of rules and their file, which don't.
    fn place(&self, line: &Line) -> Option<usize> {
        match line {
            Line::Stranger => Some(self.names.count()),
            _ => Some(of_client(line)?.1),
        }
    }
}

/// The word that a line of a client begins with, and the client; `None` for a line that is of none.
fn of_client(line: &Line) -> Option<(&'static str, usize)> {
    match line {
        Line::Begin(c) => Some(("begin", *c)),
        Line::Busy(c) => Some(("busy", *c)),
        Line::Disabled(c) => Some(("disabled", *c)),
        Line::Close(c) => Some(("close", *c)),
        Line::Lost(c) => Some(("lost", *c)),
        Line::Memory(c) => Some(("memory", *c)),
        Line::Stranger | Line::Rules(_) | Line::File(_) => None,
    }
}

/// A line of each kind as this one's place can have: the losses of service stand before a begin, unless the
/// last line is one.
fn kinds(line: &Line) -> [Line; 6] {
    match of_client(line) {
        Some((_, c)) => [
            Line::Memory(c),
            Line::Close(c),
            Line::Lost(c),
            Line::Busy(c),
            Line::Disabled(c),
            Line::Begin(c),
        ],
        None => [*line; 6],
    }
}

/// Prints a line of each kind that was counted, the kind that came last at the end.
fn print_all<S: Stream>(output: &mut Printer<S>, names: &Names, tally: &Tally, last: &Line) {
    for line in &kinds(last) {
        if line != last && tally.counted(line) > 0 {
            print_line(output, names, line, tally.counted(line));
        }
    }
    print_line(output, names, last, tally.counted(last));
}

/// A word, a client's name, and how often, where it is more than once.
#[derive(Drop)]
struct Worded<'a>(&'static str, &'a str, u64);

impl fmt::Display for Worded<'_> {
    fn fmt<W: fmt::Write>(&self, f: &mut fmt::Formatter<W>) -> fmt::Result {
        let Worded(word, name, count) = *self;
        if count > 1 {
            write!(f, "{word} {name} {count}")
        } else {
            write!(f, "{word} {name}")
        }
    }
}

/// Prints a line that came so often.
fn print_line<S: Stream>(output: &mut Printer<S>, names: &Names, line: &Line, count: u64) {
    if let Some((word, c)) = of_client(line) {
        output.print(Worded(word, names.name(c), count));
        return;
    }
    match line {
        Line::Rules(Ok(())) => output.print("rules accepted"),
        Line::Rules(Err(fault)) => output.print(format_args!("rules refused: {fault}")),
        Line::File(fault) => {
            let (path, colon) = names.before(fault);
            output.print(format_args!("rules refused: {path}{colon}{fault}"));
        }
        _ if count > 1 => output.print(format_args!("strangers {count}")),
        _ => output.print("stranger"),
    }
}
