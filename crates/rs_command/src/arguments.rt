//! The options of a command line as rows of a table, and the words that were given by their names.

use crate::version::VERSION;
use clap::builder::ValueParser;
use clap::{Arg, ArgAction, ArgMatches, Command};
use std::alloc::{AllocError, Global};

/// An option, `--name`, as the help lists it.
#[derive(Clone, Copy)]
pub(crate) struct Row {
    pub(crate) name: &'static str,
    /// It has this letter too, as `-c`.
    pub(crate) letter: Option<char>,
    pub(crate) help: &'static str,
    /// What the help calls the word behind the name; nothing where none stands there.
    pub(crate) word: &'static [&'static str],
    /// How many such words there are, at least and at most.
    pub(crate) count: (usize, usize),
    /// What such a word has to be.
    pub(crate) parser: ValueParser<'static>,
    /// What is kept of the words where the option is given.
    pub(crate) action: ArgAction,
    /// It has to be there.
    pub(crate) is_required: bool,
    /// It has to be there where none of these is.
    pub(crate) required_without: &'static [&'static str],
    /// It stands beside these alone.
    pub(crate) needs: &'static [&'static str],
    /// It stands beside none of these.
    pub(crate) excludes: &'static [&'static str],
    /// Without the option these words are taken.
    pub(crate) default: &'static [&'static str],
    /// Where no word stands behind it these are taken.
    pub(crate) default_word: &'static [&'static str],
}

/// An option without a word, which is there or not.
pub(crate) const FLAG: Row = Row {
    name: "",
    letter: None,
    help: "",
    word: &[],
    count: (0, 0),
    parser: ValueParser::Bool,
    action: ArgAction::SetTrue,
    is_required: false,
    required_without: &[],
    needs: &[],
    excludes: &[],
    default: &[],
    default_word: &[],
};

/// An option with a word.
pub(crate) const WORD: Row = Row {
    word: &["FILE"],
    count: (1, 1),
    parser: ValueParser::String,
    action: ArgAction::Set,
    ..FLAG
};

/// An option with a number from 1 on.
pub(crate) const NUMBER: Row = Row {
    word: &["N"],
    parser: ValueParser::Signed(1, 4_294_967_295),
    ..WORD
};

/// An option with a word each time; it may be given more than once.
pub(crate) const WORDS: Row = Row {
    action: ArgAction::Append,
    ..WORD
};

/// The files of the configuration.
pub(crate) const CONFIG: Row = Row {
    name: "config",
    letter: Some('c'),
    help: "the configuration, a TOML file; the texts of several are joined in their order",
    ..WORDS
};

/// The argument with a letter, where it has one.
fn lettered<'a>(argument: Arg<'a>, letter: Option<char>) -> Arg<'a> {
    match letter {
        None => argument,
        Some(letter) => argument.short(letter),
    }
}

impl Row {
    /// The argument that it asks for.
    fn argument<'a>(&self, alloc: Global) -> Result<Arg<'a>, AllocError> {
        let argument = Arg::new(alloc, self.name)
            .long(self.name)
            .help(self.help)
            .value_names(self.word)
            .num_args(self.count.0..=self.count.1)
            .value_parser(self.parser)
            .action(self.action)
            .required(self.is_required)
            .default_values(self.default)
            .default_missing_values(self.default_word);
        lettered(argument, self.letter)
            .required_unless_present_any(self.required_without)?
            .requires_all(self.needs)?
            .conflicts_with_all(self.excludes)
    }
}

/// The arguments that these options ask for.
fn arguments_of<'a>(alloc: Global, rows: &[Row]) -> Result<Vec<Arg<'a>>, AllocError> {
    let mut arguments = Vec::new(alloc);
    for row in rows {
        arguments.push(row.argument(alloc)?)?;
    }
    Ok(arguments)
}

/// The command line of a program that has these options.
pub(crate) fn command_of<'a>(
    alloc: Global,
    name: &'a str,
    about: &'a str,
    rows: &[Row],
) -> Result<Command<'a>, AllocError> {
    let arguments = arguments_of(alloc, rows)?;
    Command::new(alloc, name)
        .version(VERSION)
        .about(about)
        .args(arguments)
}

/// The word that was given by this name, where there is one.
pub(crate) fn text_of(
    alloc: Global,
    matches: &ArgMatches<'_>,
    name: &str,
) -> Result<Option<String>, AllocError> {
    match matches.get_str(name) {
        Some(word) => Ok(Some(String::from_str(alloc, word)?)),
        None => Ok(None),
    }
}

/// The words that were given by this name, in their order.
pub(crate) fn texts_of(
    alloc: Global,
    matches: &ArgMatches<'_>,
    name: &str,
) -> Result<Vec<String>, AllocError> {
    let mut texts = Vec::new(alloc);
    for word in matches.get_strs(name).unwrap_or(&[]) {
        texts.push(String::from_str(alloc, word)?)?;
    }
    Ok(texts)
}
