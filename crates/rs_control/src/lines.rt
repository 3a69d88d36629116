//! What a line of an operator asks for, or why it is refused.

ghost use Rattle.std.specs.Prelude.{◌≡◌, drop, MatchResult};
ghost use Rattle.std.specs.List.{before_first, after_first};
ghost use Rattle.rs_policy.specs.Configuration.{Configuration};
ghost use Rattle.rs_control.specs.Lines.{is_space, is_prefix_octet, are_prefix_octets, unspaced, meaning_of, member_named, named_in, alone, show_of, why_of, why_meaning, disable_meaning, enable_meaning, refresh_meaning, commands, meaning_among, command_meaning, line_meaning};

use crate::fronts::position;
use crate::order::Order;
use rs_open::ShutdownText;
use rs_policy::Config;

/// The most octets of a line, without its end.
pub const LINE: usize = 1024;

/// Why a line is refused.
#[derive(Clone, Copy, Debug, PartialEq, Eq)]
pub enum Cause {
    /// It has no word.
    NoCommand,
    /// Its first word is no command.
    UnknownCommand,
    /// The name of a member is missing.
    NoName,
    /// No member has this name.
    UnknownMember,
    /// The prefix is missing.
    NoPrefix,
    /// This is no prefix, as an address with a length is.
    NotPrefix,
    /// This word is one too many.
    TooMuch,
    /// The text has more than 128 octets.
    LongText,
    /// The line is no UTF-8.
    NotUtf8,
}

/// What a line asks for.
#[derive(Clone, Copy, Debug, PartialEq, Eq)]
pub enum Asked<'a> {
    /// What the commands are.
    Help,
    /// All members.
    Show,
    /// A member.
    ShowMember(usize),
    /// Why a member is sent what it is for a prefix, which has the octets of one.
    Why(usize, &'a [u8]),
    Order(Order),
    /// Nothing, for this cause; the word that is at fault.
    Refused(Cause, &'a [u8]),
}

/// A member, and what stands behind its name; or why there is none.
type Named<'a> = Result<(usize, &'a [u8]), (Cause, &'a [u8])>;

/// The text without the spaces that it begins with.
fn unspaced(text: &[u8]) -> &[u8]
    ensures { result.now ≡ unspaced text.now }
{
    match text {
        [first, rest @ ..] => { if *first == b' ' { unspaced(rest) } else { text } }
        [] => text,
    }
}

/// The first word of a text, and what stands behind it.
fn split_word(text: &[u8]) -> (&[u8], &[u8])
    ensures word { result.0.now ≡ before_first is_space text.now }
    ensures rest { result.1.now ≡ unspaced (after_first is_space text.now) }
{
    match position(text, b' ') {
        Some(at) => (&text[..at], unspaced(&text[at + 1..])),
        None => (text, &[]),
    }
}

/// The place of the member with this name.
fn place(config: &Config, name: &[u8]) -> Option<usize>
    ensures { result ≡ member_named config.now name.now }
{
    match str::from_utf8(name) {
        Ok(name) => config.place(name),
        Err(_) => None,
    }
}

/// The member that a text begins with.
fn named<'a>(config: &Config, text: &'a [u8]) -> Named<'a>
    ensures { MatchResult result (λ n. named_in config.now text.now ≡ Ok (n.0, n.1.now)) (λ e. named_in config.now text.now ≡ Err (e.0, e.1.now)) }
{
    if text.is_empty() {
        return Err((Cause::NoName, text));
    }
    let (name, rest) = split_word(text);
    match place(config, name) {
        Some(c) => Ok((c, rest)),
        None => Err((Cause::UnknownMember, name)),
    }
}

/// What is asked for where nothing stands behind it.
fn alone<'a>(rest: &'a [u8], asked: Asked<'a>) -> Asked<'a>
    ensures { meaning_of result ≡ alone rest.now (meaning_of asked.entry) }
{
    if rest.is_empty() {
        asked
    } else {
        Asked::Refused(Cause::TooMuch, split_word(rest).0)
    }
}

/// `show` or `show NAME`.
fn show<'a>(config: &Config, rest: &'a [u8]) -> Asked<'a>
    ensures { meaning_of result ≡ show_of config.now rest.now }
{
    if rest.is_empty() {
        return Asked::Show;
    }
    match named(config, rest) {
        Ok((c, rest)) => alone(rest, Asked::ShowMember(c)),
        Err((cause, word)) => Asked::Refused(cause, word),
    }
}

fn is_prefix_octet(octet: u8) -> bool
    ensures { result ≡ is_prefix_octet octet }
{
    octet.is_ascii_digit() || octet == b'.' || octet == b'/'
}

/// The octets are such as a prefix has.
fn are_prefix_octets(word: &[u8]) -> bool
    ensures { result ≡ are_prefix_octets word.now }
{
    word.iter().all(|octet| is_prefix_octet(*octet))
}

/// Why a member is sent what it is for the prefix that a text begins with.
fn why_at(c: usize, text: &[u8]) -> Asked<'_>
    ensures { meaning_of result ≡ why_of c text.now }
{
    if text.is_empty() {
        return Asked::Refused(Cause::NoPrefix, text);
    }
    let (word, rest) = split_word(text);
    if are_prefix_octets(word) {
        alone(rest, Asked::Why(c, word))
    } else {
        Asked::Refused(Cause::NotPrefix, word)
    }
}

/// `why NAME PREFIX`.
fn why<'a>(config: &Config, rest: &'a [u8]) -> Asked<'a>
    ensures { meaning_of result ≡ why_meaning config.now rest.now }
{
    match named(config, rest) {
        Ok((c, rest)) => why_at(c, rest),
        Err((cause, word)) => Asked::Refused(cause, word),
    }
}

/// `disable NAME` or `disable NAME TEXT`.
fn disable<'a>(config: &Config, rest: &'a [u8]) -> Asked<'a>
    ensures { meaning_of result ≡ disable_meaning config.now rest.now }
{
    match named(config, rest) {
        Ok((c, text)) => match ShutdownText::of(text) {
            Some(text) => Asked::Order(Order::Disable(c, text)),
            None => Asked::Refused(Cause::LongText, text),
        },
        Err((cause, word)) => Asked::Refused(cause, word),
    }
}

/// `enable NAME`.
fn enable<'a>(config: &Config, rest: &'a [u8]) -> Asked<'a>
    ensures { meaning_of result ≡ enable_meaning config.now rest.now }
{
    match named(config, rest) {
        Ok((c, rest)) => alone(rest, Asked::Order(Order::Enable(c))),
        Err((cause, word)) => Asked::Refused(cause, word),
    }
}

/// `refresh NAME`.
fn refresh<'a>(config: &Config, rest: &'a [u8]) -> Asked<'a>
    ensures { meaning_of result ≡ refresh_meaning config.now rest.now }
{
    match named(config, rest) {
        Ok((c, rest)) => alone(rest, Asked::Order(Order::Refresh(c))),
        Err((cause, word)) => Asked::Refused(cause, word),
    }
}

/// What a command that names no member asks for, with what stands behind it.
fn server_command<'a>(word: &'a [u8], rest: &'a [u8]) -> Asked<'a>
    ensures { (config : Configuration) → meaning_of result ≡ meaning_among (drop 5 commands) config word.now rest.now }
{
    if word == b"reload".as_slice() {
        alone(rest, Asked::Order(Order::Reload))
    } else if word == b"stop".as_slice() {
        alone(rest, Asked::Order(Order::End))
    } else if word == b"help".as_slice() {
        alone(rest, Asked::Help)
    } else if word.is_empty() {
        Asked::Refused(Cause::NoCommand, word)
    } else {
        Asked::Refused(Cause::UnknownCommand, word)
    }
}

/// What a command asks for, with what stands behind it.
fn command<'a>(config: &Config, word: &'a [u8], rest: &'a [u8]) -> Asked<'a>
    ensures { meaning_of result ≡ command_meaning config.now word.now rest.now }
{
    if word == b"show".as_slice() {
        show(config, rest)
    } else if word == b"why".as_slice() {
        why(config, rest)
    } else if word == b"disable".as_slice() {
        disable(config, rest)
    } else if word == b"enable".as_slice() {
        enable(config, rest)
    } else if word == b"refresh".as_slice() {
        refresh(config, rest)
    } else {
        server_command(word, rest)
    }
}

/// What a line, without its end, asks for of a server with this configuration.
pub fn read_line<'a>(config: &Config, line: &'a [u8]) -> Asked<'a>
    ensures { meaning_of result ≡ line_meaning config.now line.now }
{
    match str::from_utf8(line) {
        Ok(_) => {
            let (word, rest) = split_word(unspaced(line));
            command(config, word, rest)
        }
        Err(_) => Asked::Refused(Cause::NotUtf8, &[]),
    }
}
