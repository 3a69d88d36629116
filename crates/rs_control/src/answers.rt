//! The answers to lines, but for pages: one object of JSON, in a line.

ghost use Rattle.std.specs.Prelude.{◌≡◌, ◌++◌, ◌∷◌, [], codes, IfOk};
ghost use Rattle.json.specs.Print.{print};
ghost use Rattle.json.specs.Token.{begin_object, end_object, key, string};
ghost use Rattle.rs_control.specs.Answers.{IsError, SaysSomething, error_line};

use crate::lines::Cause;
use json::Writer;
use std::alloc::{AllocError, Global};

/// What the commands are.
pub(crate) const HELP: &[u8] =
    b"{\"commands\":[\"show\",\"show NAME\",\"why NAME PREFIX\",\"disable NAME [TEXT]\",\"enable NAME\",\"refresh NAME\",\"reload\",\"stop\",\"help\"]}\n";

/// The answer where memory was refused.
pub(crate) const NO_MEMORY: &[u8] = b"{\"error\":\"out of memory\"}\n";

/// The answer where there is no such page.
pub(crate) const NO_PAGE: &[u8] = b"{\"error\":\"there is nothing to show\"}\n";

/// The answer to a line that is too long.
pub(crate) const LONG_LINE: &[u8] = b"{\"error\":\"the line has more than 1024 octets\"}\n";

/// The answers to `reload` and `stop`, where they were done.
pub(crate) const RELOADED: &[u8] = b"{\"done\":\"reload\",\"changed\":true}\n";

pub(crate) const UNCHANGED: &[u8] = b"{\"done\":\"reload\",\"changed\":false}\n";

pub(crate) const STOPPED: &[u8] = b"{\"done\":\"stop\"}\n";

/// The answer to an order where too many wait, or the server is to end.
pub(crate) const BUSY: &[u8] = b"{\"error\":\"busy\"}\n";

/// Why a line is refused. Behind it stands the word at fault, which is empty where there is none.
fn text_of(cause: Cause) -> &'static str {
    match cause {
        Cause::NoCommand => "no command: help lists them",
        Cause::UnknownCommand => "unknown command: ",
        Cause::NoName => "the name of a member is missing",
        Cause::UnknownMember => "no such member: ",
        Cause::NoPrefix => "the prefix is missing",
        Cause::NotPrefix => "no prefix: ",
        Cause::TooMuch => "one word too many: ",
        Cause::LongText => "the text has more than 128 octets: ",
        Cause::NotUtf8 => "the line is no UTF-8",
    }
}

/// An object that is begun, with a text by this name.
fn object(alloc: Global, name: &str, text: &str) -> Result<Writer, AllocError>
    ensures { IfOk result (λ writer. (writer.before ≡ []) × (writer.tokens ≡ begin_object ∷ key name.now ∷ string text.now ∷ [])) }
{
    let mut writer = Writer::new(Vec::new(alloc));
    writer.begin_object()?;
    writer.key(name)?;
    writer.string(text)?;
    Ok(writer)
}

/// The line of an object that ends here.
fn end_line(mut writer: Writer) -> Result<Vec<u8>, AllocError>
    ensures value { IfOk result (λ line. line.items ≡ writer.before ++ print (writer.tokens ++ end_object ∷ []) ++ 10 ∷ []) }
    ensures says { IfOk result (λ line. SaysSomething line.items) }
{
    writer.end_object()?;
    let mut line = writer.into_inner();
    line.push(b'\n')?;
    Ok(line)
}

/// The line that says an error.
pub(crate) fn error_line(alloc: Global, text: &str) -> Result<Vec<u8>, AllocError>
    ensures value { IfOk result (λ line. line.items ≡ error_line text.now) }
    ensures says { IfOk result (λ line. SaysSomething line.items) }
{
    end_line(object(alloc, "error", text)?)
}

/// The line that says why a line is refused.
pub(crate) fn refusal_line(alloc: Global, cause: Cause, word: &[u8]) -> Result<Vec<u8>, AllocError>
    ensures error { IfOk result (λ line. IsError line.items) }
    ensures says { IfOk result (λ line. SaysSomething line.items) }
{
    let word = str::from_utf8(word).unwrap_or("");
    let text = format!(in alloc; "{}{word}", text_of(cause))?;
    error_line(alloc, text.as_str())
}

/// The line that says that a command was done for a member.
pub(crate) fn done_line(alloc: Global, command: &str, member: &str) -> Result<Vec<u8>, AllocError>
    ensures { IfOk result (λ line. SaysSomething line.items) }
{
    let mut writer = object(alloc, "done", command)?;
    writer.key("member")?;
    writer.string(member)?;
    end_line(writer)
}
