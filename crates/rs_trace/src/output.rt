//! The lines that a replay writes: each is made in a `Vec` that is lent, and written whole. It
//! writes by `TextOut` alone.

ghost use Rattle.std.specs.Prelude.{◌≡◌, ◌≤◌, ◌+◌, ◌++◌, ◌∷◌, [], ℕ, min, length, take, codes, IfOk, IsOk, IsErr, OnOk, OnErr, decimal};
ghost use Rattle.rs_policy.specs.FaultTexts.{rules_fault_text};
ghost use Rattle.rs_trace.specs.Output.{client_line, fault_line, prefix_text, refused_line, route_line, sent_line};
ghost use Rattle.rs_trace.specs.Played.{rules_line};

use crate::text::{Failed, TextOut};
use crate::trace::LineFault;
use rs_octets::Prefix;
use rs_policy::RulesFault;
use std::alloc::{AllocError, Global};

/// Writes all of the octets. Where a call fails, a front of them was written.
pub fn put<W: TextOut>(writer: &mut W, octets: &[u8]) -> Result<(), Failed>
    ensures ok { OnOk result (W.puts writer.old octets.now writer.new) }
    ensures front { OnErr result ((n : ℕ) × (n ≤ length octets.now) × W.puts writer.old (take n octets.now) writer.new) }
    ensures counted { IsOk result → W.failures writer.new ≡ W.failures writer.old }
    ensures failed { IsErr result → W.failures writer.new ≡ min (W.failures writer.old + 1) 18446744073709551615 }
{
    let mut rest = octets;
    while !rest.is_empty() {
        let size = writer.write(rest)?;
        rest = &rest[size..];
    }
    Ok(())
}

/// Makes the line of a word and a client, as `close NAME`.
fn word_and_name(line: &mut Vec<u8>, word: &[u8], name: &[u8]) -> Result<(), AllocError>
    ensures { OnOk result (line.new.items ≡ client_line word.now name.now) }
{
    line.clear();
    line.extend_from_slice(word)?;
    line.extend_from_slice(b" ")?;
    line.extend_from_slice(name)?;
    line.extend_from_slice(b"\n")
}

/// Makes the line of octets that a client is sent, `sent NAME HEX`.
pub fn sent(alloc: Global, line: &mut Vec<u8>, name: &[u8], octets: &[u8]) -> Result<(), AllocError>
    ensures { OnOk result (line.new.items ≡ sent_line name.now octets.now) }
{
    line.clear();
    line.extend_from_slice(b"sent ")?;
    line.extend_from_slice(name)?;
    line.extend_from_slice(b" ")?;
    line.extend_from_slice(hex::encode(alloc, octets)?.as_bytes())?;
    line.extend_from_slice(b"\n")
}

/// Makes the line of a client whose connection is closed, `close NAME`.
pub fn closed(line: &mut Vec<u8>, name: &[u8]) -> Result<(), AllocError>
    ensures { OnOk result (line.new.items ≡ client_line (codes "close") name.now) }
{
    word_and_name(line, b"close", name)
}

/// Makes the line of a client that has a session already, `busy NAME`.
pub fn busy(line: &mut Vec<u8>, name: &[u8]) -> Result<(), AllocError>
    ensures { OnOk result (line.new.items ≡ client_line (codes "busy") name.now) }
{
    word_and_name(line, b"busy", name)
}

/// Makes the line of a client for which memory was refused, `memory NAME`.
pub fn memory(line: &mut Vec<u8>, name: &[u8]) -> Result<(), AllocError>
    ensures { OnOk result (line.new.items ≡ client_line (codes "memory") name.now) }
{
    word_and_name(line, b"memory", name)
}

/// Makes the line of a configuration that was not taken, `rules refused: TEXT`.
fn refused(line: &mut Vec<u8>, fault: &RulesFault) -> Result<(), AllocError>
    ensures { OnOk result (line.new.items ≡ refused_line (rules_fault_text fault.now)) }
{
    let mut text = [0; 96];
    let size = fault.write(&mut text);
    line.clear();
    line.extend_from_slice(b"rules refused: ")?;
    line.extend_from_slice(&text[..size])?;
    line.extend_from_slice(b"\n")
}

/// Makes the line of a configuration that was taken, `rules accepted`, or was not.
pub fn ruled(line: &mut Vec<u8>, answer: &Result<(), RulesFault>) -> Result<(), AllocError>
    ensures { OnOk result (line.new.items ≡ rules_line answer.now) }
{
    match answer {
        Ok(()) => {
            line.clear();
            line.extend_from_slice(b"rules accepted\n")
        }
        Err(fault) => refused(line, fault),
    }
}

/// Puts a number at the end of a line, in decimal digits.
fn put_number(alloc: Global, line: &mut Vec<u8>, number: u32) -> Result<(), AllocError>
    ensures { OnOk result (line.new.items ≡ line.old.items ++ decimal number) }
{
    line.extend_from_slice(format!(in alloc; "{number}")?.as_bytes())
}

/// Puts a prefix at the end of a line, as `198.51.100.0/24`.
pub fn put_prefix(alloc: Global, line: &mut Vec<u8>, prefix: &Prefix) -> Result<(), AllocError>
    ensures { OnOk result (line.new.items ≡ line.old.items ++ prefix_text prefix.now) }
{
    let bits = prefix.bits();
    put_number(alloc, line, bits / 16777216)?;
    line.extend_from_slice(b".")?;
    put_number(alloc, line, bits / 65536 % 256)?;
    line.extend_from_slice(b".")?;
    put_number(alloc, line, bits / 256 % 256)?;
    line.extend_from_slice(b".")?;
    put_number(alloc, line, bits % 256)?;
    line.extend_from_slice(b"/")?;
    put_number(alloc, line, u32::from(prefix.len()))
}

/// The line of a route, `route NAME PREFIX HEX`.
pub fn route(
    alloc: Global,
    name: &[u8],
    prefix: &Prefix,
    attributes: &[u8],
) -> Result<Vec<u8>, AllocError>
    ensures { IfOk result (λ line. line.items ≡ route_line name.now prefix.now attributes.now) }
{
    let mut line = Vec::from_slice(alloc, b"route ")?;
    line.extend_from_slice(name)?;
    line.extend_from_slice(b" ")?;
    put_prefix(alloc, &mut line, prefix)?;
    line.extend_from_slice(b" ")?;
    line.extend_from_slice(hex::encode(alloc, attributes)?.as_bytes())?;
    line.extend_from_slice(b"\n")?;
    Ok(line)
}

/// Makes the line of a fault, `line N: FAULT`.
pub fn faulty(
    alloc: Global,
    line: &mut Vec<u8>,
    number: u64,
    fault: LineFault,
) -> Result<(), AllocError>
    ensures { OnOk result (line.new.items ≡ fault_line number fault) }
{
    line.clear();
    line.extend_from_slice(b"line ")?;
    line.extend_from_slice(format!(in alloc; "{number}")?.as_bytes())?;
    line.extend_from_slice(b": ")?;
    line.extend_from_slice(fault.text().as_bytes())?;
    line.extend_from_slice(b"\n")
}
