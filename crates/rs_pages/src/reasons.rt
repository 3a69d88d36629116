//! Why a member is sent one route for a prefix, and not another.

ghost use Rattle.std.specs.Prelude.{◌≡◌, ◌<◌, ◌++◌, length, option_map, OnOk};
ghost use Rattle.rs_decision.specs.Best.{HasDistinctPlaces};
ghost use Rattle.rs_reasons.specs.Why.{cause_said, said};
ghost use Rattle.rs_page_parts.specs.Holders.{holding};
ghost use Rattle.rs_pages.specs.Candidates.{sent_outcome};
ghost use Rattle.rs_pages.specs.Why.{account_text, asked_text, cause_text, export_text, list_text, outcome_text, passes_text, rules_text, sender_text, step_text, told_text};

use crate::candidates::{Outcome, Question, sent_outcome};
use rs_decision::{Rank, Step};
use rs_page_parts::tables::Holder;
use rs_page_parts::texts::{put_address, put_json, put_number};
use rs_policy::{Config, List};
use rs_reasons::{Cause, Reason, explain};
use std::alloc::{AllocError, Global};

fn list_name(list: List) -> &'static [u8]
    ensures { result.now ≡ list_text list }
{
    match list {
        List::Import => b"import",
        List::Export => b"export",
        List::Shared => b"shared",
    }
}

/// Puts the rule that decided: its place, and the name of the rules that it is among.
fn put_cause(text: &mut Vec<u8>, cause: &Cause<'_>) -> Result<(), AllocError>
    ensures { OnOk result (text.new.items ≡ text.old.items ++ cause_text (cause_said cause.now)) }
{
    match *cause {
        Cause::Default => text.extend_from_slice(b"null"),
        Cause::Own(place) => put_number(text, place as u64),
        Cause::Used { place, name, rule } => {
            put_number(text, place as u64)?;
            text.extend_from_slice(b",\"uses\":\"")?;
            put_json(text, name.as_bytes())?;
            text.extend_from_slice(b"\",\"rule_there\":")?;
            put_number(text, rule as u64)
        }
    }
}

fn passes_name(passes: bool) -> &'static [u8]
    ensures { result.now ≡ passes_text passes }
{
    if passes {
        b",\"passes\":true}"
    } else {
        b",\"passes\":false}"
    }
}

/// Puts what a list did: the list, its member, and the rule that decided.
#[tactic(auto, unfolding(crate::specs::Why::account_text))]
fn put_reason(text: &mut Vec<u8>, reason: &Reason<'_>) -> Result<(), AllocError>
    ensures { OnOk result (text.new.items ≡ text.old.items ++ account_text (said reason.now)) }
{
    text.extend_from_slice(b"{\"list\":\"")?;
    text.extend_from_slice(list_name(reason.list))?;
    text.extend_from_slice(b"\",\"of\":\"")?;
    put_json(text, reason.client.as_bytes())?;
    text.extend_from_slice(b"\",\"rule\":")?;
    put_cause(text, &reason.cause)?;
    text.extend_from_slice(passes_name(reason.passes))
}

/// Puts what the export list did, where it was asked.
fn put_export(text: &mut Vec<u8>, export: &Option<Reason<'_>>) -> Result<(), AllocError>
    ensures { OnOk result (text.new.items ≡ text.old.items ++ export_text (option_map said export.now)) }
{
    match export {
        None => Ok(()),
        Some(reason) => {
            text.extend_from_slice(b",")?;
            put_reason(text, reason)
        }
    }
}

/// Puts what the rules did.
#[tactic(auto, unfolding(crate::specs::Why::rules_text))]
fn put_rules(
    text: &mut Vec<u8>,
    question: &Question<'_>,
    holder: &Holder<'_>,
) -> Result<(), AllocError>
    requires from { holder.now.member < length question.now.config.now.clients }
    requires to { question.now.to < length question.now.config.now.clients }
    ensures { OnOk result (text.new.items ≡ text.old.items ++ rules_text question.now.config.now question.now.to question.now.prefix (holding holder.now)) }
{
    let why = explain(
        question.config,
        holder.member,
        question.to,
        &question.prefix,
        holder.attrs,
    );
    text.extend_from_slice(b",\"rules\":[")?;
    put_reason(text, &why.import)?;
    put_export(text, &why.export)?;
    text.extend_from_slice(b"]")
}

fn step_name(step: Step) -> &'static [u8]
    ensures { result.now ≡ step_text step }
{
    match step {
        Step::Preference => b"preference",
        Step::Path => b"path",
        Step::Origin => b"ORIGIN",
        Step::Med => b"MED",
        Step::Identifier => b"identifier",
        Step::Address => b"address",
        Step::Place => b"place",
    }
}

/// Puts what becomes of a route.
fn put_outcome(text: &mut Vec<u8>, outcome: Outcome) -> Result<(), AllocError>
    ensures { OnOk result (text.new.items ≡ text.old.items ++ outcome_text outcome) }
{
    match outcome {
        Outcome::Own => text.extend_from_slice(b"\"own\""),
        Outcome::ServerAs => text.extend_from_slice(b"\"server AS\""),
        Outcome::Dropped => text.extend_from_slice(b"\"dropped\""),
        Outcome::Lost(step) => {
            text.extend_from_slice(b"\"lost\",\"by\":\"")?;
            text.extend_from_slice(step_name(step))?;
            text.extend_from_slice(b"\"")
        }
        Outcome::Chosen => text.extend_from_slice(b"\"chosen\""),
        Outcome::TooLong => text.extend_from_slice(b"\"too long for a message\""),
    }
}

/// Puts what the rules did, where they were asked.
fn put_asked(
    text: &mut Vec<u8>,
    question: &Question<'_>,
    holder: &Holder<'_>,
    outcome: Outcome,
) -> Result<(), AllocError>
    requires from { holder.now.member < length question.now.config.now.clients }
    requires to { question.now.to < length question.now.config.now.clients }
    ensures { OnOk result (text.new.items ≡ text.old.items ++ asked_text outcome (rules_text question.now.config.now question.now.to question.now.prefix (holding holder.now))) }
{
    match outcome {
        Outcome::Own | Outcome::ServerAs => Ok(()),
        Outcome::Dropped | Outcome::Lost(_) | Outcome::Chosen | Outcome::TooLong => {
            put_rules(text, question, holder)
        }
    }
}

/// Puts whose route it is.
#[tactic(auto, unfolding(crate::specs::Why::sender_text))]
fn put_sender(text: &mut Vec<u8>, config: &Config, holder: &Holder<'_>) -> Result<(), AllocError>
    requires { holder.now.member < length config.now.clients }
    ensures { OnOk result (text.new.items ≡ text.old.items ++ sender_text config.now (holding holder.now)) }
{
    text.extend_from_slice(b"{\"from\":\"")?;
    put_json(text, config.name(holder.member).as_bytes())?;
    text.extend_from_slice(b"\",\"as\":")?;
    put_number(text, u64::from(config.client_as(holder.member)))?;
    text.extend_from_slice(b",\"next_hop\":\"")?;
    put_address(text, holder.attrs.next_hop().unwrap_or(0))?;
    text.extend_from_slice(b"\",\"outcome\":")
}

/// Puts a candidate, and what becomes of it.
#[tactic(auto, unfolding(crate::specs::Why::told_text))]
pub(crate) fn put_candidate(
    text: &mut Vec<u8>,
    alloc: Global,
    question: &Question<'_>,
    ranks: &[Rank],
    holder: &Holder<'_>,
) -> Result<(), AllocError>
    requires distinct { HasDistinctPlaces ranks.now }
    requires from { holder.now.member < length question.now.config.now.clients }
    requires to { question.now.to < length question.now.config.now.clients }
    ensures { OnOk result (text.new.items ≡ text.old.items ++ told_text question.now.config.now question.now.to question.now.prefix (holding holder.now) (sent_outcome question.now.config.now question.now.to question.now.speech question.now.prefix ranks.now (holding holder.now))) }
{
    let outcome = sent_outcome(alloc, question, ranks, holder)?;
    put_sender(text, question.config, holder)?;
    put_outcome(text, outcome)?;
    put_asked(text, question, holder, outcome)?;
    text.extend_from_slice(b"}\n")
}
