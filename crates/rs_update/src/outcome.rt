//! The effect of an UPDATE (RFC 7606, 2 to 5).

ghost use Rattle.std.specs.Prelude.{◌≡◌, ◌&&◌, ◌||◌, IfOk, false, is_some, not};
ghost use Rattle.rs_octets.specs.Names.{code_of, sub_of};
ghost use Rattle.rs_attrs.specs.Effects.{HasEffect, effect_of, is_empty, is_faulty, lacks_mandatory, missing_for, reset_of, with_missing};
ghost use Rattle.rs_update.specs.Changes.{fields_in};
ghost use Rattle.rs_update.specs.Laws.{IsSameEffect};
ghost use Rattle.rs_update.specs.Outcomes.{effect_seen, change_seen, IsRising, AreDistinct, AreApart, HasItsAttributes, HasItsMandatory, NamesFaults, IsWithdrawn, IsAnnounced};
ghost use Rattle.rs_update.specs.declared.outcome.Outcome.TheVariants.{Reset};

use crate::fields::{Fields, cut_body};
use crate::prefixes::{make_rising, prefixes, take_away};
use rs_attrs::{AttributeFault, Attrs, Cause, Faulted, Faults, Mode, read};
use rs_octets::Notification::{
    self, InvalidNetworkField, MalformedAttributeList, UnrecognizedWellKnownAttribute,
};
use rs_octets::Prefix;
use std::alloc::{AllocError, Global};
use std::sync::Arc;

/// What an UPDATE does.
#[derive(Debug, Drop)]
pub enum Outcome {
    /// The session is reset by a NOTIFICATION of this code and subcode (RFC 4271, 6.3).
    Reset(u8, u8),
    /// Routes change. Both lists are in rising order, and no prefix stands twice, be it in one list or
    /// in both. The attributes are there exactly where something is announced.
    Change {
        withdrawn: Vec<Prefix>,
        announced: Vec<Prefix>,
        attrs: Option<Arc<Attrs>>,
        /// For the log: the first attributes at fault, or the one that is missing.
        faulted: Faulted,
    },
}

/// Routes that change.
#[derive(Drop)]
struct Routes {
    withdrawn: Vec<Prefix>,
    announced: Vec<Prefix>,
    attrs: Option<Arc<Attrs>>,
}

/// The NOTIFICATION of the first reset that attributes bring about, where neither field of prefixes is
/// faulty.
fn reset_by(faults: &Faults, fields: &Fields<'_>) -> Option<Notification>
    requires withdrawn { is_faulty (fields_in fields.now).withdrawn ≡ false }
    requires nlri { is_faulty (fields_in fields.now).nlri ≡ false }
    ensures { result ≡ reset_of (fields_in fields.now) faults.now }
{
    if faults.mp_twice {
        return Some(MalformedAttributeList);
    }
    if faults.withdraw && !fields.attributes.is_empty() && fields.nlri.is_empty() {
        return Some(MalformedAttributeList);
    }
    if faults.unknown {
        return Some(UnrecognizedWellKnownAttribute);
    }
    None
}

/// The session is reset by the NOTIFICATION of this name.
fn reset(name: Notification) -> Outcome
    ensures { result ≡ Reset (code_of name) (sub_of name) }
{
    Outcome::Reset(name.code(), name.sub())
}

/// The mandatory attribute for want of which the NLRI counts as withdrawn (RFC 7606, 3, d).
fn missing(attrs: &Attrs, fields: &Fields<'_>) -> Option<u8>
    ensures first { result ≡ missing_for (fields_in fields.now) attrs.now }
    ensures lacks { is_some result ≡ (not (is_empty (fields_in fields.now).nlri) && lacks_mandatory attrs.now) }
{
    if fields.nlri.is_empty() {
        None
    } else {
        attrs.missing()
    }
}

/// Whether the NLRI counts as withdrawn, for an attribute that came or for one that is missing
/// (RFC 7606, 2 and 3, d).
fn treats_as_withdraw(faults: &Faults, missing: Option<u8>) -> bool
    ensures { result ≡ (faults.now.withdraw || is_some missing) }
{
    faults.withdraw || missing.is_some()
}

/// What is noted of attributes at fault, and of one that is missing.
fn faults_noted(faulted: Faulted, missing: Option<u8>) -> Faulted
    ensures { result ≡ with_missing faulted missing }
{
    let missing = missing.map(|kind| AttributeFault {
        kind,
        cause: Cause::Missing,
    });
    Faulted {
        withdraw: faulted.withdraw.or(missing),
        ..faulted
    }
}

/// Withdraws all that an UPDATE names.
fn withdraw_all(
    alloc: Global,
    withdrawn: Vec<Prefix>,
    nlri: &[Prefix],
) -> Result<Routes, AllocError>
    ensures { IfOk result (λ routes. IsWithdrawn withdrawn.items nlri.now (change_seen routes)) }
{
    let mut withdrawn = withdrawn;
    withdrawn.extend_from_slice(nlri)?;
    make_rising(&mut withdrawn);
    Ok(Routes {
        withdrawn,
        announced: Vec::new(alloc),
        attrs: None,
    })
}

/// Announces the NLRI, and withdraws what else the UPDATE names.
fn announce(
    alloc: Global,
    withdrawn: Vec<Prefix>,
    nlri: Vec<Prefix>,
    attrs: Attrs,
) -> Result<Routes, AllocError>
    ensures { IfOk result (λ routes. IsAnnounced withdrawn.items nlri.items attrs (change_seen routes)) }
{
    let mut withdrawn = withdrawn;
    let mut announced = nlri;
    make_rising(&mut announced);
    make_rising(&mut withdrawn);
    take_away(&mut withdrawn, &announced);
    let attrs = if announced.is_empty() {
        None
    } else {
        Some(Arc::new(alloc, attrs)?)
    };
    Ok(Routes {
        withdrawn,
        announced,
        attrs,
    })
}

/// What the UPDATE with this body does, from a peer of this kind: a reset, by the first of its five
/// causes that holds, or the routes that change (RFC 4271, 4.3 and 6.3; RFC 7606, 2 to 5). The body
/// is what stands behind the message's header; octets that are faulty are no error.
///
/// # Errors
///
/// `AllocError` where memory was refused.
pub fn effect(alloc: Global, body: &[u8], mode: Mode) -> Result<Outcome, AllocError>
    ensures effect { IfOk result (λ outcome. HasEffect body.now mode (effect_seen outcome)) }
    ensures computed { IfOk result (λ outcome. IsSameEffect (effect_seen outcome) (effect_of body.now mode)) }
    ensures rising { IfOk result IsRising }
    ensures distinct { IfOk result AreDistinct }
    ensures apart { IfOk result AreApart }
    ensures attributes { IfOk result HasItsAttributes }
    ensures mandatory { IfOk result HasItsMandatory }
    ensures faults_noted { IfOk result (NamesFaults body.now mode) }
{
    let Some(fields) = cut_body(body) else {
        return Ok(reset(MalformedAttributeList));
    };
    let parsed = read(alloc, fields.attributes, mode)?;
    let Some(withdrawn) = prefixes(alloc, fields.withdrawn)? else {
        return Ok(reset(InvalidNetworkField));
    };
    let Some(nlri) = prefixes(alloc, fields.nlri)? else {
        return Ok(reset(InvalidNetworkField));
    };
    if let Some(name) = reset_by(&parsed.faults, &fields) {
        return Ok(reset(name));
    }
    let missing = missing(&parsed.attrs, &fields);
    let faulted = faults_noted(parsed.faulted, missing);
    let Routes {
        withdrawn,
        announced,
        attrs,
    } = if treats_as_withdraw(&parsed.faults, missing) {
        withdraw_all(alloc, withdrawn, &nlri)?
    } else {
        announce(alloc, withdrawn, nlri, parsed.attrs)?
    };
    Ok(Outcome::Change {
        withdrawn,
        announced,
        attrs,
        faulted,
    })
}
