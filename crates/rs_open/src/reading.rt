//! Reading the body of an OPEN (RFC 4271, 4.2 and 6.2; RFC 5492, 4).

ghost use Rattle.std.specs.Prelude.{◌≡◌, ◌≤◌, length};
ghost use Rattle.rs_open.specs.Triples.{row_of};
ghost use Rattle.rs_open.specs.Opens.{open_of};
ghost use Rattle.rs_open.specs.Walk.{triple_in, no_capabilities, capability_answer, capabilities_answer, parameters_answer, open_answer};

use crate::codes::{CAPABILITIES, EXTENDED_MESSAGE, FOUR_OCTET_AS, VERSION};
use crate::open::{Open, OpenFault};
use crate::triples::{Triple, first_triple};
use byteorder::{BigEndian, ByteOrder};
use rs_octets::is_refused_hold;

/// What the capabilities read so far say.
#[derive(Clone, Copy)]
struct Capabilities {
    four: Option<u32>,
    long: bool,
}

impl Capabilities {
    /// One more capability. The first AS number counts; capabilities that are not used are passed over.
    fn with(self, capability: &Triple<'_>) -> Result<Capabilities, OpenFault>
        ensures { result ≡ capability_answer self (triple_in capability.now) }
    {
        match capability.kind {
            FOUR_OCTET_AS => {
                if capability.value.len() != 4 {
                    return Err(OpenFault::Malformed);
                }
                let number = BigEndian::read_u32(capability.value);
                Ok(Capabilities {
                    four: self.four.or(Some(number)),
                    ..self
                })
            }
            EXTENDED_MESSAGE if capability.value.is_empty() => Ok(Capabilities {
                long: true,
                ..self
            }),
            _ => Ok(self),
        }
    }

    /// The capabilities in a parameter.
    fn with_all(self, value: &[u8]) -> Result<Capabilities, OpenFault>
        ensures { result ≡ capabilities_answer self (row_of value.now) }
    {
        let mut found = self;
        let mut rest = value;
        while let Some((capability, after)) = first_triple(rest) {
            found = found.with(&capability)?;
            rest = after;
        }
        if rest.is_empty() {
            Ok(found)
        } else {
            Err(OpenFault::Malformed)
        }
    }
}

/// The capabilities in the parameters of an OPEN.
fn read_parameters(parameters: &[u8]) -> Result<Capabilities, OpenFault>
    ensures { result ≡ parameters_answer no_capabilities (row_of parameters.now) }
{
    let mut found = Capabilities {
        four: None,
        long: false,
    };
    let mut rest = parameters;
    while let Some((parameter, after)) = first_triple(rest) {
        if parameter.kind != CAPABILITIES {
            return Err(OpenFault::Parameter);
        }
        found = found.with_all(parameter.value)?;
        rest = after;
    }
    if rest.is_empty() {
        Ok(found)
    } else {
        Err(OpenFault::Malformed)
    }
}

/// What an OPEN with these capabilities says, or the fault of its Hold Time or of its identifier.
fn open_with(body: &[u8], capabilities: Capabilities) -> Result<Open, OpenFault>
    requires { 10 ≤ length body.now }
    ensures { result ≡ open_answer capabilities body.now }
{
    let Capabilities { four, long } = capabilities;
    let my_as = BigEndian::read_u16(&body[1..]);
    let hold = BigEndian::read_u16(&body[3..]);
    let identifier = BigEndian::read_u32(&body[5..]);
    if is_refused_hold(hold) {
        return Err(OpenFault::Hold { my_as, four });
    }
    if identifier == 0 {
        return Err(OpenFault::Identifier { my_as, four });
    }
    Ok(Open {
        my_as,
        four,
        hold,
        identifier,
        long,
    })
}

/// Reads the body of an OPEN, the octets behind its header: at least 10.
///
/// Of several faults the first is answered, in the order of version, parameters from left to right,
/// Hold Time and identifier (RFC 4271, 6.2). The AS number is left to the caller.
pub fn read_open(body: &[u8]) -> Result<Open, OpenFault>
    requires { 10 ≤ length body.now }
    ensures { result ≡ open_of body.now }
{
    if body[0] != VERSION {
        return Err(OpenFault::Version);
    }
    let (fixed, parameters) = body.split_at(10);
    if usize::from(fixed[9]) != parameters.len() {
        return Err(OpenFault::Malformed);
    }
    open_with(body, read_parameters(parameters)?)
}
