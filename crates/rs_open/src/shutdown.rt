//! The text that an operator gives the end of a session (RFC 9003).

ghost use Rattle.std.specs.Prelude.{◌≡◌, ◌-◌, ◌≤◌, ◌++◌, length, replicate, IfSome};
ghost use Rattle.std.specs.Str.{is_utf8};
ghost use Rattle.rs_open.specs.Notes.{shutdown_text, text_octets};

/// The most octets of a text: those that RFC 8203 allows, so that each receiver takes them.
pub const TEXT_MAX: usize = 128;

/// A text of at most [`TEXT_MAX`] octets of UTF-8.
#[derive(Clone, Copy, Debug, PartialEq, Eq)]
pub struct ShutdownText {
    /// The text, and zeros behind it.
    pub(crate) octets: [u8; 128],
    /// The octets of the text.
    pub(crate) count: u8,
}

/// Octets are UTF-8.
#[tactic(auto, using(crate::proofs::Texts::utf8_tested, crate::proofs::Texts::utf8_refuted))]
fn is_utf8(octets: &[u8]) -> bool
    ensures { result ≡ is_utf8 octets.now }
{
    match str::from_utf8(octets) {
        Ok(_) => true,
        Err(_) => false,
    }
}

/// A text, and zeros behind it.
fn padded(text: &[u8]) -> [u8; 128]
    requires { length text.now ≤ 128 }
    ensures { result ≡ text.now ++ replicate (128 - length text.now) 0 }
{
    let mut octets = [0; 128];
    octets[..text.len()].copy_from_slice(text);
    octets
}

impl ShutdownText {
    /// No text: the NOTIFICATION has no data.
    pub const NONE: ShutdownText = ShutdownText {
        octets: [0; 128],
        count: 0,
    };

    /// The text of these octets; `None` where they are more than [`TEXT_MAX`], or no UTF-8.
    #[tactic(auto, using(crate::proofs::Texts::text_kept))]
    pub fn of(text: &[u8]) -> Option<ShutdownText>
        ensures is { result ≡ shutdown_text text.now }
        ensures kept { IfSome result (λ said. text_octets said ≡ text.now) }
    {
        if text.len() > TEXT_MAX || !is_utf8(text) {
            return None;
        }
        Some(ShutdownText {
            octets: padded(text),
            count: text.len() as u8,
        })
    }

    /// Its octets.
    pub fn octets(&self) -> &[u8]
        ensures { result.now ≡ text_octets self.now }
    {
        &self.octets[..usize::from(self.count).min(TEXT_MAX)]
    }
}
