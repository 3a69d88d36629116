//! The notes of routes by the import lists of a configuration: a turn asks no import list anew.

ghost use Rattle.std.specs.Prelude.{◌≡◌, length};
ghost use Rattle.rs_adjin.specs.AdjIns.{client_count, AreNoted, Same, SameNumbers};
ghost use Rattle.rs_policy.specs.Noted.{note_of_import};

use rs_adjin::{AdjIns, Notes};
use rs_attrs::Attrs;
use rs_octets::Prefix;
use rs_policy::{Config, import_note};

/// Gives a route the note of its sender's import list.
#[derive(Clone, Copy)]
struct ImportNotes<'a> {
    config: &'a Config,
}

impl Notes for ImportNotes<'_> {
    ghost use Rattle.std.specs.Prelude.{length};
    ghost use Rattle.rs_policy.specs.Noted.{note_of_import};

    ghost known = { λ notes. length notes.config.now.clients };

    ghost note_by = { λ notes. note_of_import notes.config.now };

    fn note(&self, client: usize, prefix: &Prefix, attrs: &Attrs) -> u32 {
        import_note(self.config, client, prefix, attrs)
    }
}

/// Each route gets the note of its sender's import list. It takes no memory.
pub fn note_all(ins: &mut AdjIns, config: &Config)
    requires { client_count ins.old ≡ length config.now.clients }
    ensures noted { AreNoted (note_of_import config.now) ins.new }
    ensures same { Same ins.old ins.new }
    ensures numbers { SameNumbers ins.old ins.new }
{
    ins.note_all(&ImportNotes { config });
}
