//! Building a `Core`.

ghost use Rattle.std.specs.Prelude.{◌≡◌, [], ◌∷◌, length, IfOk};
ghost use Rattle.rs_core.specs.Run.Parts.{HaveHeardNothing};

use crate::endings::Watched;
use crate::ribs::Ribs;
use crate::route_server::Core;
use rs_octets::longest_message;
use rs_policy::Config;
use rs_session::{Session, Settings};
use std::alloc::{AllocError, Global};

/// Sessions without a connection.
fn sessions(alloc: Global, config: &Config) -> Result<Vec<Session>, AllocError>
    ensures count { IfOk result (λ v. length v.items ≡ length config.now.clients) }
    ensures heard { IfOk result (λ v. HaveHeardNothing config.now v.items) }
{
    let mut all = Vec::with_capacity(alloc, config.clients())?;
    for c in 0..config.clients() {
        all.push(Session::new(Settings {
            peer_as: config.client_as(c),
            hold: config.hold(),
            extended: config.extended(),
        }))?;
    }
    Ok(all)
}

/// Empty receive buffers, each with room for the longest message.
fn buffers(alloc: Global, config: &Config) -> Result<Vec<Vec<u8>>, AllocError>
    ensures { IfOk result (λ v. length v.items ≡ length config.now.clients) }
{
    let longest = usize::from(longest_message(config.extended()));
    let mut all = Vec::with_capacity(alloc, config.clients())?;
    for _c in 0..config.clients() {
        all.push(Vec::with_capacity(alloc, longest)?)?;
    }
    Ok(all)
}

impl Core {
    ghost use Rattle.rs_core.specs.Core.{client_count};
    ghost use Rattle.rs_core.specs.Run.Moves.{Ruled};
    ghost use Rattle.rs_core.specs.Run.Agreeing.{Agrees};

    /// A route server with this configuration, whose clients are all Idle.
    pub fn new(alloc: Global, config: Config) -> Result<Core, AllocError>
        ensures count { IfOk result (λ core. client_count core ≡ length config.clients) }
        ensures agrees { IfOk result (λ core. Agrees core (Ruled config ∷ [])) }
    {
        let count = config.clients();
        let sessions = sessions(alloc, &config)?;
        let buffers = buffers(alloc, &config)?;
        let watched = vec![in alloc; Watched::NONE; count]?;
        let ribs = Ribs::new(alloc, config)?;
        Ok(Core {
            alloc,
            count,
            sessions,
            buffers,
            ribs,
            watched,
        })
    }
}
