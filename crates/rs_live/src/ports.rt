//! What the server asks of the outside, as one trait: connections, a clock, a file, and places to
//! print. Nothing of the crate reaches further.

ghost use Rattle.std.specs.Prelude.{◌≡◌, ◌≤◌, ◌∷◌, ℕ, Bool, List, IfOk, IfSome, length};
ghost use Rattle.rs_live.specs.Calls.{Call, Waited, Accepted, Read, Wrote, Closed, Timed, Fetched, Ordered, Printed, Logged};
ghost use Rattle.rs_live.specs.Orders.{IsOf};
ghost use Rattle.rs_reports.specs.declared.logging.Level.{Level};

use rs_control::order::Order;
use rs_core::Core;
use rs_policy::RulesFault;
use rs_reports::logging::Level;
use rs_reports::reports::Report;
use rs_streams::file_watch::FileFault;
use rs_streams::record_file::RecordEnd;

/// A call on the ports failed.
#[derive(Clone, Copy, Debug, PartialEq, Eq)]
pub struct PortFault;

/// A connection that was accepted: at which of the distinct `listen` addresses, in the order of the
/// configuration and counted from 0; the address that it came from; and a key that the ports chose.
#[derive(Clone, Copy, Debug, PartialEq, Eq)]
pub struct Incoming {
    pub listener: usize,
    pub address: u32,
    pub key: usize,
}

/// A line that the server prints on standard output.
#[derive(Clone, Copy, Debug, PartialEq, Eq)]
pub enum Line {
    /// A connection of a client begins.
    Begin(usize),
    /// A second connection of a client is closed.
    Busy(usize),
    /// A connection of a client that is kept down is closed.
    Disabled(usize),
    /// A connection of nobody's is closed.
    Stranger,
    /// The server closes the connection of a client.
    Close(usize),
    /// The connection of a client is lost.
    Lost(usize),
    /// Memory was refused in hearing a client, or in deciding for it.
    Memory(usize),
    /// A text of rules was accepted, or why it was not.
    Rules(Result<(), RulesFault>),
    /// The file of rules was not read.
    File(FileFault),
}

/// What happens, as those who look at the server are told of it by counts.
#[derive(Clone, Copy, Debug)]
pub enum Observed<'a> {
    /// The core is given these octets of a client.
    Heard(usize, &'a [u8]),
    /// These were taken for a client's connection.
    Sent(usize, &'a [u8]),
    /// The core is given a turn.
    TurnBegins,
    /// It was done.
    TurnEnds,
}

/// Listeners, connections, a clock, a file of rules and places to print. `asked ports calls` says that
/// the ports were asked these calls, the newest first; where it always holds, nothing is known.
/// `shown ports level` says whether an operator is shown reports of a level.
pub trait Ports {
    ghost asked: { Self → List Call → Type 0 };

    ghost shown: { Self → Level → Bool };

    /// Waits until something is ready, at most one second, or only asks for what is.
    fn wait(&mut self, pause: bool) -> Result<(), PortFault>
        ensures { (calls : List Call) → asked self.old calls → asked self.new (Waited result ∷ calls) };

    /// The next connection that has come; `None` where none has.
    fn accept(&mut self) -> Result<Option<Incoming>, PortFault>
        ensures { (calls : List Call) → asked self.old calls → asked self.new (Accepted result ∷ calls) };

    /// Reads a piece of a connection. `None` where nothing is there, 0 at the end of input.
    fn read(&mut self, key: usize, piece: &mut [u8; 4096]) -> Result<Option<usize>, PortFault>
        ensures count { IfOk result (λ r. IfSome r (λ n. n ≤ 4096)) }
        ensures asked { (calls : List Call) → asked self.old calls → asked self.new (Read key piece.new result ∷ calls) };

    /// Writes a front of the octets. `None` where the connection takes none at present.
    fn write(&mut self, key: usize, octets: &[u8]) -> Result<Option<usize>, PortFault>
        ensures count { IfOk result (λ r. IfSome r (λ n. n ≤ length octets.now)) }
        ensures asked { (calls : List Call) → asked self.old calls → asked self.new (Wrote key octets.now result ∷ calls) };

    /// Closes a connection.
    fn close(&mut self, key: usize)
        ensures { (calls : List Call) → asked self.old calls → asked self.new (Closed key ∷ calls) };

    /// The whole seconds since the start.
    fn seconds(&mut self) -> u64
        ensures { (calls : List Call) → asked self.old calls → asked self.new (Timed result ∷ calls) };

    /// The text of the file of rules, in place of what stands in `text`. `false` where there is none that was
    /// not given already; what then stands in `text` is not said. A fault is answered once.
    fn text(&mut self, text: &mut Vec<u8>) -> Result<bool, FileFault>
        ensures { (calls : List Call) → asked self.old calls → asked self.new (Fetched text.new.items result ∷ calls) };

    /// The next order of the operator's, to a server of so many clients; `None` where there is none now.
    fn command(&mut self, clients: usize) -> Option<Order>
        ensures client { IfSome result (λ order. IsOf clients order) }
        ensures asked { (calls : List Call) → asked self.old calls → asked self.new (Ordered result ∷ calls) };

    /// Prints a line, now or later, or counts it among those that are left out.
    fn print(&mut self, line: &Line)
        ensures { (calls : List Call) → asked self.old calls → asked self.new (Printed line.now ∷ calls) };

    /// Goes on with those who look at the server, by a bounded amount of work, and less of it where the core
    /// was left with some; answers whether something was left undone. It is no call that members are
    /// served by.
    fn show(&mut self, core: &Core, is_busy: bool) -> bool
        ensures { (calls : List Call) → asked self.old calls → asked self.new calls };

    /// Notes what happens, for those who look at the server. It is no call that members are served by.
    fn observe(&mut self, what: Observed<'_>)
        ensures { (calls : List Call) → asked self.old calls → asked self.new calls };

    /// Whether an operator is shown reports of this level.
    fn shows(&self, level: Level) -> bool
        ensures { result ≡ shown self.now level };

    /// Shows an operator what happened and why.
    fn log(&mut self, report: &Report)
        ensures { (calls : List Call) → asked self.old calls → asked self.new (Logged report.now ∷ calls) };

    /// Records lines of the run, whole events, after which the record may end; answers whether there is a
    /// record that goes on. It is no call that members are served by.
    fn record(&mut self, lines: &[u8], end: Option<RecordEnd>) -> bool
        ensures { (calls : List Call) → asked self.old calls → asked self.new calls };
}
