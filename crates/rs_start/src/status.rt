//! The statuses that both programs end with.

/// The status that a program ends with.
///
/// | | | `rs_replay` | `rs_served` |
/// |---|---|---|---|
/// | `Done` | 0 | the whole trace was played | `--sessions` sessions have ended, the operator stopped it, the configuration is good (`--check`), or what was asked was done (`--ask`) |
/// | `BadTrace` | 1 | a line of the trace has a fault | never |
/// | `Differs` | 1 | what another server sent differs from what is due (`--compare`) | never |
/// | `Refused` | 1 | never | the answer to what was asked is an error (`--ask`) |
/// | `BadCommand` | 2 | the command line, the configuration or the file to compare has a fault | the same; to start the program again is of no use |
/// | `Failed` | 3 | memory was refused, or reading or writing failed | memory was refused, or listening, serving or writing failed |
///
/// Both end with `Done` after help or the version was printed.
#[derive(Clone, Copy, Debug, PartialEq, Eq)]
pub enum Status {
    Done,
    BadTrace,
    Differs,
    Refused,
    BadCommand,
    Failed,
}

impl Status {
    ghost use Rattle.std.specs.Prelude.{◌≡◌};
    ghost use Rattle.rs_start.specs.declared.status.Status.TheVariants as statuses;

    /// The number that the system is given.
    pub fn number(self) -> u8
        ensures done { self ≡ statuses.Done → result ≡ 0 }
        ensures bad_trace { self ≡ statuses.BadTrace → result ≡ 1 }
        ensures differs { self ≡ statuses.Differs → result ≡ 1 }
        ensures refused { self ≡ statuses.Refused → result ≡ 1 }
        ensures bad_command { self ≡ statuses.BadCommand → result ≡ 2 }
        ensures failed { self ≡ statuses.Failed → result ≡ 3 }
    {
        match self {
            Status::Done => 0,
            Status::BadTrace | Status::Differs | Status::Refused => 1,
            Status::BadCommand => 2,
            Status::Failed => 3,
        }
    }
}
