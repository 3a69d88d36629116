//! What an operator has asked of the log: how much it tells, and what each line begins with.

ghost use Rattle.std.specs.Prelude.{◌≡◌};
ghost use Rattle.rs_reports.specs.Levels.{is_shown};

/// How much the log tells. Each level has all that those before it have.
#[derive(Clone, Copy, Debug, PartialEq, Eq)]
pub enum Level {
    /// What goes wrong: sessions that end, connections and rules that are refused.
    Error,
    /// And what changes: sessions that are up, rules that are accepted.
    Change,
    /// And what is wrong with routes.
    Route,
}

/// What is told on standard error, and how.
#[derive(Clone, Copy, Debug, PartialEq, Eq)]
pub struct Log {
    /// Nothing is told where there is none.
    pub level: Option<Level>,
    /// Lines begin with the time of day (UTC), and not with the seconds since the start.
    pub has_utc: bool,
}

impl Log {
    /// Reports of this level are told.
    pub fn shows(&self, level: Level) -> bool
        ensures { result ≡ is_shown self.now.level level }
    {
        match self.level {
            None => false,
            Some(Level::Error) => matches!(level, Level::Error),
            Some(Level::Change) => !matches!(level, Level::Route),
            Some(Level::Route) => true,
        }
    }
}
