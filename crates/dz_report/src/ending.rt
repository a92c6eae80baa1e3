//! How a report ends.

/// How a report on questions ends.
#[derive(Clone, Copy, Debug, PartialEq, Eq)]
pub enum ReportEnd {
    /// All questions were answered by all chains.
    Done,
    /// A step has an operation that is too wide.
    Wide,
    /// A step has an operation that passes a limit.
    Large,
    /// A step passes the budget of its run or its preparation.
    Spent,
}

impl ReportEnd {
    ghost use Rattle.std.specs.Prelude.{◌≡◌, ◌≢◌, MatchBool};
    ghost use Rattle.dz_report.specs.declared.ending.ReportEnd.TheVariants.{Done};

    /// Whether something stops the report.
    pub fn stops(self) -> bool
        ensures { MatchBool result (self ≢ Done) (self ≡ Done) }
    {
        match self {
            ReportEnd::Done => false,
            ReportEnd::Wide | ReportEnd::Large | ReportEnd::Spent => true,
        }
    }
}
