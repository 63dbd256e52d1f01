// Why revisions are refused.
ghost use Rattle.std.specs.Prelude.{◌≡◌};
ghost use Rattle.revision_judge.specs.Causes.{number_of_cause};

use vtl_values::BadText;

/// Why a revision is refused.
#[derive(Clone, Copy, Debug, PartialEq, Eq)]
pub enum Cause {
    /// No data set has the revision's name.
    NoSuchSet,
    /// An identifier is null.
    NullIdentifier,
    /// A text is no value of its component's kind.
    BadText(BadText),
    /// A text stands outside its component's code list.
    NotInCodes,
    /// An earlier row of the revision has the key.
    KeyTwice,
    /// There is no point to take away.
    NoSuchPoint,
    /// The data set would have too many points.
    SetFull,
}

impl Cause {
    /// The cause's number in verdicts, from 1.
    pub fn number(&self) -> u8
        ensures { result ≡ number_of_cause self.now }
    {
        match self {
            Cause::NoSuchSet => 1,
            Cause::NullIdentifier => 2,
            Cause::BadText(_) => 3,
            Cause::NotInCodes => 4,
            Cause::KeyTwice => 5,
            Cause::NoSuchPoint => 6,
            Cause::SetFull => 7,
        }
    }
}
