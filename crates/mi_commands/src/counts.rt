//! Which options a command takes, and how many parameters.

ghost use Rattle.std.specs.Prelude.{◌≡◌};
ghost use Rattle.mi_commands.specs.Operations.{spelling, is_named, takes_value, allows, fits};

/// An option that some command takes.
#[derive(Clone, Copy)]
pub enum OptionName {
    Temporary,
    Disabled,
    Ignore,
    Condition,
    /// The thread in which a breakpoint stops.
    InThread,
    /// The thread that a command speaks of.
    Thread,
    All,
}

/// Which options a command takes.
#[derive(Clone, Copy)]
pub enum Allowed {
    Nothing,
    /// Those of `-break-insert`.
    OfInsertion,
    /// `--thread`.
    OfThread,
    /// `--thread` or `--all`.
    OfThreads,
}

/// How many parameters a command takes.
#[derive(Clone, Copy)]
pub enum Count {
    Zero,
    One,
    Two,
    TwoOrThree,
    AtMostOne,
    AtLeastOne,
}

impl OptionName {
    /// How the option is spelled.
    #[tactic(auto, unfolding(crate::specs::Operations::spelling))]
    pub fn spelled(self) -> &'static [u8]
        ensures { result.now ≡ spelling self }
    {
        match self {
            OptionName::Temporary => b"-t",
            OptionName::Disabled => b"-d",
            OptionName::Ignore => b"-i",
            OptionName::Condition => b"-c",
            OptionName::InThread => b"-p",
            OptionName::Thread => b"--thread",
            OptionName::All => b"--all",
        }
    }

    /// Whether this word spells the option.
    pub fn names(self, word: &[u8]) -> bool
        ensures { result ≡ is_named self word.now }
    {
        word == self.spelled()
    }
}

/// Whether the option that is so spelled has a value.
pub fn takes_value(word: &[u8]) -> bool
    ensures { result ≡ takes_value word.now }
{
    OptionName::Ignore.names(word)
        || OptionName::Condition.names(word)
        || OptionName::InThread.names(word)
        || OptionName::Thread.names(word)
}

impl Allowed {
    /// Whether the option that is so spelled is among these.
    pub fn allows(self, word: &[u8]) -> bool
        ensures { result ≡ allows self word.now }
    {
        match self {
            Allowed::Nothing => false,
            Allowed::OfInsertion => {
                OptionName::Temporary.names(word)
                    || OptionName::Disabled.names(word)
                    || OptionName::Ignore.names(word)
                    || OptionName::Condition.names(word)
                    || OptionName::InThread.names(word)
            }
            Allowed::OfThread => OptionName::Thread.names(word),
            Allowed::OfThreads => OptionName::Thread.names(word) || OptionName::All.names(word),
        }
    }
}

impl Count {
    /// Whether so many parameters may stand there.
    pub fn fits(self, n: usize) -> bool
        ensures { result ≡ fits self n }
    {
        match self {
            Count::Zero => n == 0,
            Count::One => n == 1,
            Count::Two => n == 2,
            Count::TwoOrThree => 2 <= n && n <= 3,
            Count::AtMostOne => n <= 1,
            Count::AtLeastOne => 1 <= n,
        }
    }
}
