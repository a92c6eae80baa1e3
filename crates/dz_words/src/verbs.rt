//! The verbs.

ghost use Rattle.std.specs.Prelude.{◌≡◌, find};
ghost use Rattle.std.specs.Str.{bytes_eq};
ghost use Rattle.dz_words.specs.Verbs.{name_of, verbs};

use crate::options::Key;

/// What the program is asked to do.
#[derive(Clone, Copy, Debug, PartialEq, Eq)]
pub enum Verb {
    /// `decompose`: split a system into chains.
    Decompose,
    /// `check`: check a document of a system.
    Check,
    /// `reduce`: reduce questions by the chains of a system.
    Reduce,
    /// `prepare`: write questions by the members of the chains.
    Prepare,
    /// `series`: compute a series at values.
    Series,
    /// `parametric`: list what a chain leaves free.
    Parametric,
    /// `sample`: make and split a system from a seed.
    Sample,
}

impl Verb {
    ghost use Rattle.std.specs.Prelude.{◌≡◌};
    ghost use Rattle.dz_words.specs.Verbs.{name_of, options_of};

    /// Its name.
    fn name(self) -> &'static str
        ensures { result.now ≡ name_of self }
    {
        match self {
            Verb::Decompose => "decompose",
            Verb::Check => "check",
            Verb::Reduce => "reduce",
            Verb::Prepare => "prepare",
            Verb::Series => "series",
            Verb::Parametric => "parametric",
            Verb::Sample => "sample",
        }
    }

    /// The options that it has.
    pub(crate) fn options(self) -> &'static [Key]
        ensures { result.now ≡ options_of self }
    {
        match self {
            Verb::Decompose => &[Key::Budget],
            Verb::Check => &[],
            Verb::Reduce => &[Key::Budget],
            Verb::Prepare => &[Key::Budget],
            Verb::Series => &[Key::Budget, Key::Chain, Key::Order],
            Verb::Parametric => &[Key::Budget, Key::Chain, Key::Order],
            Verb::Sample => &[Key::Seed, Key::Size],
        }
    }
}

// All verbs.
const VERBS: [Verb; 7] = [
    Verb::Decompose,
    Verb::Check,
    Verb::Reduce,
    Verb::Prepare,
    Verb::Series,
    Verb::Parametric,
    Verb::Sample,
];

/// The verb with this name.
pub(crate) fn verb_named(word: &str) -> Option<Verb>
    ensures { result ≡ find (λ verb. bytes_eq (name_of verb) word.now) verbs }
{
    VERBS.iter().copied().find(|verb| verb.name() == word)
}
