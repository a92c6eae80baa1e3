//! The options.

ghost use Rattle.std.specs.Prelude.{◌≡◌, codes};

/// An option. It takes one number, which lies in its range.
#[derive(Clone, Copy, Debug, PartialEq, Eq)]
pub enum Key {
    /// `budget`: the greatest weight of a tree.
    Budget,
    /// `chain`: the number of a chain, counted from 1.
    Chain,
    /// `order`: the total order up to which derivatives are told.
    Order,
    /// `seed`: where the draws of a sample begin.
    Seed,
    /// `size`: how many equations of a sample are drawn.
    Size,
}

impl Key {
    ghost use Rattle.std.specs.Prelude.{◌≡◌};
    ghost use Rattle.dz_words.specs.Options.{default_of, least_of, most_of, name_of, prefix_of};

    /// Its name.
    pub(crate) fn name(self) -> &'static str
        ensures { result.now ≡ name_of self }
    {
        match self {
            Key::Budget => "budget",
            Key::Chain => "chain",
            Key::Order => "order",
            Key::Seed => "seed",
            Key::Size => "size",
        }
    }

    /// What stands before the digits of its number.
    pub(crate) fn prefix(self) -> &'static [u8]
        ensures { result.now ≡ prefix_of self }
    {
        match self {
            Key::Budget => b"--budget=",
            Key::Chain => b"--chain=",
            Key::Order => b"--order=",
            Key::Seed => b"--seed=",
            Key::Size => b"--size=",
        }
    }

    /// The least number of its range.
    pub(crate) fn least(self) -> u32
        ensures { result ≡ least_of self }
    {
        match self {
            Key::Chain => 1,
            _ => 0,
        }
    }

    /// The greatest number of its range.
    pub(crate) fn most(self) -> u32
        ensures { result ≡ most_of self }
    {
        match self {
            Key::Budget => 20_000_000,
            Key::Chain => 1_000_000,
            Key::Order => 20,
            Key::Seed => 2_147_483_647,
            Key::Size => 200,
        }
    }

    /// Its number where the words do not set it.
    pub(crate) fn default_number(self) -> u32
        ensures { result ≡ default_of self }
    {
        match self {
            Key::Budget => 1_000_000,
            Key::Chain => 1,
            Key::Order => 3,
            Key::Seed => 1,
            Key::Size => 0,
        }
    }
}
