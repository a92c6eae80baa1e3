//! The words of the lines of trees.

ghost use Rattle.std.specs.Prelude.{◌≡◌, Option};
ghost use Rattle.dz_cert.specs.Words.{word_at};

/// A word with which a line begins, or that says how a tree stays open.
#[derive(Clone, Copy, Debug, PartialEq, Eq)]
pub enum Word {
    Reduce,
    Weed,
    Add,
    Divide,
    Split,
    Factor,
    Pair,
    Closed,
    Chain,
    Open,
    Spent,
    Pairs,
    Wide,
    Large,
    Separant,
}

const ALL_WORDS: [Word; 15] = [
    Word::Reduce,
    Word::Weed,
    Word::Add,
    Word::Divide,
    Word::Split,
    Word::Factor,
    Word::Pair,
    Word::Closed,
    Word::Chain,
    Word::Open,
    Word::Spent,
    Word::Pairs,
    Word::Wide,
    Word::Large,
    Word::Separant,
];

impl Word {
    ghost use Rattle.std.specs.Prelude.{◌≡◌};
    ghost use Rattle.dz_cert.specs.Words.{word_text};

    /// How the word is written.
    pub(crate) fn text(self) -> &'static [u8]
        ensures { result.now ≡ word_text self }
    {
        match self {
            Word::Reduce => b"reduce",
            Word::Weed => b"weed",
            Word::Add => b"add",
            Word::Divide => b"divide",
            Word::Split => b"split",
            Word::Factor => b"factor",
            Word::Pair => b"pair",
            Word::Closed => b"closed",
            Word::Chain => b"chain",
            Word::Open => b"open",
            Word::Spent => b"spent",
            Word::Pairs => b"pairs",
            Word::Wide => b"wide",
            Word::Large => b"large",
            Word::Separant => b"separant",
        }
    }
}

/// The word that is written so.
#[tactic(auto, unfolding(crate::specs::Words::word_at))]
pub(crate) fn word_of(text: &[u8]) -> Option<Word>
    ensures { result ≡ word_at text.now }
{
    ALL_WORDS.iter().copied().find(|word| word.text() == text)
}
