//! Why words are not read.
ghost use Rattle.std.specs.Prelude.{◌≡◌};

use std::alloc::AllocError;

/// Why words are not read.
#[derive(Clone, Copy, Debug, PartialEq, Eq)]
pub enum WordsStop {
    /// They have no meaning.
    BadWords,
    /// Memory was wanting.
    NoMemory,
}

/// A text is no value of its option, or an option is missing.
#[derive(Clone, Copy, Debug)]
pub(crate) struct BadWords;

impl From<BadWords> for WordsStop {
    ghost use Rattle.mc_words.specs.declared.stop.WordsStop.{WordsStop};

    ghost from_gives = { λ _ stop. stop ≡ WordsStop.BadWords };

    fn from(_bad: BadWords) -> WordsStop {
        WordsStop::BadWords
    }
}

impl From<AllocError> for WordsStop {
    ghost use Rattle.mc_words.specs.declared.stop.WordsStop.{WordsStop};

    ghost from_gives = { λ _ stop. stop ≡ WordsStop.NoMemory };

    fn from(_error: AllocError) -> WordsStop {
        WordsStop::NoMemory
    }
}
