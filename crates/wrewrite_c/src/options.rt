//! What is wanted of a call, as its caller says it in words.

ghost use Rattle.std.specs.Prelude.{◌≡◌, MatchOption};
ghost use Rattle.std.specs.Bool.{MatchBool};
ghost use Rattle.wrewrite_c.specs.Options.{word_at, is_on, HasSize, AreZero, HasSwitches, AreOptions};

/// The number of words that this library knows.
const KNOWN: usize = 4;

/// What is wanted.
#[derive(Clone, Copy)]
pub(crate) struct Options {
    /// Whether the location map is wanted.
    pub has_map: bool,
    /// Whether debug information is left out of the module.
    pub strips_debug: bool,
    /// Whether all custom sections are left out of the module.
    pub strips_all: bool,
}

/// A word, or 0 where there are fewer.
fn word_of(words: &[u32], at: usize) -> u32
    ensures { result ≡ word_at words.now at }
{
    match words.get(at) {
        Some(word) => *word,
        None => 0,
    }
}

/// Whether a switch is turned on.
fn is_turned_on(words: &[u32], at: usize) -> bool
    ensures { result ≡ is_on words.now at }
{
    word_of(words, at) > 0
}

/// Whether the first word is the number of bytes that all words take.
fn has_size(words: &[u32]) -> bool
    ensures { MatchBool result (HasSize words.now) (HasSize words.now → ⊥) }
{
    let size = word_of(words, 0);
    size > 0 && size % 4 == 0 && (size / 4) as usize == words.len()
}

/// Whether each word is 0 from this one on.
fn are_zero(words: &[u32], from: usize) -> bool
    ensures { MatchBool result (AreZero words.now from) (AreZero words.now from → ⊥) }
{
    for (at, word) in words.iter().enumerate() {
        if from <= at && *word > 0 {
            return false;
        }
    }
    true
}

impl Options {
    /// Those that are turned on.
    fn turned_on(words: &[u32]) -> Options
        ensures { HasSwitches words.now result }
    {
        Options {
            has_map: is_turned_on(words, 1),
            strips_debug: is_turned_on(words, 2),
            strips_all: is_turned_on(words, 3),
        }
    }

    /// Those that these words say, if they are ones that this library understands.
    pub fn read(words: &[u32]) -> Option<Options>
        ensures { MatchOption result
            ((options : Options) → AreOptions words.now options → ⊥) (AreOptions words.now) }
    {
        match has_size(words) && are_zero(words, KNOWN) {
            true => Some(Options::turned_on(words)),
            false => None,
        }
    }
}
