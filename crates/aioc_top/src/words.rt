//! The words of the command line.

ghost use Rattle.std.specs.Prelude.{◌≡◌};
ghost use Rattle.command_words.specs.Commands.{word_texts};
ghost use Rattle.aioc_top.specs.Words.{is_threaded};

/// Whether the words ask for what is done by threads: their first is `run` or `sessions`.
pub fn is_threaded(words: &[Vec<u8>]) -> bool
    ensures { result ≡ is_threaded (word_texts words.now) }
{
    match words {
        [] => false,
        [name, ..] => {
            name.as_slice() == b"run".as_slice() || name.as_slice() == b"sessions".as_slice()
        }
    }
}
