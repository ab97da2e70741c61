//! A pair as the words that the cell holds.

ghost use Rattle.std.specs.Prelude.{◌≡◌, slice_index};
ghost use Rattle.live_progress.specs.Lists.{progress};
ghost use Rattle.live_progress.specs.Rule.{words_of};

use crate::Progress;

/// The words of a pair.
pub(crate) fn words_of(pair: Progress) -> [u64; 2]
    ensures { result ≡ words_of pair }
{
    [pair.events, pair.tick]
}

/// The pair of these words.
pub(crate) fn pair_of(words: [u64; 2]) -> Progress
    ensures { result ≡ progress (slice_index words 0) (slice_index words 1) }
{
    Progress {
        events: words[0],
        tick: words[1],
    }
}
