// The emission of a held spline: its rows, counted and written.
#![tactic(auto)]

ghost use Rattle.std.specs.Prelude.{◌≡◌, ◌*◌, ◌≤◌, length};
ghost use Rattle.layout.specs.Layout.{row_words};
ghost use Rattle.spline_channels.specs.Gathers.{Once};
ghost use Rattle.spline_write.specs.Emits.{most_own, Emitted};
ghost use Rattle.spline_curve.specs.Asks.{Holds, channel_count};
ghost use Rattle.spline_emission.specs.Sizes.{numbers_of};

use fit_slopes::sizes::SMALL_POINTS;
use fit_tables::{LARGE_NUMBERS, MOST_NUMBERS, SMALL_NUMBERS, WIDE_NUMBERS};
use layout::AXIS_CODES;
use spline_adding::channels_of;
use spline_emission::memory::{emit_large, emit_middle, emit_most, emit_small, emit_wide};
use spline_emission::sizes::{MIDDLE_NUMBERS, MIDDLE_POINTS};
use spline_job::Job;

// How many channels the held blocks have.
fn count_channels(axes: &[u64], store: &[u64], held: usize) -> usize
    requires { Once axes.now × (held * row_words ≤ length store.now) }
    ensures { result ≡ channel_count axes.now store.now held }
{
    let mut chans = [0u64; AXIS_CODES];
    channels_of(axes, store, held, &mut chans)
}

// Emits a held spline in work memory for `size` numbers. The compiler joins functions that are called once, and their arrays
// then share one frame: every spline would pay for the largest. Into a function that calls itself it joins none that has large
// arrays; so this one does, for a size that no spline has.
fn emit_for(
    size: usize,
    job: Job,
    axes: &[u64],
    words: &[u64],
    store: &[u64],
    rows: &mut [u64],
) -> u64
    requires held_bound { numbers_of axes.now store.now job.held ≤ size }
    requires holds { Holds axes.now words.now store.now job.held × (job.own ≤ most_own) }
    ensures { Emitted job axes.now words.now store.now rows.old result rows.new }
{
    let held = job.held;
    if held < SMALL_POINTS && size <= SMALL_NUMBERS {
        return emit_small(job, axes, words, store, rows);
    }
    if held < MIDDLE_POINTS && size <= MIDDLE_NUMBERS {
        return emit_middle(job, axes, words, store, rows);
    }
    if size <= LARGE_NUMBERS {
        return emit_large(job, axes, words, store, rows);
    }
    if size <= WIDE_NUMBERS {
        return emit_wide(job, axes, words, store, rows);
    }
    if size <= MOST_NUMBERS {
        return emit_most(job, axes, words, store, rows);
    }
    emit_for(size - 1, job, axes, words, store, rows)
}

// Counts the rows of the emission of a held spline and, where they and `own` more have room, writes them from the first
// word of `rows` on.
pub fn emit_within(job: Job, axes: &[u64], words: &[u64], store: &[u64], rows: &mut [u64]) -> u64
    requires { Holds axes.now words.now store.now job.held × (job.own ≤ most_own) }
    ensures { Emitted job axes.now words.now store.now rows.old result rows.new }
{
    let ch = count_channels(axes, store, job.held);
    emit_for((job.held + 1) * ch, job, axes, words, store, rows)
}
