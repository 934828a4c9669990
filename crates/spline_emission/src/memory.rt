// An emission in work memory by the spline's points and numbers.
ghost use Rattle.std.specs.Prelude.{◌*◌, ◌^◌, ◌≤◌, ◌<◌};
ghost use Rattle.fit_slopes.specs.Sizes.{small_points};
ghost use Rattle.fit_tables.specs.Asks.{small_numbers, large_numbers, wide_numbers};
ghost use Rattle.spline_emission.specs.Sizes.{middle_points, middle_numbers, numbers_of};
ghost use Rattle.spline_write.specs.Emits.{most_own, Emitted};
ghost use Rattle.spline_curve.specs.Asks.{Holds};

use crate::sizes::{
    LARGE_CONTROLS, MIDDLE_CONTROLS, MIDDLE_KNOTS, MIDDLE_LEFTS, MIDDLE_NUMBERS, MIDDLE_POINTS,
    MOST_CONTROLS, MOST_KNOTS, MOST_LEFTS, SMALL_CONTROLS, SMALL_KNOTS, SMALL_LEFTS, WIDE_CONTROLS,
};
use fit_slopes::sizes::SMALL_POINTS;
use fit_tables::{LARGE_NUMBERS, MOST_NUMBERS, SMALL_NUMBERS, WIDE_NUMBERS};
use layout::MOST_POINTS;
use spline_job::Job;
use spline_plan::plan_emission;
use spline_write::write_emission;

// An emission in work memory for so many points and numbers, and for so many halvings: planned, then written.
fn emit_in<
    const POINTS: usize,
    const KNOTS: usize,
    const NUMBERS: usize,
    const CONTROLS: usize,
    const LEFTS: usize,
>(job: Job, axes: &[u64], words: &[u64], store: &[u64], rows: &mut [u64]) -> u64
    requires holds { Holds axes.now words.now store.now job.held × (job.own ≤ most_own) }
    requires points { (job.held < POINTS) × (2 * POINTS ≤ KNOTS) }
    requires numbers { (numbers_of axes.now store.now job.held ≤ NUMBERS) × ((POINTS ≤ NUMBERS) × (2 * NUMBERS ≤ CONTROLS)) }
    requires memory { (KNOTS < 2 ^ 32) × ((CONTROLS < 2 ^ 32) × (LEFTS < 2 ^ 32)) }
    ensures { Emitted job axes.now words.now store.now rows.old result rows.new }
{
    let mut pts = [0.0f64; NUMBERS];
    let mut ws = [0.0f64; POINTS];
    let mut ks = [0.0f64; KNOTS];
    let mut cs = [0.0f64; CONTROLS];
    let mut counts = [0usize; POINTS];
    let mut lefts = [0u8; LEFTS];
    let e = plan_emission(
        job,
        axes,
        words,
        store,
        &mut pts,
        &mut ws,
        &mut ks,
        &mut cs,
        &mut counts,
        &mut lefts,
    );
    write_emission(e, axes, store, rows, &pts, &ws, &ks, &cs, &counts, &lefts)
}

// An emission in the work memory of a small spline.
pub fn emit_small(job: Job, axes: &[u64], words: &[u64], store: &[u64], rows: &mut [u64]) -> u64
    requires holds { Holds axes.now words.now store.now job.held × (job.own ≤ most_own) }
    requires held_lt_small_points { (job.held < small_points) × (numbers_of axes.now store.now job.held ≤ small_numbers) }
    ensures { Emitted job axes.now words.now store.now rows.old result rows.new }
{
    emit_in::<SMALL_POINTS, SMALL_KNOTS, SMALL_NUMBERS, SMALL_CONTROLS, SMALL_LEFTS>(
        job, axes, words, store, rows,
    )
}

// An emission in the work memory of a middling spline.
pub fn emit_middle(job: Job, axes: &[u64], words: &[u64], store: &[u64], rows: &mut [u64]) -> u64
    requires holds { Holds axes.now words.now store.now job.held × (job.own ≤ most_own) }
    requires held_lt_middle_points { (job.held < middle_points) × (numbers_of axes.now store.now job.held ≤ middle_numbers) }
    ensures { Emitted job axes.now words.now store.now rows.old result rows.new }
{
    emit_in::<MIDDLE_POINTS, MIDDLE_KNOTS, MIDDLE_NUMBERS, MIDDLE_CONTROLS, MIDDLE_LEFTS>(
        job, axes, words, store, rows,
    )
}

// An emission in the work memory of a long spline with few channels, or of another with no more numbers.
pub fn emit_large(job: Job, axes: &[u64], words: &[u64], store: &[u64], rows: &mut [u64]) -> u64
    requires holds { Holds axes.now words.now store.now job.held × (job.own ≤ most_own) }
    requires held_bound { numbers_of axes.now store.now job.held ≤ large_numbers }
    ensures { Emitted job axes.now words.now store.now rows.old result rows.new }
{
    emit_in::<MOST_POINTS, MOST_KNOTS, LARGE_NUMBERS, LARGE_CONTROLS, MOST_LEFTS>(
        job, axes, words, store, rows,
    )
}

// An emission in the work memory of a long spline with the usual channels.
pub fn emit_wide(job: Job, axes: &[u64], words: &[u64], store: &[u64], rows: &mut [u64]) -> u64
    requires holds { Holds axes.now words.now store.now job.held × (job.own ≤ most_own) }
    requires held_bound { numbers_of axes.now store.now job.held ≤ wide_numbers }
    ensures { Emitted job axes.now words.now store.now rows.old result rows.new }
{
    emit_in::<MOST_POINTS, MOST_KNOTS, WIDE_NUMBERS, WIDE_CONTROLS, MOST_LEFTS>(
        job, axes, words, store, rows,
    )
}

// An emission in the work memory of any spline.
pub fn emit_most(job: Job, axes: &[u64], words: &[u64], store: &[u64], rows: &mut [u64]) -> u64
    requires { Holds axes.now words.now store.now job.held × (job.own ≤ most_own) }
    ensures { Emitted job axes.now words.now store.now rows.old result rows.new }
{
    emit_in::<MOST_POINTS, MOST_KNOTS, MOST_NUMBERS, MOST_CONTROLS, MOST_LEFTS>(
        job, axes, words, store, rows,
    )
}
