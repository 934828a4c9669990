// What a night knows of each of its jobs: the mark of its tries, and their word.
#![tactic(auto)]

ghost use Rattle.std.specs.Prelude.{◌≡◌, ◌<◌, ◌+◌, ◌⊎◌, MatchOption, slice_index, slice_set, replicate};
ghost use Rattle.night_marks.specs.Marks.{mark_after, is_over};
ghost use Rattle.night_tried.specs.Tried.{same_file, tried_word, tries_of};
ghost use Rattle.night_command.specs.Files.{most_files};

use night_command::MOST_FILES;
use night_marks::{is_over, mark_after};
use night_tried::{same_file, tried_word, tries_of};

// The place of the job of this number among so many files, where it has one.
pub fn job_at(files: usize, job: u64) -> Option<usize>
    ensures { MatchOption result ((job ≡ 0) ⊎ (files < job) ⊎ (most_files < job)) (λ i. (i + 1 ≡ job) × (i < files) × (i < most_files)) }
{
    if job == 0 || job > files.min(MOST_FILES) as u64 {
        return None;
    }
    Some((job - 1) as usize)
}

#[derive(Drop)]
pub struct Jobs {
    pub marks: [u64; MOST_FILES],
    pub tries: [u64; MOST_FILES],
}

impl Jobs {
    // None of them was tried.
    pub fn new() -> Jobs
        ensures marks { result.marks ≡ replicate most_files 0 }
        ensures tries { result.tries ≡ replicate most_files 0 }
    {
        Jobs {
            marks: [0u64; MOST_FILES],
            tries: [0u64; MOST_FILES],
        }
    }

    // How many tries a job has.
    pub fn tries(&self, job: usize) -> u64
        requires { job < most_files }
        ensures { result ≡ tries_of (slice_index self.now.tries job) }
    {
        tries_of(self.tries[job])
    }

    // Whether a job is done with, where there are so many tolerances.
    pub fn is_over(&self, job: usize, tolerances: u64) -> bool
        requires { job < most_files }
        ensures { result ≡ is_over (slice_index self.now.marks job) (tries_of (slice_index self.now.tries job)) tolerances }
    {
        is_over(self.marks[job], self.tries(job), tolerances)
    }

    // Whether a try whose file has this checksum is a further one of a job.
    pub fn same_file(&self, job: usize, sum: u64) -> bool
        requires { job < most_files }
        ensures { result ≡ same_file (slice_index self.now.tries job) sum }
    {
        same_file(self.tries[job], sum)
    }

    // A job has one more try: the one of this number, whose file has this checksum.
    pub fn add_try(&mut self, job: usize, sum: u64, number: u64, closed: bool, passed: bool)
        requires { job < most_files }
        ensures marks { self.new.marks ≡ slice_set self.old.marks job (mark_after (slice_index self.old.marks job) closed passed) }
        ensures tries { self.new.tries ≡ slice_set self.old.tries job (tried_word sum number) }
    {
        self.marks[job] = mark_after(self.marks[job], closed, passed);
        self.tries[job] = tried_word(sum, number);
    }
}
