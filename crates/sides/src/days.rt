// Marks for the days of one month, by their place in the month from 0 on.
ghost use Rattle.std.specs.Prelude.{◌≡◌, true, false, not, length, replicate, slice_index_or, slice_set};
ghost use Rattle.sides.specs.Days.{taken, all_marked};

use std::marker::Model;

// The longest month's days.
pub const LONGEST_MONTH: usize = 31;

#[derive(Clone, Copy)]
pub struct DayMarks {
    marks: [bool; LONGEST_MONTH],
}

impl Model for DayMarks {
    ghost use Rattle.std.specs.Prelude.{Bool, List};

    ghost Value = { List Bool };

    ghost view = { λ days. days.marks };

    ghost inverse = { λ marks. record { marks = marks } };
}

impl DayMarks {
    pub fn none() -> DayMarks
        ensures value { result ≡ replicate 31 false }
    {
        DayMarks {
            marks: [false; LONGEST_MONTH],
        }
    }

    // Whether the day is marked; a day that no month has never is.
    pub fn has(&self, day: usize) -> bool
        ensures value { result ≡ slice_index_or self.now day false }
    {
        self.marks.get(day).copied().unwrap_or(false)
    }

    // Marks the day; a day that no month has changes nothing. By `get_mut` the proof does not close: after it, only the
    // length of an array is known.
    pub fn mark(&mut self, day: usize)
        ensures after { self.new ≡ slice_set self.old day true }
    {
        if day < LONGEST_MONTH {
            self.marks[day] = true;
        }
    }

    // Whether a month can have the day, and it is not marked.
    pub fn is_free(&self, place: usize) -> bool
        ensures value { result ≡ not (taken place self.now) }
        ensures whole { length self.now ≡ 31 }
    {
        self.marks.get(place).is_some_and(|mark| !*mark)
    }

    // Whether all of a month's first days are marked; no month has more than 31.
    pub fn has_all(&self, days: usize) -> bool
        ensures value { result ≡ all_marked days self.now }
    {
        self.marks.iter().take(days).all(|mark| *mark)
    }
}
