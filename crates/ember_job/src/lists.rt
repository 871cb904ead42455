// Lists of indices, and of journals.
ghost use Rattle.std.specs.Prelude.{◌≡◌, map};

use crate::Entry;
use std::marker::Model;

/// A list of numbers. In a job: the indices of triangles.
#[derive(Drop)]
pub struct Numbers {
    numbers: Vec<u32>,
}

impl Model for Numbers {
    ghost use Rattle.std.specs.Prelude.{List, ℕ};

    ghost Value = { List ℕ };

    ghost view = { λ s. s.numbers.items };
}

impl Numbers {
    /// The list of these numbers.
    pub fn of(numbers: Vec<u32>) -> Numbers
        ensures { result ≡ numbers.items }
    {
        Numbers { numbers }
    }

    /// The numbers in order.
    pub fn items(&self) -> &[u32]
        ensures { result.now ≡ self.now }
    {
        &self.numbers
    }

    /// The numbers as a vector.
    pub fn into_vec(self) -> Vec<u32>
        ensures { result.items ≡ self }
    {
        self.numbers
    }
}

/// A list of journals, each a list of the boxes that one worker, or the caller, ended.
#[derive(Drop)]
pub struct Journals {
    journals: Vec<Vec<Entry>>,
}

impl Model for Journals {
    ghost use Rattle.std.specs.Prelude.{List, map};
    ghost use Rattle.ember_job.specs.declared.job.Entry.{Entry};

    ghost Value = { List (List Entry) };

    ghost view = { λ s. map (λ v. v.items) s.journals.items };
}

impl Journals {
    /// The list of these journals.
    pub fn of(journals: Vec<Vec<Entry>>) -> Journals
        ensures { result ≡ map (λ v. v.items) journals.items }
    {
        Journals { journals }
    }

    /// The journals in order.
    pub fn items(&self) -> &[Vec<Entry>]
        ensures { map (λ v. v.items) result.now ≡ self.now }
    {
        &self.journals
    }

    /// The journals as a vector.
    pub fn into_vec(self) -> Vec<Vec<Entry>>
        ensures { map (λ v. v.items) result.items ≡ self }
    {
        self.journals
    }
}
