// Small types over a vector, which contracts see as lists.
ghost use Rattle.std.specs.Prelude.{◌≡◌};
ghost use Rattle.ember_io.specs.Files.{named};

use std::marker::Model;

/// Named files, each a name and its bytes. The first file of a name counts.
#[derive(Drop)]
pub struct FileSet {
    files: Vec<(String, Vec<u8>)>,
}

impl Model for FileSet {
    ghost use Rattle.std.specs.Prelude.{List, ℕ};
    ghost use Rattle.ember_io.specs.Files.{named};

    ghost Value = { List (List ℕ × List ℕ) };

    ghost view = { λ s. named s.files.items };
}

impl FileSet {
    /// The files of a vector.
    pub fn of(files: Vec<(String, Vec<u8>)>) -> FileSet
        ensures { result ≡ named files.items }
    {
        FileSet { files }
    }

    /// The files, lent.
    pub fn items(&self) -> &[(String, Vec<u8>)]
        ensures { named result.now ≡ self.now }
    {
        &self.files
    }

    /// The files' vector, given back.
    pub fn into_vec(self) -> Vec<(String, Vec<u8>)>
        ensures { named result.items ≡ self }
    {
        self.files
    }
}

/// Numbers of calls, from 1.
#[derive(Drop)]
pub struct Calls {
    numbers: Vec<u64>,
}

impl Model for Calls {
    ghost use Rattle.std.specs.Prelude.{List, ℕ};

    ghost Value = { List ℕ };

    ghost view = { λ s. s.numbers.items };
}

impl Calls {
    /// The numbers of a vector.
    pub fn of(numbers: Vec<u64>) -> Calls
        ensures { result ≡ numbers.items }
    {
        Calls { numbers }
    }

    /// The numbers, lent.
    pub fn items(&self) -> &[u64]
        ensures { result.now ≡ self.now }
    {
        &self.numbers
    }

    /// The numbers' vector, given back.
    pub fn into_vec(self) -> Vec<u64>
        ensures { result.items ≡ self }
    {
        self.numbers
    }
}
