// A shelf with files of its own beside those of another.
ghost use Rattle.std.specs.Prelude.{◌≡◌, [], List, ℕ, Some, IfOk, if◌then◌else◌, map, string_bytes};
ghost use Rattle.std.specs.Option.{option_or};
ghost use Rattle.ember_io.specs.Files.{first_of};
ghost use Rattle.mesh_shapes.specs.Shapes.{HasShapes, IsAsBelow};

use crate::files::shape_files;
use ember_io::{Calls, Failed, FaultKind, FileSet, MemoryShelf, Shelf};
use std::alloc::{AllocError, Global};

/// Files that are made, and behind them those of another shelf: a name that is made is never looked for
/// there. Reading what is made never fails, so its faults are those of the other shelf.
#[derive(Drop)]
pub struct ShapeShelf<S: Shelf + Drop> {
    made: MemoryShelf,
    below: S,
    is_made: bool,
    ghost never_fails: { made.failing ≡ [] },
}

impl<S: Shelf + Drop> ShapeShelf<S> {
    // A shelf of these files and of those below.
    fn with_files(alloc: Global, files: FileSet, below: S) -> Result<ShapeShelf<S>, AllocError>
        ensures contents { IfOk result (λ s. (name : List ℕ) →
            ⟦<ShapeShelf<S> as Shelf>⟧.contents s name
            ≡ option_or (first_of files name) (S.contents below name)) }
        ensures start { IfOk result (λ s. IsAsBelow (S.unread below) (S.begun below) (S.faults below)
            (⟦<ShapeShelf<S> as Shelf>⟧.unread s) (⟦<ShapeShelf<S> as Shelf>⟧.begun s)
            (⟦<ShapeShelf<S> as Shelf>⟧.faults s)) }
    {
        let made = MemoryShelf::new(alloc, files, usize::MAX, Calls::of(Vec::new(alloc)))?;
        Ok(ShapeShelf {
            made,
            below,
            is_made: false,
        })
    }

    /// A shelf with the files of the shapes that these words say, and behind them those of the shelf
    /// below. The one error is out-of-memory.
    pub fn over(alloc: Global, words: &[String], below: S) -> Result<ShapeShelf<S>, AllocError>
        ensures contents { IfOk result (λ s. HasShapes (map string_bytes words.now) (S.contents below)
            (⟦<ShapeShelf<S> as Shelf>⟧.contents s)) }
        ensures start { IfOk result (λ s. IsAsBelow (S.unread below) (S.begun below) (S.faults below)
            (⟦<ShapeShelf<S> as Shelf>⟧.unread s) (⟦<ShapeShelf<S> as Shelf>⟧.begun s)
            (⟦<ShapeShelf<S> as Shelf>⟧.faults s)) }
    {
        let files = shape_files(alloc, words)?;
        let shelf = ShapeShelf::with_files(alloc, files, below)?;
        Ok(shelf)
    }
}

impl<S: Shelf + Drop> Shelf for ShapeShelf<S> {
    ghost contents = { λ s name. option_or (first_of s.made.files name) (S.contents s.below name) };

    ghost unread = { λ s. if s.is_made then Some s.made.unread else S.unread s.below };

    ghost begun = { λ s. if s.is_made then s.made.begun else S.begun s.below };

    ghost fault_at = { λ s. S.fault_at s.below };

    ghost fault_kind = { λ s. S.fault_kind s.below };

    ghost faults = { λ s. S.faults s.below };

    fn last_fault(&self) -> FaultKind {
        self.below.last_fault()
    }

    fn begin(&mut self, name: &str, number: u32) -> Result<(), Failed> {
        self.is_made = self.made.begin(name, number).is_ok();
        if self.is_made {
            return Ok(());
        }
        self.below.begin(name, number)
    }

    fn read(&mut self, buf: &mut [u8]) -> Result<usize, Failed> {
        if self.is_made {
            self.made.read(buf)
        } else {
            self.below.read(buf)
        }
    }
}
