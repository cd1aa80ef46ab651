ghost use Rattle.std.specs.Prelude.{◌≡◌, ◌∷◌, IfOk};
ghost use Rattle.mq_cover.specs.Paths.{levels_of};

use std::alloc::AllocError;

/// The levels of a name, or of its end, the last one first.
pub struct Path<'a> {
    /// Its levels.
    pub levels: Vec<&'a str>,
}

// Opaque to callers' proofs: one step, and not one for each field (docs/explanation/gate.md).
impl Drop for Path<'_> {
    fn drop(self) {
        let Path { levels: _ } = self;
    }
}

impl<'a> Path<'a> {
    /// The path with this level before the others.
    pub(crate) fn longer(self, level: &'a str) -> Result<Path<'a>, AllocError>
        ensures { IfOk result (λ path. levels_of path ≡ level.entry.now ∷ levels_of self.entry) }
    {
        let Path { mut levels } = self;
        levels.push(level)?;
        Ok(Path { levels })
    }
}
