//! Copies of whole problems.
ghost use Rattle.std.specs.Prelude.{◌≡◌, IfOk};

use crate::lists::Segments;
use crate::memory::NoMemory;
use crate::problems::Problem;
use std::alloc::Global;

/// A list of equal segments.
pub fn copy_segments(alloc: Global, segments: &Segments) -> Result<Segments, NoMemory>
    ensures { IfOk result (λ copy. copy.items ≡ segments.now.items) }
{
    let mut copy = Segments::new(alloc);
    copy.reserve(segments.len())?;
    for k in 0..segments.len() {
        copy.push(segments.get(k).copy(alloc)?);
    }
    Ok(copy)
}

impl Problem {
    /// An equal problem.
    pub fn copy(&self, alloc: Global) -> Result<Problem, NoMemory>
        ensures { IfOk result (λ copy. copy ≡ self.now) }
    {
        let products = self.products().copy(alloc)?;
        let segments = copy_segments(alloc, self.segments())?;
        let limits = self.limits().copy(alloc)?;
        Ok(Problem::new(self.model(), self.unit(), products, segments, limits))
    }
}
