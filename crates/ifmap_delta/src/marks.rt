//! The depths of numbers, as a region has them and as they are after a patch.
ghost use Rattle.std.specs.Prelude.{◌≡◌, ℕ, Option};
ghost use Rattle.ifmap_region.specs.Marks.{mark_of, mark_over};

use ifmap_region::{Patch, PatchedMark, Region};

// The depth of each number that walks reach.
pub(crate) trait Marks {
    // The depth of a number, where it has one.
    ghost mark: { Self → ℕ → Option ℕ };

    fn mark_at(&self, number: u64) -> Option<u32>
        ensures { result ≡ mark self.now number };
}

impl Marks for Region {
    ghost use Rattle.ifmap_region.specs.Marks.{mark_of};

    ghost mark = { λ r. mark_of r.marks.entries };

    fn mark_at(&self, number: u64) -> Option<u32> {
        self.mark(number)
    }
}

// The marks of a region with a patch over them.
#[derive(Drop)]
pub(crate) struct Patched<'a> {
    pub(crate) region: &'a Region,
    pub(crate) patch: &'a Patch,
}

impl<'a> Marks for Patched<'a> {
    ghost use Rattle.ifmap_region.specs.Marks.{mark_of, mark_over};

    ghost mark = { λ p. mark_over p.patch.now (mark_of p.region.now.marks.entries) };

    fn mark_at(&self, number: u64) -> Option<u32> {
        mark_after(self.region, self.patch, number)
    }
}

// The depth of a number after a patch of a region, where it has one.
pub(crate) fn mark_after(region: &Region, patch: &Patch, number: u64) -> Option<u32>
    ensures { result ≡ mark_over patch.now (mark_of region.now.marks.entries) number }
{
    match patch.mark(number) {
        PatchedMark::Untouched => region.mark(number),
        PatchedMark::Cleared => None,
        PatchedMark::Marked(mark) => Some(mark),
    }
}
