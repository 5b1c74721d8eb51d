//! Where the rows of an instance are, among those of all instances.

ghost use Rattle.std.specs.Prelude.{◌≡◌, ◌+◌, ◌<◌, IfSome};
ghost use Rattle.fb_system.specs.RowRanges.{end_of, first_of};

/// Where the rows of an instance are: first those of one side of its interface, and after them those of the other.
#[derive(Clone, Copy)]
pub(crate) struct RowRanges {
    /// The first row of the first side, the first row of the second side, and the row after its last one.
    pub bounds: [u32; 3],
}

impl RowRanges {
    /// The row with an index among those of a side, if there is one.
    #[inline(always)]
    pub(crate) fn row(&self, second: bool, index: u32) -> Option<usize>
        ensures at { IfSome result (λ row. row ≡ first_of self.now second + index) }
        ensures within { IfSome result (λ row. row < end_of self.now second) }
    {
        // The side is an index, so that no choice is made by it.
        let side = second as usize;
        let row = self.bounds[side] as usize + index as usize;
        if row < self.bounds[side + 1] as usize {
            Some(row)
        } else {
            None
        }
    }
}
