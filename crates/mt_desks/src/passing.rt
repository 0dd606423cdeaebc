//! How the handles of the trees go out to the lanes' desks, and come back.

ghost use Rattle.std.specs.Prelude.{◌≡◌, ◌<◌, All, length, vec_len};
ghost use Rattle.mt_desks.specs.Passing.{HasSwapped};

use std::mem;

/// At each tree, this lane's handle changes places with the lane's own.
pub(crate) fn swap_passes<P: Drop>(rows: &mut [Vec<P>], lane: usize, passes: &mut [P])
    requires count { length passes.old ≡ length rows.old }
    requires lane { All (λ row. lane < vec_len row) rows.old }
    ensures { HasSwapped (λ row. row.items) lane (length rows.old) rows.old rows.new passes.old passes.new }
{
    for tree in 0..rows.len() {
        mem::swap(&mut rows[tree][lane], &mut passes[tree]);
    }
}
