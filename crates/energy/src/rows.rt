// The thirteen rows of one direction: fresh ones, and whether every reading is within its range. What a reading is stands in reading.rt.
ghost use Rattle.std.specs.Prelude.{◌≡◌};
ghost use Rattle.energy.specs.Energies as energies;

use crate::reading::Reading;
use crate::{Rows, reading};

// Readings zero.
pub fn zero() -> Rows
    ensures { result ≡ energies.zero_rows }
{
    [[reading::ZERO; 5]; 13]
}

// Whether every reading is within its range: one pass with a flag and no way out before the end, which is faster than `all` or a fold.
pub fn in_range(rows: &Rows) -> bool
    ensures { result ≡ energies.rows_in_range rows.now }
{
    let mut all = true;
    for reading in rows.as_flattened() {
        all = all & reading::is_in_range(*reading);
    }
    all
}
