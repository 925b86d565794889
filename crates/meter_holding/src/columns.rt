// The bytes of readings as a read gives them: columns in order, each at its rows in order.
ghost use Rattle.std.specs.Prelude.{◌≡◌, ◌+◌, ◌*◌, ◌≤◌, ◌<◌, length};
ghost use Rattle.laws.specs.Memory.{over};
ghost use Rattle.energy.specs.Columns.{column_bytes, columns_bytes};

use energy::Rows;
use energy::reading::bytes_of;

// The readings that are read of a direction: `rates` columns from `rate` on, each at `rows` rows from `row` on.
#[derive(Clone, Copy)]
pub(crate) struct Columns {
    pub rate: usize,
    pub rates: usize,
    pub row: usize,
    pub rows: usize,
}

impl Columns {
    // Writes the column of one rate to the front of the output buffer; by places, since no proof knows behind a loop what was written
    // through `chunks_exact_mut`.
    fn write_one(self, readings: &Rows, rate: usize, out: &mut [u8])
        requires rate_bound { (rate < 5) × (self.row + self.rows ≤ 13) }
        requires rows_in_bounds { 4 * self.rows ≤ length out.old }
        ensures { out.new ≡ over (column_bytes readings.now rate self.row self.rows) out.old }
    {
        for i in 0..self.rows {
            let bytes = bytes_of(readings[self.row + i][rate]);
            slice_bytes::copy(&bytes, &mut out[4 * i..]);
        }
    }

    // Writes all columns to the front of the output buffer.
    pub(crate) fn write(self, readings: &Rows, out: &mut [u8])
        requires rates_bound { (self.rate + self.rates ≤ 5) × (self.row + self.rows ≤ 13) }
        requires rows_in_bounds { 4 * self.rates * self.rows ≤ length out.old }
        ensures { out.new ≡ over (columns_bytes readings.now self.rate self.rates self.row self.rows) out.old }
    {
        for i in 0..self.rates {
            self.write_one(readings, self.rate + i, &mut out[4 * self.rows * i..]);
        }
    }
}
