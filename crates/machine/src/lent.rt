// Lent memory of two bytes a cell, high first: the cells, and the samples.
ghost use Rattle.std.specs.Prelude.{◌≡◌, ◌++◌, ◌+◌, ◌*◌, ◌/◌, ◌%◌, ◌≤◌, ◌<◌, length, set, drop, replicate};
ghost use Rattle.machine.specs.Work.{cell_at};

pub fn zero(cells: &mut [u8], n: usize)
    requires { n ≤ length cells.old }
    ensures { cells.new ≡ replicate n 0 ++ drop n cells.old }
{
    for i in 0..n {
        cells[i] = 0;
    }
}

pub fn load(cells: &[u8], a: usize) -> u16
    requires { 2 * a + 1 < length cells.now }
    ensures { result ≡ cell_at cells.now a }
{
    // by * and +: `from_be_bytes` turns the bytes round, and then the digits that they are shown by aren't made side by side
    u16::from(cells[2 * a]) * 256 + u16::from(cells[2 * a + 1])
}

pub fn store(cells: &mut [u8], a: usize, v: u16)
    requires { 2 * a + 1 < length cells.old }
    ensures { cells.new ≡ set (set cells.old (2 * a) (v / 256)) (2 * a + 1) (v % 256) }
{
    let [high, low] = v.to_be_bytes();
    cells[2 * a] = high;
    cells[2 * a + 1] = low;
}
