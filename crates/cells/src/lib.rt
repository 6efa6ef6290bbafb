// Cells of one size side by side in a flat array. The size is the stride: cell i begins at stride * i. Array and stride
// are passed side by side: a host lends bare arrays, so a struct of both would be made anew at every call.
#![tactic(auto)]

ghost use Rattle.std.specs.Prelude.{◌++◌, ◌≡◌, ◌+◌, ◌*◌, ◌≤◌, ◌<◌, length, get_or, take, drop};
ghost use Rattle.base.specs.Output.{put};
ghost use Rattle.cells.specs.Cells.{cells, cell_at, remove_at, CellIn};

// Element k of cell i.
pub fn element_at<T: Copy>(all: &[T], stride: usize, i: usize, k: usize) -> T
    requires { (stride * i + stride ≤ length all.now) × (k < stride) }
    ensures { (d : T) → result ≡ get_or (cell_at stride i all.now) k d }
{
    all[stride * i + k]
}

// The len elements of cell i from its place at on.
pub fn part<T>(all: &[T], stride: usize, i: usize, at: usize, len: usize) -> &[T]
    requires { (stride * i + stride ≤ length all.now) × (at + len ≤ stride) }
    ensures { result.now ≡ take len (drop at (cell_at stride i all.now)) }
{
    let from = stride * i + at;
    &all[from..from + len]
}

// Makes room: the cells from place at on move up by one, as far as count; cell at keeps what it has.
fn shift_up<T: Copy>(all: &mut [T], stride: usize, at: usize, count: usize)
    requires { (at ≤ count) × (stride * count + stride ≤ length all.old) }
    ensures { remove_at at (cells stride (count + 1) all.new) ≡ cells stride count all.old }
{
    let from = stride * at;
    let to = stride * count;
    all.copy_within(from..to, from + stride);
}

// Takes cell at out: the cells above it move down by one, as far as cell last.
pub fn remove_cell<T: Copy>(all: &mut [T], stride: usize, at: usize, last: usize)
    requires { (at ≤ last) × (stride * last + stride ≤ length all.old) }
    ensures { cells stride last all.new ≡ remove_at at (cells stride (last + 1) all.old) }
{
    let from = stride * at;
    let to = stride * last;
    all.copy_within(from + stride..to + stride, from);
}

// Writes cell i, from its start on: what is to be in front, and what behind that.
pub fn write_cell<T: Copy>(all: &mut [T], stride: usize, i: usize, front: &[T], back: &[T])
    requires { (stride * i + stride ≤ length all.old) × (length front.now + length back.now ≤ stride) }
    ensures { all.new ≡ put all.old (stride * i) (front.now ++ back.now) }
{
    let at = stride * i;
    let middle = at + front.len();
    let end = middle + back.len();
    all[at..middle].copy_from_slice(front);
    all[middle..end].copy_from_slice(back);
}

// Puts a cell that is so written at a place among the first count cells; those from there on move up.
pub fn insert_cell<T: Copy>(
    all: &mut [T],
    stride: usize,
    at: usize,
    count: usize,
    front: &[T],
    back: &[T],
)
    requires { (at ≤ count)
        × ((stride * count + stride ≤ length all.old) × (length front.now + length back.now ≤ stride)) }
    ensures { CellIn stride at count (front.now ++ back.now)
        all.old all.new }
{
    shift_up(all, stride, at, count);
    write_cell(all, stride, at, front, back);
}
