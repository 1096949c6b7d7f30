// How settling moves cells.
ghost use Rattle.std.specs.Prelude.{◌≡◌, ◌+◌, ◌≤◌, List, ◌++◌, length, ℤ};

// The last `moved` cells go to `from`, and the `gone` cells that stood there to the end.
pub(crate) fn settle_cells(cells: &mut [i64], from: usize, gone: usize, moved: usize)
    requires { from + gone + moved ≤ length cells.old }
    ensures { (front old middle last : List ℤ) → cells.old ≡ front ++ (old ++ (middle ++ last)) → length front ≡ from → length old ≡ gone → length last ≡ moved → cells.new ≡ front ++ (last ++ (middle ++ old)) }
{
    let rest = cells.len() - from - moved;
    swap_rest(cells, from, rest);
    swap_rest(cells, from + moved, gone);
}

// What stands from `from` on: its first `size` cells change places with the others.
fn swap_rest(cells: &mut [i64], from: usize, size: usize)
    requires { from + size ≤ length cells.old }
    ensures { (front first second : List ℤ) → cells.old ≡ front ++ (first ++ second) → length front ≡ from → length first ≡ size → cells.new ≡ front ++ (second ++ first) }
{
    cells[from..].rotate_left(size);
}
