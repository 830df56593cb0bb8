// Chains of steps of a relation, whose rows are words: row x is the set of the numbers to which a step leads from x.
ghost use Rattle.std.specs.Prelude.{◌≡◌, ℕ, ◌<◌, ◌≤◌, Bool, length, slice_index};
ghost use Rattle.meaning.specs.Chains.{reach};
ghost use Rattle.found.specs.Rows.{RowsOf, by_way_of};

// The row, with the row of k joined to it where k is in it.
fn by_way(k: usize, middle: u64, row: u64) -> u64
    requires { k < 64 }
    ensures { result ≡ by_way_of k middle row }
{
    if words::member(row, k) {
        return words::union(row, middle);
    }
    row
}

// The same for each row.
fn pass(rows: &mut [u64], k: usize)
    requires few { length rows.old ≤ 64 }
    requires place { k < length rows.old }
    ensures { (x : ℕ) → x < length rows.old → slice_index rows.new x ≡ by_way_of k (slice_index rows.old k) (slice_index rows.old x) }
{
    let middle = rows[k];
    for row in rows.iter_mut() {
        *row = by_way(k, middle, *row);
    }
}

// Makes the rows of a relation those of its chains, by a pass for each row: after pass k they are the chains whose inner
// places are at most k.
// Stays: the passes go by number, since each reads one row of what the pass before it left, and writes to all rows.
pub fn close(rows: &mut [u64])
    requires { length rows.old ≤ 64 }
    ensures { (R : ℕ → ℕ → Bool) → RowsOf (length rows.old) R rows.old → RowsOf (length rows.old) (reach (length rows.old) R) rows.new }
{
    for k in 0..rows.len() {
        pass(rows, k);
    }
}
