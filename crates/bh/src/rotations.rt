// Rows far on or back in the row order of the Boolean hypercube: rotations and places.
ghost use Rattle.std.specs.Prelude.{ℕ, ◌≡◌, ◌+◌, ◌-◌, ◌*◌, ◌^◌, ◌<◌, ◌≤◌};
ghost use Rattle.bh.specs.Rows.{next_row, prev_row, iter, place_of, rotated};

use crate::{Rotation, next, prev};

// A step n times from row b on, where the step goes from each row to the row that f says.
fn repeated<F: Fn(usize) -> usize>(step: F, b: usize, n: usize, k: usize) -> usize
    ghost f: { ℕ → ℕ }
    requires can { (x : ℕ) → x < 2 ^ k → F.pre step x }
    requires goes { (x r : ℕ) → x < 2 ^ k → F.post step x r → (r ≡ f x) × (r < 2 ^ k) }
    requires row { b < 2 ^ k }
    ensures { (result ≡ iter f n b) × (result < 2 ^ k) }
{
    let mut row = b;
    for _ in 0..n {
        row = step(row);
    }
    row
}

// The place of a row in that order.
pub fn place_of(row: usize, k: usize) -> usize
    requires { (0 < k) × (k < 32) × (row < 2 ^ k) }
    ensures { result ≡ place_of k row }
{
    if row == 0 {
        return 0;
    }
    let n = 1 << k;
    let mut at: usize = 1;
    for place in 1..n {
        if at == row {
            return place;
        }
        at = next(at, k);
    }
    n
}

// The row that a rotation leads to.
pub fn rotate(b: usize, r: Rotation, k: usize) -> usize
    requires { (k < 32) × (b < 2 ^ k) }
    ensures { (result ≡ rotated k b r.0) × (result < 2 ^ k) }
{
    let n = r.0;
    let d = n.unsigned_abs() as usize;
    if n < 0 {
        repeated(|row| prev(row, k), b, d, k)
    } else {
        repeated(|row| next(row, k), b, d, k)
    }
}
