// The copied columns: "the polynomials that cells name, each once, by rising number".
ghost use Rattle.std.specs.Prelude.{◌≡◌, ◌≤◌};
ghost use Rattle.backend.specs.Circuit.{cells_of, copied_in, max_polys};
ghost use Rattle.arrayvec.specs.ArrayVec.{array_vec_len};

use arrayvec::ArrayVec;
use backend::MAX_POLYS;

// The copied columns among the first `polys` polynomials. Eight instance, 32 preprocess and 32 witness columns at most.
pub fn copied_columns(cells: &[u64], polys: usize) -> ArrayVec<u64, MAX_POLYS>
    requires { polys ≤ max_polys }
    ensures columns { result.items ≡ copied_in polys (cells_of cells.now) }
    ensures few { array_vec_len result ≤ max_polys }
{
    let mut named = [false; MAX_POLYS];
    for i in 0..cells.len() / 2 {
        let q = cells[i * 2];
        if q < MAX_POLYS as u64 {
            named[q as usize] = true;
        }
    }
    let mut columns = ArrayVec::new();
    for q in 0..polys {
        if named[q] {
            columns.push(q as u64);
        }
    }
    columns
}
