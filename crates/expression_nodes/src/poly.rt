// The value of a polynomial at a row, from the three places where these stand.
ghost use Rattle.std.specs.Prelude.{◌≡◌, ◌+◌, ◌*◌, ◌≤◌, ◌<◌, get_or};
ghost use Rattle.field.specs.Field.{𝔾, el};
ghost use Rattle.expression.specs.Value.{poly_of};
ghost use Rattle.expression.specs.Reader.{polys_of, LayoutSmall, slice_words};

use expression::poly::Layout;
use lists::word_at;

// Column i of columns that begin at a word, at a row; 0 where there is none.
pub fn cell(ws: &[u64], start: usize, i: usize, rows: usize, row: usize) -> u64
    requires { ((start ≤ slice_words) × (i ≤ 4194304)) × ((rows ≤ 1048576) × (row < 1048576)) }
    ensures { result ≡ get_or ws.now (start + i * rows + row) 0 }
{
    word_at(ws, start + i * rows + row)
}

// Polynomial q at a row, 0 where there is none.
pub fn poly_at(
    circuit: &[u64],
    witness: &[u64],
    columns: &[u64],
    layout: &Layout,
    q: u64,
    row: usize,
) -> u64
    requires { LayoutSmall layout.now × (row < 1048576) }
    ensures { el result ≡ poly_of 𝔾 (polys_of layout.now circuit.now witness.now columns.now) q row }
{
    let rows = layout.rows;
    let instances = layout.instances;
    let preprocess = layout.preprocess;
    let witnesses = layout.witness;
    let permutations = layout.permutations;
    let rest = layout.rest;
    let at = q as usize;
    if at < instances {
        return cell(columns, 0, at, rows, row);
    }
    let at1 = at - instances;
    if at1 < preprocess {
        return cell(circuit, layout.start, at1, rows, row);
    }
    let at2 = at1 - preprocess;
    if at2 < witnesses {
        return cell(witness, 0, at2, rows, row);
    }
    let at3 = at2 - witnesses;
    if at3 < permutations {
        return cell(columns, 0, instances + at3, rows, row);
    }
    let at4 = at3 - permutations;
    if at4 < rest {
        return cell(
            columns,
            0,
            instances + permutations + layout.skipped + at4,
            rows,
            row,
        );
    }
    0
}
