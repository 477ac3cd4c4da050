// A call made again on the words of a block, and its answer held against the stored one.
use crate::call::Call;
use crate::slices::{Block, fill};

// Is the stored number this one, and the stored buffer these words?
fn agrees(block: &Block, returned: usize, after: usize, number: u64, buffer: &[u64]) -> bool {
    block.number(returned) == number && block.slice(after) == buffer
}

fn lookup_m_poly(block: &Block, room: &mut [u64]) -> bool {
    let m = fill(block.slice(3), room);
    let number = hyperplonk::lookup_m_poly(block.number(0), block.slice(1), block.slice(2), m);
    agrees(block, 4, 5, number, m)
}

fn lookup_h_poly(block: &Block, room: &mut [u64]) -> bool {
    let h = fill(block.slice(5), room);
    let number = hyperplonk::lookup_h_poly(
        block.number(0),
        block.slice(1),
        block.slice(2),
        block.slice(3),
        block.number(4),
        h,
    );
    agrees(block, 6, 7, number, h)
}

fn eq_xy(block: &Block, room: &mut [u64]) -> bool {
    let values = fill(block.slice(2), room);
    let number = hyperplonk::eq_xy(block.number(0), block.slice(1), values);
    agrees(block, 3, 4, number, values)
}

// The building call on the lent slices of a block, with the buffers as they were lent: are these its returned words?
fn built_same(block: &Block, columns: &mut [u64], nodes: &mut [u64]) -> bool {
    let built = hyperplonk::build(
        block.slice(0),
        block.slice(1),
        block.slice(2),
        block.slice(3),
        columns,
        nodes,
    );
    let returned = [
        built.number,
        built.column_words as u64,
        built.nodes as u64,
        built.z_columns as u64,
    ];
    block.slice(6) == returned.as_slice()
}

fn build(block: &Block, room: &mut [u64]) -> bool {
    let mut room_of_nodes = [0u64; 8192];
    let nodes = fill(block.slice(5), &mut room_of_nodes);
    let columns = fill(block.slice(4), room);
    built_same(block, columns, nodes) && block.slice(7) == columns && block.slice(8) == nodes
}

fn row_sum(block: &Block) -> bool {
    let summed = hyperplonk::row_sum(
        block.slice(0),
        block.slice(1),
        block.slice(2),
        block.slice(3),
        block.slice(4),
        block.slice(5),
    );
    let returned = [summed.number, summed.sum];
    block.slice(6) == returned.as_slice()
}

fn sizes(block: &Block) -> bool {
    let foretold = hyperplonk::sizes(block.slice(0));
    let returned = [
        foretold.number,
        foretold.column_words as u64,
        foretold.nodes as u64,
        foretold.visits as u64,
    ];
    block.slice(1) == returned.as_slice()
}

// Does the call answer again as it is stored?
pub fn is_same(call: Call, block: &Block, room: &mut [u64]) -> bool {
    match call {
        Call::Build => build(block, room),
        Call::RowSum => row_sum(block),
        Call::LookupMPoly => lookup_m_poly(block, room),
        Call::LookupHPoly => lookup_h_poly(block, room),
        Call::EqXy => eq_xy(block, room),
        Call::Sizes => sizes(block),
    }
}
