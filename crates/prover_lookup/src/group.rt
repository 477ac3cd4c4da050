// A group of lookups in the column buffer.

// The compressed columns of a group: its first input starts at word `input`, each further one 2 * rows behind the one before, its table
// at word input + rows.
#[derive(Clone, Copy)]
pub struct GroupColumns {
    pub input: usize,
    pub members: usize,
    pub rows: usize,
}
