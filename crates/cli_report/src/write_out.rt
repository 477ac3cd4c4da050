// The columns and the nodes that a build wrote, as a file.
use crate::files::{unwritten, write_words};
use crate::output::Built;
use crate::shape::Shape;
use std::io;
use std::io::Write;

// Which column it is, of those of the lookups and z: compressed input and table per lookup, m and h per group, z.
fn lookup_title(to: &mut impl Write, c: usize, lookups: usize, groups: usize) -> io::Result<()> {
    let lookup = c / 2;
    if lookup < lookups {
        if c % 2 == 0 {
            return writeln!(to, "# compressed input of lookup {lookup}");
        }
        return writeln!(to, "# compressed table of lookup {lookup}");
    }
    let m = c - lookups - lookups;
    if m < groups {
        return writeln!(to, "# m of group {m}");
    }
    let h = m - groups;
    if h < groups {
        return writeln!(to, "# h of group {h}");
    }
    let z = h - groups;
    writeln!(to, "# z column {z}")
}

// Which column it is: instance, permutation of the `copied` columns, then the others.
fn column_title(to: &mut impl Write, c: usize, s: &Shape, copied: &[u64]) -> io::Result<()> {
    let instances = s.instances();
    if c < instances {
        return writeln!(to, "# instance column {c}");
    }
    let p = c - instances;
    match copied.get(p) {
        Some(polynomial) => writeln!(to, "# permutation column of polynomial {polynomial}"),
        None => {
            let params = s.params;
            lookup_title(to, p - copied.len(), params.num_lookups, params.num_groups)
        }
    }
}

// Writes each column with its title.
fn write_columns(to: &mut impl Write, columns: &[u64], s: &Shape) -> io::Result<()> {
    let words = columns.get(..s.column_words).unwrap_or(columns);
    if words.is_empty() {
        return Ok(());
    }
    let rows = s.params.rows;
    if rows == 0 {
        return Err(unwritten());
    }
    let copied = s.circuit.copied();
    for (c, column) in words.chunks(rows).enumerate() {
        if column.len() < rows {
            return Err(unwritten());
        }
        column_title(to, c, s, copied.as_slice())?;
        write_words(to, column, 8)?;
    }
    Ok(())
}

// Writes the columns and then the nodes, each under a comment line; an error where not all of it was written.
pub fn write_out(to: &mut impl Write, built: &Built) -> io::Result<()> {
    let s = built.shape;
    writeln!(to, "# columns, words to each: {}", s.params.rows)?;
    write_columns(to, built.columns, s)?;
    writeln!(to, "# nodes (kind first second value): {}", s.nodes)?;
    let words = (s.nodes << 2) as usize;
    write_words(to, built.nodes.get(..words).unwrap_or(built.nodes), 4)
}
