// Both cuts of the copied columns: the constraints cut them by D - 1, z by n/N rounded up.
use std::io;

// n, D - 1 and N.
#[derive(Clone, Copy, Default)]
pub struct Cuts {
    pub copied: usize,
    pub part: usize,
    pub parts: usize,
}

impl Cuts {
    // n/N rounded up.
    fn z_part(self) -> usize {
        if self.parts == 0 {
            return 0;
        }
        self.copied.div_ceil(self.parts)
    }

    // Do the two cuts give different parts? With one part or none they do not.
    pub(crate) fn differ(self) -> bool {
        self.parts > 1 && self.part != self.z_part()
    }

    // Says so, of cuts that differ.
    pub(crate) fn tell(self, to: &impl Print) -> io::Result<()> {
        print!(to; "the constraints cut the copied columns ")?;
        sizes(to, self.copied, self.part)?;
        print!(to; " and z cuts them ")?;
        sizes(to, self.copied, self.z_part())?;
        println!(to; ": for this circuit a good log's sum need not be 0")
    }
}

// The sizes of the parts, commas between.
fn sizes(to: &impl Print, columns: usize, part: usize) -> io::Result<()> {
    if columns == 0 || part == 0 {
        return Ok(());
    }
    for _ in 0..(columns - 1) / part {
        print!(to; "{part},")?;
    }
    print!(to; "{}", (columns - 1) % part + 1)
}
