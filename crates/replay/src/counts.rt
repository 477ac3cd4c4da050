// What is counted.
use crate::call::{CALLS, Call};
use crate::judge::Shown;
use std::io;

// The blocks of a call, the refusals among them, and the calls made again.
#[derive(Clone, Copy, Default)]
pub struct Tally {
    pub blocks: u64,
    pub refused: u64,
    pub replayed: u64,
}

// What is counted of each call, the answers that differ, and the blocks that are not right.
#[derive(Clone, Copy, Default)]
pub struct Counts {
    pub calls: [Tally; CALLS],
    pub differ: u64,
    pub not_right: u64,
}

impl Counts {
    // Counts a block whose call was made again, and names it by its number among the blocks of the call where the answer differs.
    pub fn add(&mut self, rt: &impl Print, call: Call, shown: Shown, same: bool) -> io::Result<()> {
        let tally = &mut self.calls[call.place()];
        tally.blocks = tally.blocks.saturating_add(1);
        tally.replayed = tally.replayed.saturating_add(1);
        if shown == Shown::Refused {
            tally.refused = tally.refused.saturating_add(1);
        }
        if !same {
            println!(rt;
                "{}, block {}: the answer differs",
                call.name(),
                tally.blocks
            )?;
            self.differ = self.differ.saturating_add(1);
        }
        Ok(())
    }

    // The blocks of a call, the refusals among them, and the calls made again.
    fn print_call(&self, rt: &impl Print, call: Call) -> io::Result<()> {
        let tally = self.calls[call.place()];
        print!(rt; "{} {}", call.name(), tally.blocks)?;
        println!(rt; ", refused {}, replayed {}", tally.refused, tally.replayed)
    }

    // Prints all that is counted.
    pub fn print(&self, rt: &impl Print) -> io::Result<()> {
        let mut left: u64 = 0;
        for call in Call::ALL {
            self.print_call(rt, call)?;
            let tally = self.calls[call.place()];
            left = left.saturating_add(tally.blocks.saturating_sub(tally.replayed));
        }
        println!(rt; "not replayed {left}")?;
        println!(rt; "differ {}\nnot right {}", self.differ, self.not_right)
    }
}
