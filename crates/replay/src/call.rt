// The calls whose answers are stored, and the lines of a block of each: the lent slices, what comes back, the buffers after.
ghost use Rattle.std.specs.Prelude.{◌<◌};

#[derive(Clone, Copy, PartialEq, Eq)]
pub enum Call {
    Build,
    RowSum,
    LookupMPoly,
    LookupHPoly,
    EqXy,
    Sizes,
}

// How many calls there are.
pub const CALLS: usize = 6;

impl Call {
    pub const ALL: [Call; CALLS] = [
        Call::Build,
        Call::RowSum,
        Call::LookupMPoly,
        Call::LookupHPoly,
        Call::EqXy,
        Call::Sizes,
    ];

    // The call that a line names.
    pub fn of(line: &[u8]) -> Option<Call> {
        match line {
            b"build\n" => Some(Call::Build),
            b"row_sum\n" => Some(Call::RowSum),
            b"lookup_m_poly\n" => Some(Call::LookupMPoly),
            b"lookup_h_poly\n" => Some(Call::LookupHPoly),
            b"eq_xy\n" => Some(Call::EqXy),
            b"sizes\n" => Some(Call::Sizes),
            _ => None,
        }
    }

    pub fn name(self) -> &'static str {
        match self {
            Call::Build => "build",
            Call::RowSum => "row_sum",
            Call::LookupMPoly => "lookup_m_poly",
            Call::LookupHPoly => "lookup_h_poly",
            Call::EqXy => "eq_xy",
            Call::Sizes => "sizes",
        }
    }

    // Its place among the calls.
    pub fn place(self) -> usize
        ensures { result < 6 }
    {
        self as usize
    }

    // How many lines a block has.
    pub fn lines(self) -> usize {
        match self {
            Call::Build => 9,
            Call::RowSum => 7,
            Call::LookupMPoly => 6,
            Call::LookupHPoly => 8,
            Call::EqXy => 5,
            Call::Sizes => 2,
        }
    }

    // The line of what comes back.
    pub fn returned_line(self) -> usize {
        match self {
            Call::LookupMPoly => 4,
            Call::EqXy => 3,
            Call::Sizes => 1,
            Call::Build | Call::RowSum | Call::LookupHPoly => 6,
        }
    }

    // How many words come back.
    pub fn returned_words(self) -> usize {
        match self {
            Call::Build | Call::Sizes => 4,
            Call::RowSum => 2,
            Call::LookupMPoly | Call::LookupHPoly | Call::EqXy => 1,
        }
    }
}
