// The kinds of nodes.
ghost use Rattle.std.specs.Prelude.{◌≡◌};
ghost use Rattle.expression.specs.Kinds.{number, KindOf};

// The kinds, with document 01's numbers.
#[derive(Clone, Copy, PartialEq, Eq, Debug)]
pub enum Kind {
    Constant = 1,
    Identity = 2,
    Lagrange = 3,
    EqXy = 4,
    Polynomial = 5,
    Challenge = 6,
    Negated = 7,
    Sum = 8,
    Product = 9,
    Scaled = 10,
    DistributePowers = 11,
    Item = 12,
}

// The kinds by rising number, from 1 on.
static KINDS: [Kind; 12] = [
    Kind::Constant,
    Kind::Identity,
    Kind::Lagrange,
    Kind::EqXy,
    Kind::Polynomial,
    Kind::Challenge,
    Kind::Negated,
    Kind::Sum,
    Kind::Product,
    Kind::Scaled,
    Kind::DistributePowers,
    Kind::Item,
];

// A word that is no kind's number.
#[derive(Clone, Copy, PartialEq, Eq, Debug)]
pub struct NoKind;

impl TryFrom<u64> for Kind {
    type Error = NoKind;

    ghost try_from_gives = { KindOf };

    // By the table, and not by a `match`, which makes a jump of its own before that of each `match` on the kind.
    #[tactic(auto, unfolding(crate::specs::Nodes::kind_of))]
    fn try_from(word: u64) -> Result<Kind, NoKind> {
        if word < 1 || 12 < word {
            return Err(NoKind);
        }
        Ok(KINDS[word as usize - 1])
    }
}

impl From<Kind> for u64 {
    ghost from_gives = { λ kind word. word ≡ number kind };

    fn from(kind: Kind) -> u64 {
        kind as u64
    }
}
