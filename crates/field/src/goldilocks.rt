// The field type. A field value is held as a word, any word that is its number modulo p: `Goldilocks::from` takes the word as it is, each
// operator reduces what it must, and `u64::from` gives the number below p. `word` promises no more than some word of the element.
ghost use Rattle.std.specs.Prelude.{◌≡◌, ◌<◌, cond, length, slice_index};
ghost use Rattle.field.specs.Field.{𝔾, el, val};
ghost use Rattle.field.specs.Parse.{parsed};
ghost use Rattle.field.specs.Element.{elem, is_zero};
ghost use Rattle.field.specs.Inverse.{inverse_in, inverted};

use crate::{MODULUS, invert_u64, neg_u64, product_word, reduce_u64, sub_u64, sum_word};
use std::ops::{Add, Mul, Neg, Sub};

#[derive(Clone, Copy)]
pub struct Goldilocks(u64);

impl Goldilocks {
    pub const ZERO: Goldilocks = Goldilocks(0);

    pub const ONE: Goldilocks = Goldilocks(1);

    // The element of a number below p, or `None`: it is too large.
    pub fn new(x: u64) -> Option<Goldilocks>
        ensures { result ≡ parsed x }
    {
        if x < MODULUS {
            Some(Goldilocks(x))
        } else {
            None
        }
    }

    // The element of a word of a slice.
    pub fn at(words: &[u64], i: usize) -> Goldilocks
        requires { i < length words.now }
        ensures { elem result ≡ el (slice_index words.now i) }
    {
        Goldilocks(words[i])
    }

    // A word of the element, not always below p.
    pub fn word(self) -> u64
        ensures { el result ≡ elem self }
    {
        self.0
    }

    pub fn is_zero(self) -> bool
        ensures { result ≡ is_zero (elem self) }
    {
        u64::from(self) == 0
    }

    // The inverse, or `None` for 0.
    pub fn invert(self) -> Option<Goldilocks>
        ensures { inverted result ≡ inverse_in 𝔾 (elem self) }
    {
        Some(Goldilocks(invert_u64(self.0)?))
    }
}

// 1 for true and 0 for false, by the constants.
impl From<bool> for Goldilocks {
    ghost from_gives = { λ b e. elem e ≡ cond b 𝔾.one 𝔾.zero };

    fn from(b: bool) -> Goldilocks {
        if b { Goldilocks::ONE } else { Goldilocks::ZERO }
    }
}

// The element of any word.
impl From<u64> for Goldilocks {
    ghost from_gives = { λ x e. elem e ≡ el x };

    fn from(x: u64) -> Goldilocks {
        Goldilocks(x)
    }
}

// The element's number, below p.
impl From<Goldilocks> for u64 {
    ghost from_gives = { λ e x. x ≡ val (elem e) };

    fn from(e: Goldilocks) -> u64 {
        reduce_u64(e.0)
    }
}

impl Add for Goldilocks {
    type Output = Goldilocks;

    ghost add_gives = { λ a b r. elem r ≡ 𝔾.add (elem a) (elem b) };

    fn add(self, b: Goldilocks) -> Goldilocks {
        Goldilocks(sum_word(self.0, b.0))
    }
}

impl Sub for Goldilocks {
    type Output = Goldilocks;

    ghost sub_gives = { λ a b r. elem r ≡ 𝔾.add (elem a) (𝔾.neg (elem b)) };

    fn sub(self, b: Goldilocks) -> Goldilocks {
        Goldilocks(sub_u64(self.0, b.0))
    }
}

impl Neg for Goldilocks {
    type Output = Goldilocks;

    ghost neg_gives = { λ a r. elem r ≡ 𝔾.neg (elem a) };

    fn neg(self) -> Goldilocks {
        Goldilocks(neg_u64(self.0))
    }
}

impl Mul for Goldilocks {
    type Output = Goldilocks;

    ghost mul_gives = { λ a b r. elem r ≡ 𝔾.mul (elem a) (elem b) };

    fn mul(self, b: Goldilocks) -> Goldilocks {
        Goldilocks(product_word(self.0, b.0))
    }
}
