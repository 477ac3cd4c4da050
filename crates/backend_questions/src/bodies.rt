// 3 and then 4 put to the bodies.
ghost use Rattle.std.specs.Prelude.{◌≡◌, min, leb};
ghost use Rattle.lists.specs.Lists.{all_of, total};
ghost use Rattle.backend.specs.Circuit.{Section, body_of};
ghost use Rattle.backend.specs.Questions.{q3_bodies, q4_bodies};

use backend_sections::contents::{CELL_COUNT, PAIR_COUNT};
use backend_sections::reader::Laid;
use backend_sections::words::{all_below, total_to};

// The sum of the words of a section, the limit where it is more.
fn sum_to(words: &[u64], limit: u64) -> u64
    ensures { result ≡ min (total words.now) limit }
{
    total_to(words, 1, 0, words.len(), limit)
}

// "width 0–8"
fn widths_narrow(laid: Laid) -> bool
    ensures { result ≡ all_of (λ w. leb w 8) (body_of laid.entry.words.now Section.widths) }
{
    all_below(laid.widths(), 9)
}

// 3, put to the bodies.
pub fn question_3_bodies(laid: Laid) -> bool
    ensures { result ≡ q3_bodies laid.entry.words.now }
{
    let witness = laid.witness_to(33);
    let user = laid.user_to(17);
    let narrow = widths_narrow(laid);
    let lengths = sum_to(laid.lengths(), 4097);
    (witness <= 32) & (user <= 16) & narrow & (lengths <= 4096)
}

// 4, put to the bodies.
pub fn question_4_bodies(laid: Laid) -> bool
    ensures { result ≡ q4_bodies laid.entry.words.now }
{
    let pairs = laid.words[PAIR_COUNT];
    let cells = laid.words[CELL_COUNT];
    let widths = sum_to(laid.widths(), pairs + 1);
    let lengths = sum_to(laid.lengths(), cells + 1);
    (pairs == widths) & (cells == lengths)
}
