// Questions 1 to 11, with 18 after 9, put to circuit words, in their order:
// contents: 1 to 4, put to the contents
// bodies: 3 and then 4, put to the bodies
// sections: 5, 6 and 9
// nodes: 7 and 8
// groups: 18
// degrees: 10
// cycles: 11
#![tactic(auto)]

mod bodies;
mod contents;
mod cycles;
mod degrees;
mod groups;
mod nodes;
mod sections;

ghost use Rattle.std.specs.Prelude.{◌≡◌, ◌<◌, true, false, IfOk, OnOk, IfErr};
ghost use Rattle.lists.specs.Lists.{first_no};
ghost use Rattle.backend.specs.Questions.{layout_questions, body_questions, circuit_questions};

use crate::bodies::{question_3_bodies, question_4_bodies};
use crate::contents::{question_1, question_2, question_3, question_4};
use crate::cycles::question_11;
use crate::degrees::question_10;
use crate::groups::question_18;
use crate::nodes::{question_7, question_8};
use crate::sections::{question_5, question_6, question_9};
use backend_sections::reader::{Circuit, Laid};

// A question's answer: no is an `Err` of the question's number. Kept: the number is what the calls answer.
fn ask(number: u64, yes: bool) -> Result<(), u64>
    ensures yes { OnOk result (yes ≡ true) }
    ensures no { IfErr result (λ n. (n ≡ number) × (yes ≡ false)) }
{
    if yes { Ok(()) } else { Err(number) }
}

// "3 and then 4 are put to the contents, then 3 and then 4 to the bodies": a circuit of the words, or the first no of these.
#[tactic(auto, unfolding(lists::specs::Lists::first_no))]
fn ask_layout<'a>(words: &'a [u64]) -> Result<Circuit<'a>, u64>
    ensures circuit { IfOk result (λ c. c.words ≡ words.entry) }
    ensures yes { OnOk result (first_no layout_questions words.now ≡ 0) }
    ensures no { IfErr result (λ n. (0 < n) × (n ≡ first_no layout_questions words.now)) }
{
    ask(1, question_1(words))?;
    ask(2, question_2(words))?;
    ask(3, question_3(words))?;
    ask(4, question_4(words))?;
    let laid = Laid { words };
    ask(3, question_3_bodies(laid))?;
    ask(4, question_4_bodies(laid))?;
    Ok(Circuit { words })
}

// 5 to 11, with 18 after 9, put to a circuit: the first no is an `Err`.
#[tactic(auto, unfolding(lists::specs::Lists::first_no))]
fn ask_body(circuit: Circuit) -> Result<(), u64>
    ensures yes { OnOk result (first_no body_questions circuit.entry.words.now ≡ 0) }
    ensures no { IfErr result (λ n. (0 < n) × (n ≡ first_no body_questions circuit.entry.words.now)) }
{
    let laid = circuit.laid();
    ask(5, question_5(laid))?;
    ask(6, question_6(laid))?;
    ask(7, question_7(laid))?;
    ask(8, question_8(circuit))?;
    ask(9, question_9(circuit))?;
    ask(18, question_18(circuit))?;
    ask(10, question_10(circuit))?;
    ask(11, question_11(circuit))?;
    Ok(())
}

// A circuit of these words, if 1 to 11 and 18 are all answered yes, else the number of the first no.
pub fn accepted<'a>(words: &'a [u64]) -> Result<Circuit<'a>, u64>
    ensures circuit { IfOk result (λ c. c.words ≡ words.entry) }
    ensures yes { OnOk result (first_no circuit_questions words.now ≡ 0) }
    ensures no { IfErr result (λ n. (0 < n) × (n ≡ first_no circuit_questions words.now)) }
{
    let circuit = ask_layout(words)?;
    ask_body(circuit)?;
    Ok(circuit)
}

// "Questions, in this order; the first no gives its number": 0 if 1 to 11 are all answered yes.
pub fn first_no(words: &[u64]) -> u64
    ensures { result ≡ first_no circuit_questions words.now }
{
    match accepted(words) {
        Ok(_) => 0,
        Err(no) => no,
    }
}
