// Answers as text.
ghost use Rattle.std.specs.Prelude.{◌≡◌, IfOk, string_bytes};
ghost use Rattle.law.specs.Texts.{answer_text};

use law::Answer;
use std::alloc::{AllocError, Global};

// What an answer says, without a line feed.
// Kept beside Display: a public call, which a program may make without a format.
pub fn show_answer(heap: Global, answer: Answer) -> Result<String, AllocError>
    ensures { IfOk result (λ t. string_bytes t ≡ answer_text answer) }
{
    format!(in heap; "{answer}")
}
