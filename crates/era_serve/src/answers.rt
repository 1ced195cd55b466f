//! What the answers to commands say of devices and of memory.

ghost use Rattle.std.specs.Prelude.{◌≡◌};
ghost use Rattle.era_serve.specs.Answers.{says_fault, says_memory};

use era_model::Answer;

/// Whether an answer says that a device failed.
pub fn is_fault(answer: &Answer) -> bool
    ensures { result ≡ says_fault answer.now }
{
    matches!(answer, Answer::Fault(..))
}

/// Whether an answer says that memory was refused.
pub fn is_memory(answer: &Answer) -> bool
    ensures { result ≡ says_memory answer.now }
{
    matches!(answer, Answer::Memory)
}
