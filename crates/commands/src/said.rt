//! What is said to the events of a run, made before the first line is written.
ghost use Rattle.std.specs.Prelude.{◌≡◌, ◌++◌, map, IfOk, OnOk};
ghost use Rattle.commands.specs.Said.{AreShown, bytes_of, text_shown, texts_shown};

use json_gateway::WireOutcome;
use std::alloc::{AllocError, Global};

/// The outcomes of a run, and the text of each that shows what is kept, in order. The line of any
/// other takes no memory, and is made once it is written.
#[derive(Drop)]
pub struct Said {
    pub outcomes: Vec<WireOutcome>,
    pub texts: Vec<Vec<u8>>,
}

/// Makes the texts of the outcomes that show what is kept. `AllocError` comes where one of them, or
/// their list, found no memory.
pub fn said_of(alloc: Global, outcomes: Vec<WireOutcome>) -> Result<Said, AllocError>
    ensures said { IfOk result (λ said. said.outcomes ≡ outcomes) }
    ensures shown { IfOk result (λ said. AreShown said) }
{
    let texts = texts_of(alloc, &outcomes)?;
    Ok(Said { outcomes, texts })
}

/// The text of each outcome that shows what is kept, in order.
fn texts_of(alloc: Global, outcomes: &[WireOutcome]) -> Result<Vec<Vec<u8>>, AllocError>
    ensures { IfOk result (λ texts. map bytes_of texts.items ≡ texts_shown outcomes.now) }
{
    let mut texts = Vec::new(alloc);
    for outcome in outcomes {
        add_text(alloc, &mut texts, outcome)?;
    }
    Ok(texts)
}

/// Adds the text of an outcome that shows what is kept, and nothing for any other.
fn add_text(
    alloc: Global,
    texts: &mut Vec<Vec<u8>>,
    outcome: &WireOutcome,
) -> Result<(), AllocError>
    ensures { OnOk result (map bytes_of texts.new.items
        ≡ map bytes_of texts.old.items ++ text_shown outcome.now) }
{
    if let WireOutcome::Certified(Ok(shown)) = outcome {
        let text = certificate_text::write(alloc, &shown.dump, &shown.certificate)?;
        texts.push(text)?;
    }
    Ok(())
}
