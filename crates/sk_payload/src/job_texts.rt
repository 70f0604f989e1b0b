// Many texts as the store keeps them.
ghost use Rattle.std.specs.Prelude.{◌≡◌, IfOk};

use crate::{JobText, Memory};
use sk_resp::Word;
use std::alloc::Global;

/// The texts, each read here, once.
pub fn job_texts_of(alloc: Global, texts: Vec<Word>) -> Result<Vec<JobText>, Memory>
    ensures { IfOk result (λ jobs. jobs.items ≡ texts.items) }
{
    let mut jobs = Vec::with_capacity(alloc, texts.len())?;
    for text in texts {
        jobs.push(JobText::of(alloc, text)?)?;
    }
    Ok(jobs)
}
