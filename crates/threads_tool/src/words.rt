// The words of the program: those of a replay, without its command.
ghost use Rattle.std.specs.Prelude.{◌≡◌, ◌∷◌, codes, IfOk, MatchResult, Some};
ghost use Rattle.program_words.specs.Asked.{AsksRun, words_ask};
ghost use Rattle.program_words.specs.Content.{words_of};
ghost use Rattle.program_words.specs.Meant.{run_meant};
ghost use Rattle.program_words.specs.declared.read.WordsError.TheVariants as error;
ghost use Rattle.threads_tool.specs.Outcome.{IsNoReplay};

use program_words::{Request, RunWords, WordsError, read_words};
use std::alloc::{AllocError, Global};

/// The words with the command of a replay before them.
pub(crate) fn with_command(alloc: Global, words: &[String]) -> Result<Vec<String>, AllocError>
    ensures { IfOk result (λ all. words_of all.items ≡ codes "run" ∷ words_of words.now) }
{
    let mut all = Vec::new(alloc);
    all.push(String::from_str(alloc, "run")?)?;
    for word in words {
        all.push(word.clone()?)?;
    }
    Ok(all)
}

/// What the words ask for, where that is a replay. `Usage` comes for all others; `NoMemory` may come for any.
pub(crate) fn replay_words<'a>(
    alloc: Global,
    words: &'a [String],
) -> Result<RunWords<'a>, WordsError>
    ensures { MatchResult result (λ r. words_ask (words_of words.now) ≡ Some (AsksRun (run_meant r))) (λ e. e ≡ error.Usage → IsNoReplay (words_ask (words_of words.now))) }
{
    match read_words(alloc, words) {
        Ok(Request::Run(asked)) => Ok(asked),
        Ok(_) => Err(WordsError::Usage),
        Err(error) => Err(error),
    }
}
