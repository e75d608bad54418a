// The words of a line.
ghost use Rattle.std.specs.Prelude.{IfNone, IfSome, IsOkUnless, OnErr, OnOk};
ghost use Rattle.std.specs.Str.Iter.{split_whitespace_rest};
ghost use Rattle.statements.specs.declared.fault.Malformed.TheVariants.{TooManyNumbers};
ghost use Rattle.statements.specs.Words.{BeginsWithWord, HasWord, IsBlank, IsComment, ReadsNumber, SaysNothing};

use super::fault::Malformed;
use std::str::SplitWhitespace;

// The first word of a line, and the words behind it; none where the line is empty or a comment.
pub fn opening(line: &str) -> Option<(&str, SplitWhitespace<'_>)>
    ensures nothing { IfNone result (SaysNothing line.now) }
    ensures word { IfSome result (λ s. BeginsWithWord line.now s.0.now (split_whitespace_rest s.1)) }
    ensures says { IfSome result (λ s. ¬ (IsComment s.0.now)) }
{
    let mut words = line.split_whitespace();
    let word = words.next()?;
    if word.starts_with('#') {
        return None;
    }
    Some((word, words))
}

// The next word as a number.
pub fn number(words: &mut SplitWhitespace<'_>) -> Result<i64, Malformed>
    ensures { ReadsNumber (split_whitespace_rest words.old) result (split_whitespace_rest words.new) }
{
    let word = words.next().ok_or(Malformed::MissingNumber)?;
    word.parse::<i64>().map_err(|_| Malformed::NotANumber)
}

// Whether the numbers end here.
pub fn end(mut words: SplitWhitespace<'_>) -> Result<(), Malformed>
    ensures ended { OnOk result (IsBlank (split_whitespace_rest words.entry)) }
    ensures more { OnErr result (HasWord (split_whitespace_rest words.entry)) }
    ensures fault { IsOkUnless result TooManyNumbers }
{
    match words.next() {
        None => Ok(()),
        Some(_) => Err(Malformed::TooManyNumbers),
    }
}
