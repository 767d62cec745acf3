//! Lists of specifiers among the words.
ghost use Rattle.std.specs.Prelude.{◌≡◌, ◌++◌, IfOk, drop};
ghost use Rattle.pyver_commands.specs.AnswerViews.{outcome_of, specifiers_reading_of};
ghost use Rattle.pyver_commands.specs.Matches.{ReadsSpecifiers, list_fault, list_message, place_message};

use crate::answer::Answer;
use cli_io::{push_escaped, push_escaped_lines};
use pep440_rs::VersionSpecifiers;
use std::alloc::{AllocError, Global};

/// What a string is read as.
#[derive(Drop)]
pub enum SpecifiersReading {
    Specifiers(VersionSpecifiers),
    /// No list, with this message.
    Invalid(String),
}

/// The list that the string denotes, or why it denotes none.
pub fn parse_specifiers(alloc: Global, text: &str) -> Result<SpecifiersReading, AllocError>
    ensures { IfOk result (λ x. ReadsSpecifiers text.now (specifiers_reading_of x)) }
{
    match VersionSpecifiers::from_str(alloc, text) {
        Ok(list) => Ok(SpecifiersReading::Specifiers(list)),
        Err(error) => {
            if error.is_out_of_memory() {
                return Err(AllocError);
            }
            Ok(SpecifiersReading::Invalid(error.to_string(alloc)?))
        }
    }
}

// The bytes of `Failed to parse version: `, which begin the error of a list; but the word is meant as a list.
const FIRST_WORDS: usize = 25;

#[tactic(auto, using(std::proofs::lemmas::List::drop_all))]
fn without_first_words(message: &[u8]) -> &[u8]
    ensures { result.now ≡ drop 25 message.now }
{
    if message.len() < FIRST_WORDS {
        return &[];
    }
    &message[FIRST_WORDS..]
}

pub(crate) fn push_list_message(
    errors: &mut Vec<u8>,
    word: &str,
    message: &str,
) -> Result<(), AllocError>
    ensures { IfOk result (λ _. errors.new.items ≡ errors.old.items ++ list_message word.now message.now) }
{
    errors.extend_from_slice(b"pyver: '")?;
    push_escaped(errors, word.as_bytes())?;
    errors.extend_from_slice(b"' is not a list of specifiers: ")?;
    push_escaped_lines(errors, without_first_words(message.as_bytes()))?;
    Ok(())
}

fn push_place(errors: &mut Vec<u8>, usage: &str) -> Result<(), AllocError>
    ensures { IfOk result (λ _. errors.new.items ≡ errors.old.items ++ place_message usage.now) }
{
    errors.extend_from_slice(b"pyver: SPECS comes first: ")?;
    errors.extend_from_slice(usage.as_bytes())?;
    errors.push(b'\n')?;
    Ok(())
}

/// The message of a word that is no list, in a command with this usage line; the status is 2.
pub fn report_list_fault(
    alloc: Global,
    usage: &str,
    word: &str,
    message: &str,
) -> Result<Answer, AllocError>
    ensures { IfOk result (λ a. outcome_of a ≡ list_fault usage.now word.now message.now) }
{
    let mut answer = Answer::silent(alloc, 2);
    push_list_message(&mut answer.errors, word, message)?;
    push_place(&mut answer.errors, usage)?;
    Ok(answer)
}
