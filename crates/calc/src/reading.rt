// Reads a line: a domain, a function and its numbers, with blanks between them.
ghost use Rattle.std.specs.Prelude.{◌≡◌, IfSome};
ghost use Rattle.std.specs.Str.Iter.{split_whitespace_rest};
ghost use Rattle.calc.specs.Questions.{IsFirstNumber, AsksFirst, Asks};
ghost use Rattle.calc.specs.Words.{NamesDomain, is_decimal, without_minus, ReadsNumber};

use crate::asking::{DomainName, Query, Question};
use crate::no_answer::NoAnswer;
use domain::number::Number;
use std::str::{FromStr, SplitWhitespace};

// What is read is what the line asks. That every line that asks something is understood is not said.
pub fn read(line: &[u8]) -> Option<Question>
    ensures { IfSome result (Asks line.now) }
{
    let text = std::str::from_utf8(line).ok()?;
    let mut words = text.split_whitespace();
    let domain = words.next()?.parse().ok()?;
    let query = query_words(&mut words)?;
    match words.next() {
        Some(_) => None,
        None => Some(Question { domain, query }),
    }
}

impl FromStr for DomainName {
    type Err = NoAnswer;

    ghost from_str_gives = { NamesDomain };

    fn from_str(word: &str) -> Result<DomainName, NoAnswer> {
        match word {
            "whole" => Ok(DomainName::Whole),
            "residue" => Ok(DomainName::Residue),
            "byte" => Ok(DomainName::Byte),
            _ => Err(NoAnswer::NotUnderstood),
        }
    }
}

fn query_words(words: &mut SplitWhitespace<'_>) -> Option<Query>
    ensures { IfSome result (λ query. AsksFirst (split_whitespace_rest words.old) query (split_whitespace_rest words.new)) }
{
    Some(match words.next()? {
        "code" => Query::Code(next_number(words)?),
        "limit" => Query::Limit,
        "size" => Query::Size(next_number(words)?),
        "negation" => Query::Negation(next_number(words)?),
        "sum" => Query::Sum(next_number(words)?, next_number(words)?),
        "product" => Query::Product(next_number(words)?, next_number(words)?),
        "factor" => Query::Factor(next_number(words)?, next_number(words)?),
        "inverse" => Query::Inverse(next_number(words)?),
        _ => return None,
    })
}

fn next_number(words: &mut SplitWhitespace<'_>) -> Option<Number>
    ensures { IfSome result (λ a. IsFirstNumber (split_whitespace_rest words.old) a (split_whitespace_rest words.new)) }
{
    number(words.next()?)
}

// A decimal number. One that does not fit 32 bits is no code of any domain, and is read as the least number that fits,
// which is none either.
fn number(word: &str) -> Option<Number>
    ensures { ReadsNumber word.now result }
{
    if !is_decimal(word) {
        return None;
    }
    let int = word.parse().unwrap_or(i32::MIN);
    Some(Number { int })
}

// One decimal digit or more, with or without a minus sign in front.
fn is_decimal(word: &str) -> bool
    ensures { result ≡ is_decimal word.now }
{
    let digits = without_minus(word);
    !digits.is_empty() && digits.bytes().all(|b| b.is_ascii_digit())
}

fn without_minus(word: &str) -> &str
    ensures { result.now ≡ without_minus word.now }
{
    word.strip_prefix('-').unwrap_or(word)
}
