// What each question is answered.
ghost use Rattle.std.specs.Prelude.{◌≡◌, Some};
ghost use Rattle.calc.specs.Answers.{asked, field_asked, replied};
ghost use Rattle.calc.specs.Lines.{answer_line};

use crate::asking::{DomainName, Query, Question};
use crate::no_answer::NoAnswer;
use byte::Bytes;
use domain::arithmetic::Arithmetic;
use domain::domain::Domain;
use domain::field::Field;
use domain::finite::Finite;
use domain::number::Number;
use residue::Residues;
use std::fmt;
use whole::Whole;

#[derive(Clone, Copy, PartialEq, Eq, Debug)]
pub enum Answer {
    Truth(bool),
    Natural(u32),
    Element(Number),
    Triple(Number, Number, Number),
}

// The answer to a line, as it was read.
pub fn reply(line: Option<Question>) -> Result<Answer, NoAnswer>
    ensures { result ≡ replied line }
{
    let Question { domain, query } = line.ok_or(NoAnswer::NotUnderstood)?;
    match domain {
        DomainName::Whole => ask(&Whole, query),
        DomainName::Residue => ask_field(
            &Finite {
                arithmetic: Residues,
            },
            query,
        ),
        DomainName::Byte => ask_field(&Finite { arithmetic: Bytes }, query),
    }
}

fn ask<D: Domain>(domain: &D, query: Query) -> Result<Answer, NoAnswer>
    ensures { result ≡ asked (D.Domain.model domain.now) query }
{
    Ok(match query {
        Query::Code(a) => Answer::Truth(domain.is_code(a)),
        Query::Limit => Answer::Natural(domain.limit()),
        Query::Size(a) => Answer::Natural(domain.size(a)?),
        Query::Negation(a) => Answer::Element(domain.negation(a)?),
        Query::Sum(a, b) => Answer::Element(domain.sum(a, b)?),
        Query::Product(a, b) => Answer::Element(domain.product(a, b)?),
        Query::Factor(a, b) => {
            let (g, p, q) = domain.factor(a, b)?;
            Answer::Triple(g, p, q)
        }
        Query::Inverse(_) => return Err(NoAnswer::NotUnderstood),
    })
}

fn ask_field<F: Field>(field: &F, query: Query) -> Result<Answer, NoAnswer>
    ensures { result ≡ field_asked (F.Domain.model field.now) (F.Field.reciprocal field.now) query }
{
    match query {
        Query::Inverse(a) => Ok(Answer::Element(field.inverse(a)?)),
        _ => ask(field, query),
    }
}

impl fmt::Display for Answer {
    ghost output = { λ answer. Some (answer_line answer) };

    fn fmt<W: fmt::Write>(&self, f: &mut fmt::Formatter<W>) -> fmt::Result {
        match self {
            Answer::Truth(true) => write!(f, "yes"),
            Answer::Truth(false) => write!(f, "no"),
            Answer::Natural(n) => write!(f, "{n}"),
            Answer::Element(a) => write!(f, "{a}"),
            Answer::Triple(g, p, q) => write!(f, "{g} {p} {q}"),
        }
    }
}
