// Why a line has no answer.
ghost use Rattle.std.specs.Prelude.{◌≡◌, Some};
ghost use Rattle.calc.specs.Lines.{no_answer_line};
ghost use Rattle.calc.specs.declared.no_answer.NoAnswer.TheVariants.{Refused};

use domain::fault::Fault;
use std::fmt;

#[derive(Clone, Copy, PartialEq, Eq, Debug)]
pub enum NoAnswer {
    // no question to any domain
    NotUnderstood,
    // a question that its domain refuses
    Refused(Fault),
}

impl From<Fault> for NoAnswer {
    ghost from_gives = { λ fault e. e ≡ Refused fault };

    fn from(fault: Fault) -> NoAnswer {
        Self::Refused(fault)
    }
}

impl fmt::Display for NoAnswer {
    ghost output = { λ e. Some (no_answer_line e) };

    fn fmt<W: fmt::Write>(&self, f: &mut fmt::Formatter<W>) -> fmt::Result {
        match self {
            NoAnswer::NotUnderstood => write!(f, "not understood"),
            NoAnswer::Refused(fault) => write!(f, "{fault}"),
        }
    }
}
