// The integers modulo the prime 8,191.
#![tactic(auto)]

ghost use Rattle.std.specs.Prelude.{◌≡◌, ◌%◌, ◌^◌, ◌<◌, pos};
ghost use Prim.Native.Nat.{Fin};
ghost use Rattle.domain.specs.Numbers.{number as numbered};
ghost use Rattle.residue.specs.Residues.{residues};
ghost use Rattle.residue.specs.ResidueLaws.{residues_laws};

use domain::arithmetic::Arithmetic;
use domain::fault::Fault;
use domain::finite::Finite;
use domain::number::Number;

const PRIME: u32 = 8191;

#[derive(Clone, Copy)]
pub struct Residues;

pub type Residue = Finite<Residues>;

// The power of a residue, by squares.
fn power(a: u32, exponent: u32) -> u32
    requires { a < 8191 }
    ensures { result ≡ a ^ exponent % 8191 }
{
    if exponent == 0 {
        return 1;
    }
    let half = power(a * a % PRIME, exponent / 2);
    if exponent % 2 == 0 {
        half
    } else {
        half * a % PRIME
    }
}

// The code of a residue. By `as`: it fits, and `try_from` would have an `Err` that never comes.
fn residue(n: u32) -> Number
    requires { n < 8191 }
    ensures { result ≡ numbered (pos n) }
{
    Number::from(n as u16)
}

impl Arithmetic for Residues {
    ghost carrier = { Fin 8191 };

    ghost meaning = { λ _. residues };

    ghost sound = { λ f. residues_laws };

    fn is_code(&self, a: Number) -> bool {
        a.below(PRIME).is_ok()
    }

    fn negation(&self, a: Number) -> Result<Number, Fault> {
        let x = a.below(PRIME)?;
        Ok(residue((PRIME - x) % PRIME))
    }

    fn sum(&self, a: Number, b: Number) -> Result<Number, Fault> {
        let x = a.below(PRIME)?;
        let y = b.below(PRIME)?;
        Ok(residue((x + y) % PRIME))
    }

    fn product(&self, a: Number, b: Number) -> Result<Number, Fault> {
        let x = a.below(PRIME)?;
        let y = b.below(PRIME)?;
        Ok(residue(x * y % PRIME))
    }

    // By Fermat's little theorem the power PRIME - 1 is one, so the power before it is the inverse.
    fn inverse(&self, a: Number) -> Result<Number, Fault> {
        let x = a.below(PRIME)?;
        if x == 0 {
            return Err(a.no_code());
        }
        Ok(residue(power(x, PRIME - 2)))
    }
}
