// Reading a letter order, and finding a letter in it.
ghost use Rattle.std.specs.Prelude.{◌≡◌, ◌<◌, length, slice_index, [], ◌∷◌};
ghost use Rattle.std.specs.Bool.{Decides};
ghost use Rattle.domain.specs.declared.fault.Fault.TheVariants.{BadOrder};
ghost use Rattle.diagram.specs.Checks.{Checked};
ghost use Rattle.diagram.specs.Orders.{Letter, Proper};
ghost use Rattle.diagram.specs.Listed.{listed, Placed};

use crate::find::position;
use crate::order::{MOST_LETTERS, Order};
use domain::fault::Fault;

// Whether a byte is a letter from a to p.
fn is_letter(x: u8) -> bool
    ensures { Decides result (Letter x) }
{
    matches!(x, b'a'..=b'p')
}

// Whether the bytes are an order.
fn is_proper(letters: &[u8]) -> bool
    ensures { Decides result (Proper letters.now) }
{
    if letters.is_empty() || letters.len() > MOST_LETTERS {
        return false;
    }
    for (i, x) in letters.iter().enumerate() {
        if !is_letter(*x) || position(&letters[..i], x).is_some() {
            return false;
        }
    }
    true
}

impl Order {
    // The order of these letters, if they are one.
    pub fn read(letters: &[u8]) -> Result<Order, Fault>
        ensures checked { Checked (Proper letters.now) (BadOrder (length letters.now)) (λ o. listed o ≡ letters.now) result }
    {
        if !is_proper(letters) {
            return Err(Fault::BadOrder {
                letters: letters.len(),
            });
        }
        let mut held = [0; MOST_LETTERS];
        held[..letters.len()].copy_from_slice(letters);
        Ok(Order {
            letters: held,
            count: letters.len(),
        })
    }

    // The order of the letter a alone.
    pub(crate) fn first() -> Order
        ensures { listed result ≡ 97 ∷ [] }
    {
        let mut letters = [0; MOST_LETTERS];
        letters[0] = b'a';
        Order { letters, count: 1 }
    }

    // The letters, the highest first.
    pub(crate) fn as_slice(&self) -> &[u8]
        ensures { result.now ≡ listed self.now }
    {
        &self.letters[..self.count]
    }

    // The letter at a place.
    pub(crate) fn letter(&self, place: u8) -> u8
        requires { place < length (listed self.now) }
        ensures { result ≡ slice_index (listed self.now) place }
    {
        self.as_slice()[usize::from(place)]
    }

    // The place of a letter in the order.
    pub fn place(&self, letter: u8) -> Result<u8, Fault>
        ensures { Placed (listed self.now) letter result }
    {
        match position(self.as_slice(), &letter) {
            // by `as`: a place is below 16, and `try_from` would have an `Err` that never comes
            Some(i) => Ok(i as u8),
            None => Err(Fault::UnknownLetter { letter }),
        }
    }
}
