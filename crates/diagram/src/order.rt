// Letter orders.
ghost use Rattle.std.specs.Prelude.{◌≤◌, take};
ghost use Rattle.diagram.specs.Orders.{Proper};

// The most letters of an order.
pub(crate) const MOST_LETTERS: usize = 16;

// 1 to 16 different letters from a to p, the highest first, at the first places of the array. It is no vector of fixed
// capacity, since an order is `Copy` and such a vector is not.
#[derive(Clone, Copy)]
pub struct Order {
    pub(crate) letters: [u8; MOST_LETTERS],
    pub(crate) count: usize,
    ghost few: { count ≤ 16 },
    ghost proper: { Proper (take count letters) },
}
