// Tables of polynomials over a domain.
ghost use Rattle.std.specs.Prelude.{length};
ghost use Rattle.diagram.specs.Listed.{listed};
ghost use Rattle.diagram.specs.Places.{All, Lettered};
ghost use Rattle.diagram.specs.Tables.{Coded};

use crate::order::Order;
use crate::store::Store;
use domain::domain::Domain;
use std::marker::PhantomData;

// The state of a table that may grow.
#[derive(Clone, Copy)]
pub struct Open;

// The state of a table that stays as it is.
#[derive(Clone, Copy)]
pub struct Closed;

// A table in one of the two states. The letters of its entries are in the order, and their weights are codes. That a table
// is kept is no ghost field, but a premise where it is needed: a table filled by hand need not be.
#[derive(Drop)]
pub struct Table<D: Domain, S> {
    pub(crate) domain: D,
    pub(crate) order: Order,
    pub(crate) store: Store,
    pub(crate) state: PhantomData<S>,
    pub ghost lettered: { All (Lettered (length (listed order))) store.entries.items },
    pub ghost coded: { All (Coded (D.Domain.model domain)) store.entries.items },
}
