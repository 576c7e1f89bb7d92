// Making and closing tables.
ghost use Rattle.std.specs.Prelude.{◌≡◌, [], ◌∷◌, IfOk, MatchResult};
ghost use Rattle.domain.specs.declared.fault.Fault.TheVariants.{Memory};
ghost use Rattle.diagram.specs.Making.{Capacity, BadMaking};
ghost use Rattle.diagram.specs.Orders.{Proper};
ghost use Rattle.diagram.specs.Stores.{items};
ghost use Rattle.diagram.specs.Terms.{Made, Kept, Shallow};

use crate::order::Order;
use crate::store::{MOST_ENTRIES, Store};
use crate::table::{Closed, Open, Table};
use domain::domain::Domain;
use domain::fault::Fault;
use std::alloc::{AllocError, Global};
use std::marker::PhantomData;

impl Store {
    // No entries, and the memory for as many as any table has.
    fn first(heap: Global) -> Result<Store, AllocError>
        ensures { IfOk result (λ s. (items s ≡ []) × (s.capacity ≡ 1)) }
    {
        let entries = Vec::with_capacity(heap, MOST_ENTRIES)?;
        Ok(Store {
            entries,
            capacity: 1,
        })
    }

    // Lets all entries go.
    fn refill(&mut self, capacity: usize)
        requires { Capacity capacity }
        ensures none { items self.new ≡ [] }
        ensures room { self.new.capacity ≡ capacity }
    {
        self.entries.clear();
        self.capacity = capacity;
    }
}

impl<D: Domain + Drop> Table<D, Open> {
    // A first table, of order a and capacity 1.
    pub fn first(heap: Global, domain: D) -> Result<Table<D, Open>, Fault>
        ensures made { MatchResult result (λ t. (t.domain ≡ domain) × Made (97 ∷ []) 1 t) (λ e. e ≡ Memory) }
        ensures kept { IfOk result (λ t. Kept t) }
        ensures shallow { IfOk result (λ t. Shallow t) }
    {
        let store = Store::first(heap)?;
        Ok(Table {
            domain,
            order: Order::first(),
            store,
            state: PhantomData,
        })
    }
}

impl<D: Domain> Table<D, Open> {
    // Entry 0 only, with another order and capacity.
    pub fn make(&mut self, letters: &[u8], capacity: usize) -> Result<(), Fault>
        ensures made { MatchResult result
            (λ _. Proper letters.now × Capacity capacity × (self.new.domain ≡ self.old.domain) × Made letters.now capacity self.new)
            (λ e. (self.new ≡ self.old) × BadMaking letters.now capacity e) }
        ensures kept { IfOk result (λ _. Kept self.new) }
        ensures shallow { IfOk result (λ _. Shallow self.new) }
    {
        let order = Order::read(letters)?;
        if capacity < 1 || capacity > MOST_ENTRIES {
            return Err(Fault::BadCapacity { asked: capacity });
        }
        self.order = order;
        self.store.refill(capacity);
        Ok(())
    }

    // The same table, closed.
    pub fn close(self) -> Table<D, Closed>
        ensures domain { result.domain ≡ self.domain }
        ensures order { result.order ≡ self.order }
        ensures store { result.store ≡ self.store }
    {
        Table {
            domain: self.domain,
            order: self.order,
            store: self.store,
            state: PhantomData,
        }
    }
}
