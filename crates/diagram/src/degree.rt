// Degree, by one pass over the entries.
ghost use Rattle.std.specs.Prelude.{◌≡◌, ◌≤◌, length};
ghost use Rattle.diagram.specs.Terms.{entries_of, degree_of};

use crate::store::MOST_NUMBERS;
use crate::table::Table;
use arrayvec::ArrayVec;
use domain::domain::Domain;

impl<D: Domain, S> Table<D, S> {
    // The degree of an entry.
    pub(crate) fn degree(&self, n: usize) -> usize
        requires { n ≤ length (entries_of self.now) }
        ensures degree { result ≡ degree_of self.now n }
        ensures low { result ≤ n }
    {
        let mut degrees: ArrayVec<usize, MOST_NUMBERS> = ArrayVec::new();
        degrees.push(0);
        for e in &self.store.entries[..n] {
            let known = degrees.as_slice();
            let degree = known[e.additive.target].max(1 + known[e.multiplicative.target]);
            degrees.push(degree);
        }
        degrees.as_slice()[n]
    }
}
