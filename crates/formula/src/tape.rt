// The records of the text so far.
ghost use Rattle.std.specs.Prelude.{◌≡◌, ◌-◌, [], ◌∷◌, ◌++◌};
ghost use Rattle.formula.specs.Tapes.{Adds, NamesLast, Wrote, negated, powered, settled, multiplied, termed, wholed};

use crate::limits::MAX_RECORDS;
use crate::record::Record;
use crate::state::{Level, Sign, State};
use arrayvec::ArrayVec;

// One more record than a flow has: what fills a tape is too long for a flow.
const TAPE_ROOM: usize = MAX_RECORDS + 1;

// The records, or the first of them where there are more than the tape has room for.
#[derive(Drop)]
pub struct Tape {
    records: ArrayVec<Record, TAPE_ROOM>,
}

impl Tape {
    pub fn new() -> Tape
        ensures { Wrote result [] }
    {
        Tape {
            records: ArrayVec::new(),
        }
    }

    pub fn records(&self) -> &[Record]
        ensures { result.now ≡ self.now.records.items }
    {
        self.records.as_slice()
    }

    pub fn push(&mut self, item: Record)
        ensures { Adds self.old self.new (λ e. e ++ item ∷ []) }
    {
        if !self.records.is_full() {
            self.records.push(item);
        }
    }

    // The number of the last record. By `as`: it fits, and `try_from` would have an `Err` that never comes.
    pub fn last(&self) -> u16
        ensures { NamesLast self.now result }
    {
        self.records.len().saturating_sub(1) as u16
    }

    // The last record, negated this many times.
    pub fn negate(&mut self, times: u16)
        ensures { Adds self.old self.new (λ e. negated e times) }
    {
        for _ in 0..times {
            let operand = self.last();
            self.push(Record::Negation(operand));
        }
    }

    // The last record to the power k.
    pub fn raise(&mut self, k: u32)
        ensures { Adds self.old self.new (λ e. powered e (k - 1)) }
    {
        let base = self.last();
        for _ in 1..k {
            let product = self.last();
            self.push(Record::Product(product, base));
        }
    }

    // What the state holds back of the operand that was read.
    pub fn settle(&mut self, state: State)
        ensures { Adds self.old self.new (λ e. settled e state) }
    {
        match state {
            State::Number(n) => self.push(Record::Constant(n)),
            State::Exponent(k) => self.raise(k),
            State::Operand | State::Atom | State::Caret | State::Power => {}
        }
    }

    fn multiply(&mut self, product: Option<u16>)
        ensures { Adds self.old self.new (λ e. multiplied e product) }
    {
        if let Some(left) = product {
            let right = self.last();
            self.push(Record::Product(left, right));
        }
    }

    // The end of a term. The state and the level are fields of the reader: a struct of both would only lengthen each of the
    // places that read one.
    pub fn close_term(&mut self, state: State, level: Level)
        ensures { Adds self.old self.new (λ e. termed e state level) }
    {
        self.settle(state);
        self.negate(level.negations);
        self.multiply(level.product);
    }

    // The end of a formula, or of the terms so far.
    pub fn close_sum(&mut self, state: State, level: Level)
        ensures { Adds self.old self.new (λ e. wholed e state level) }
    {
        self.close_term(state, level);
        let right = self.last();
        match level.sum {
            None => {}
            Some((Sign::Plus, left)) => self.push(Record::Sum(left, right)),
            Some((Sign::Minus, left)) => self.push(Record::Difference(left, right)),
        }
    }
}
