// The reader: one step for each byte.
ghost use Rattle.std.specs.Prelude.{[], Some};
ghost use Rattle.formula.specs.Follow.{Follows, Moves, MovesFrom, MovesPast, Steps, Settles, Ends, joined_by};
ghost use Rattle.formula.specs.Machine.State.{awaiting};
ghost use Rattle.formula.specs.Machine.{star_move, sum_move, close_move, open_move, letter_move, minus_move, empty};

use crate::class::Class;
use crate::digits::{first_exponent_digit, next_digit, next_exponent_digit};
use crate::limits::MAX_OPEN;
use crate::record::Record;
use crate::state::{Level, Sign, State};
use crate::tape::Tape;
use arrayvec::ArrayVec;

#[derive(Drop)]
pub struct Reader {
    state: State,
    level: Level,
    // One level for each open parenthesis.
    outer: ArrayVec<Level, MAX_OPEN>,
    pub tape: Tape,
}

// A method for one kind of byte answers the state past it, or `None` where no formula goes on with it.
// After a `None` the reader is of no more use.
impl Reader {
    pub fn new() -> Reader
        ensures { Follows awaiting empty [] result }
    {
        Reader {
            state: State::Operand,
            level: Level::default(),
            outer: ArrayVec::new(),
            tape: Tape::new(),
        }
    }

    // The operand that was read is written.
    fn settle(&mut self)
        ensures { Settles self.old self.new }
    {
        self.tape.settle(self.state);
    }

    fn letter(&mut self, i: u8) -> State
        ensures { MovesFrom awaiting (letter_move i) self.old (Some result) self.new }
    {
        self.tape.push(Record::Letter(i));
        State::Atom
    }

    fn times(&mut self) -> State
        ensures { MovesPast star_move self.old (Some result) self.new }
    {
        self.tape.close_term(self.state, self.level);
        self.level = Level {
            product: Some(self.tape.last()),
            negations: 0,
            ..self.level
        };
        State::Operand
    }

    // A `+` or `-` past an operand.
    fn join(&mut self, sign: Sign) -> State
        ensures { MovesPast (λ o. sum_move o (joined_by sign)) self.old (Some result) self.new }
    {
        self.tape.close_sum(self.state, self.level);
        self.level = Level {
            sum: Some((sign, self.tape.last())),
            ..Level::default()
        };
        State::Operand
    }

    // A `-` in front of a factor.
    fn negate(&mut self) -> State
        ensures { MovesFrom awaiting minus_move self.old (Some result) self.new }
    {
        self.level.negations = self.level.negations.saturating_add(1);
        State::Operand
    }

    fn open(&mut self) -> Option<State>
        ensures { MovesFrom awaiting open_move self.old result self.new }
    {
        self.outer.try_push(self.level).ok()?;
        self.level = Level::default();
        Some(State::Operand)
    }

    fn close(&mut self) -> Option<State>
        ensures { MovesPast close_move self.old result self.new }
    {
        let level = self.outer.pop()?;
        self.tape.close_sum(self.state, self.level);
        self.level = level;
        Some(State::Atom)
    }

    // The state past a byte of this class.
    fn state_past(&mut self, class: Class) -> Option<State>
        ensures { Moves class self.old result self.new }
    {
        match (self.state, class) {
            (State::Operand | State::Caret, Class::Space) => Some(self.state),
            (State::Operand, Class::Minus) => Some(self.negate()),
            (State::Operand, Class::Open) => self.open(),
            (State::Operand, Class::Letter(i)) => Some(self.letter(i)),
            (State::Operand, Class::Digit(d)) => Some(State::Number(u32::from(d))),
            (State::Caret, Class::Digit(d)) => first_exponent_digit(d),
            (State::Operand | State::Caret, _) => None,
            (State::Number(_) | State::Atom, Class::Space) => {
                self.settle();
                Some(State::Atom)
            }
            (State::Number(_) | State::Atom, Class::Caret) => {
                self.settle();
                Some(State::Caret)
            }
            (State::Exponent(_) | State::Power, Class::Space) => {
                self.settle();
                Some(State::Power)
            }
            (State::Number(n), Class::Digit(d)) => next_digit(n, d),
            (State::Exponent(k), Class::Digit(d)) => next_exponent_digit(k, d),
            (_, Class::Star) => Some(self.times()),
            (_, Class::Plus) => Some(self.join(Sign::Plus)),
            (_, Class::Minus) => Some(self.join(Sign::Minus)),
            (_, Class::Close) => self.close(),
            _ => None,
        }
    }

    // Reads a byte of this class, if some formula goes on with it.
    pub fn step(&mut self, class: Class) -> Option<()>
        ensures { Steps class self.old result self.new }
    {
        self.state = self.state_past(class)?;
        Some(())
    }

    // Writes the last records of the formula, if the text may end here. The tape stays where it is: it is 4 KiB.
    pub fn finish(&mut self) -> Option<()>
        ensures { Ends self.old result self.new }
    {
        if !self.outer.is_empty() || matches!(self.state, State::Operand | State::Caret) {
            return None;
        }
        self.tape.close_sum(self.state, self.level);
        Some(())
    }
}
