// The classes of bytes that the reader tells apart.
ghost use Rattle.std.specs.Prelude.{◌≡◌};
ghost use Rattle.formula.specs.Classes.{classify};

#[derive(Clone, Copy)]
pub enum Class {
    Space,
    Plus,
    Minus,
    Star,
    Caret,
    Open,
    Close,
    Letter(u8),
    Digit(u8),
    Other,
}

impl From<u8> for Class {
    ghost from_gives = { λ byte r. r ≡ classify byte };

    fn from(byte: u8) -> Class {
        match char::from(byte) {
            ' ' => Class::Space,
            '+' => Class::Plus,
            '-' => Class::Minus,
            '*' => Class::Star,
            '^' => Class::Caret,
            '(' => Class::Open,
            ')' => Class::Close,
            'a'..='p' => Class::Letter(byte - b'a'),
            '0'..='9' => Class::Digit(byte - b'0'),
            _ => Class::Other,
        }
    }
}
