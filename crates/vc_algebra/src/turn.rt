ghost use Rattle.std.specs.Prelude.{◌≡◌};
ghost use Rattle.vc_algebra.specs.ToCome.{comes, takes_left};

use crate::Op;

// Which of the next objects of two lists is less: the first's, the second's, or neither, as they match.
#[derive(Clone, Copy)]
pub(crate) enum Turn {
    Left,
    Both,
    Right,
}

impl Turn {
    // Whether an operation passes the first's next object then, or else the second's.
    pub(crate) fn takes_left(self, op: Op) -> bool
        ensures { result ≡ takes_left op self }
    {
        match (self, op) {
            (Turn::Left, _) => true,
            (Turn::Right, _) => false,
            (Turn::Both, Op::Union) => false,
            (Turn::Both, Op::Meet | Op::Minus) => true,
        }
    }

    // Whether it answers the one that it passes.
    pub(crate) fn comes(self, op: Op) -> bool
        ensures { result ≡ comes op self }
    {
        match (op, self) {
            (Op::Union, Turn::Left | Turn::Right) => true,
            (Op::Union, Turn::Both) => false,
            (Op::Meet, Turn::Both) => true,
            (Op::Meet, Turn::Left | Turn::Right) => false,
            (Op::Minus, Turn::Left) => true,
            (Op::Minus, Turn::Both | Turn::Right) => false,
        }
    }
}
