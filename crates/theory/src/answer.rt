// The three answers, and their codes at the byte edge.
ghost use Rattle.std.specs.Prelude.{◌≡◌};
ghost use Rattle.theory.specs.Truth.{code_of, flip, truth_of};

// In the order of their codes.
#[derive(Clone, Copy, PartialEq, Eq)]
pub enum Truth {
    Undefined,
    True,
    False,
}

impl Truth {
    // Undefined stays undefined under "not".
    pub fn flip(self) -> Truth
        ensures { result ≡ flip self }
    {
        match self {
            Truth::Undefined => Truth::Undefined,
            Truth::True => Truth::False,
            Truth::False => Truth::True,
        }
    }
}

// 0 undefined, 1 true, 2 false; another byte is no answer.
impl From<u8> for Truth {
    ghost from_gives = { λ code x. x ≡ truth_of code };

    fn from(code: u8) -> Truth {
        match code {
            0 => Truth::Undefined,
            1 => Truth::True,
            2 => Truth::False,
            3.. => Truth::Undefined,
        }
    }
}

impl From<Truth> for u8 {
    ghost from_gives = { λ x code. code ≡ code_of x };

    fn from(x: Truth) -> u8 {
        x as u8
    }
}
