// Numbers from integers of each type.
ghost use Rattle.std.specs.Prelude.{◌≡◌, pos};
ghost use Rattle.json_number.specs.Numbers.{value_of};

use crate::number::Number;

impl From<u8> for Number {
    ghost from_gives = { λ n x. value_of x ≡ pos n };

    fn from(n: u8) -> Number {
        Number::unsigned(n as u64)
    }
}

impl From<u16> for Number {
    ghost from_gives = { λ n x. value_of x ≡ pos n };

    fn from(n: u16) -> Number {
        Number::unsigned(n as u64)
    }
}

impl From<u32> for Number {
    ghost from_gives = { λ n x. value_of x ≡ pos n };

    fn from(n: u32) -> Number {
        Number::unsigned(n as u64)
    }
}

impl From<u64> for Number {
    ghost from_gives = { λ n x. value_of x ≡ pos n };

    fn from(n: u64) -> Number {
        Number::unsigned(n)
    }
}

impl From<usize> for Number {
    ghost from_gives = { λ n x. value_of x ≡ pos n };

    fn from(n: usize) -> Number {
        Number::unsigned(n as u64)
    }
}

impl From<i8> for Number {
    ghost from_gives = { λ n x. value_of x ≡ n };

    fn from(n: i8) -> Number {
        Number::signed(n as i64)
    }
}

impl From<i16> for Number {
    ghost from_gives = { λ n x. value_of x ≡ n };

    fn from(n: i16) -> Number {
        Number::signed(n as i64)
    }
}

impl From<i32> for Number {
    ghost from_gives = { λ n x. value_of x ≡ n };

    fn from(n: i32) -> Number {
        Number::signed(n as i64)
    }
}

impl From<i64> for Number {
    ghost from_gives = { λ n x. value_of x ≡ n };

    fn from(n: i64) -> Number {
        Number::signed(n)
    }
}

impl From<isize> for Number {
    ghost from_gives = { λ n x. value_of x ≡ n };

    fn from(n: isize) -> Number {
        Number::signed(n as i64)
    }
}
