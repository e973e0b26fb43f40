//! Numbers of a binary proof: seven bits a byte, the lowest first.
ghost use Rattle.std.specs.Prelude.{◌≡◌};

/// What the next byte of a number counts, at most: 2 to the power of 63.
const LAST_WEIGHT: u64 = 1 << 63;

/// A number of which some bytes came.
#[derive(Clone, Copy)]
pub(crate) struct Begun {
    value: u64,

    /// What the lowest bit of the next byte counts.
    weight: u64,
}

/// What a number comes to with one more byte.
#[derive(Clone, Copy)]
pub(crate) enum Grown {
    GoesOn(Begun),
    Ended(u64),

    /// It is above 64 bits.
    TooLarge,
}

/// A number of which no byte came.
pub(crate) const fn unbegun() -> Begun {
    Begun {
        value: 0,
        weight: 1,
    }
}

impl Begun {
    /// The number with its next byte, which is its last one below 128.
    pub(crate) fn with(self, byte: u8) -> Grown {
        let Some(bits) = u64::from(byte % 128).checked_mul(self.weight) else {
            return Grown::TooLarge;
        };
        let Some(value) = self.value.checked_add(bits) else {
            return Grown::TooLarge;
        };
        if byte < 128 {
            return Grown::Ended(value);
        }
        match self.weight.checked_mul(128) {
            Some(weight) => Grown::GoesOn(Begun { value, weight }),
            None => Grown::TooLarge,
        }
    }
}
