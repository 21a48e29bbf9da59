// A number that was read, before its range is tested.
ghost use Rattle.std.specs.Prelude.{◌≡◌};
ghost use Rattle.pointer.specs.Number.{unsigned_of, signed_of, Bounded};

use section::{Off, Refusal};

// The number that the digits are, half of the power of the base that it lies below, and the place after it.
#[derive(Clone, Copy)]
pub(crate) struct Number {
    pub value: u64,
    pub half: u64,
    pub next: Off,
}

impl Number {
    // A number that stands for itself.
    #[tactic(auto, unfolding(crate::specs::Number::unsigned_of))]
    pub(crate) fn unsigned(self) -> Result<(u32, Off), Refusal>
        ensures { result ≡ unsigned_of self }
    {
        if self.value < 0x1_0000_0000 {
            Ok((self.value as u32, self.next))
        } else {
            Err(Refusal::Value)
        }
    }

    // A number in two's complement.
    #[tactic(auto, using(crate::proofs::Numbers::plus_in, crate::proofs::Numbers::plus_over, crate::proofs::Numbers::minus_in, crate::proofs::Numbers::minus_over))]
    pub(crate) fn signed(self) -> Result<(u32, Off), Refusal>
        requires { Bounded self }
        ensures { result ≡ signed_of self }
    {
        if self.value < self.half {
            return if self.value < 0x8000_0000 {
                Ok((self.value as u32, self.next))
            } else {
                Err(Refusal::Value)
            };
        }
        let minus = self.half - (self.value - self.half);
        if minus <= 0x8000_0000 {
            Ok(((0x1_0000_0000 - minus) as u32, self.next))
        } else {
            Err(Refusal::Value)
        }
    }
}
