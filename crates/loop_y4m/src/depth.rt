//! How many bits a sample has. docs/y4m.md says why it is so.

ghost use Rattle.std.specs.Prelude.{◌≡◌};
ghost use Rattle.loop_y4m.specs.Depths.{bits, depth_of, is_deep};

/// How many bits a sample has. One of more than 8 has two bytes, the lower one first. A frame of such samples is
/// recorded as one of 8 bits whose rows have twice the bytes.
#[derive(Clone, Copy, Debug, PartialEq, Eq)]
pub enum Depth {
    /// 8 bits: a byte.
    Bits8,
    /// 9 bits.
    Bits9,
    /// 10 bits.
    Bits10,
    /// 12 bits.
    Bits12,
    /// 14 bits.
    Bits14,
    /// 16 bits.
    Bits16,
}

impl Depth {
    /// The bits of a sample.
    pub fn bits(self) -> u32
        ensures { result ≡ bits self }
    {
        match self {
            Depth::Bits8 => 8,
            Depth::Bits9 => 9,
            Depth::Bits10 => 10,
            Depth::Bits12 => 12,
            Depth::Bits14 => 14,
            Depth::Bits16 => 16,
        }
    }

    /// The depth of samples of so many bits, if there is one.
    pub fn of_bits(bits: u32) -> Option<Depth>
        ensures { result ≡ depth_of bits }
    {
        match bits {
            8 => Some(Depth::Bits8),
            9 => Some(Depth::Bits9),
            10 => Some(Depth::Bits10),
            12 => Some(Depth::Bits12),
            14 => Some(Depth::Bits14),
            16 => Some(Depth::Bits16),
            _ => None,
        }
    }

    /// Whether a sample has two bytes.
    pub fn is_deep(self) -> bool
        ensures { result ≡ is_deep self }
    {
        match self {
            Depth::Bits8 => false,
            Depth::Bits9 | Depth::Bits10 | Depth::Bits12 | Depth::Bits14 | Depth::Bits16 => true,
        }
    }
}

/// Which colours are read.
#[derive(Clone, Copy, Debug, PartialEq, Eq)]
pub(crate) enum Colours {
    /// Those of 8 bits a sample.
    Eight,
    /// Those of 8 to 16 bits a sample.
    All,
}
