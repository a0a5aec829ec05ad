// A text that grows at the front of a loan, cut off where the loan ends.
ghost use Rattle.std.specs.Prelude.{◌≡◌, ◌≤◌, length, [], ◌∷◌};

use itoa::{Buffer, Integer};

// (It is not written by `write!`, whose clauses speak on `Ok` alone: a text that was cut off is promised too.)
#[derive(Drop)]
pub(crate) struct Text<'a> {
    bytes: &'a mut [u8],
    end: usize,
    ghost within: { end ≤ length bytes.now },
}

impl<'a> Text<'a> {
    ghost use Rattle.listing_text.specs.Adds.{Adds};

    // No text yet.
    pub(crate) fn new(bytes: &'a mut [u8]) -> Text<'a>
        ensures same { result.bytes.ghost_name ≡ bytes.entry.ghost_name }
        ensures loan { result.bytes.now ≡ bytes.old }
        ensures front { result.end ≡ 0 }
    {
        Text { bytes, end: 0 }
    }

    // The text's length.
    pub(crate) fn end(&self) -> usize
        ensures { result ≡ self.now.end }
    {
        self.end
    }

    // Puts a byte behind the text.
    #[tactic(auto, using(crate::proofs::Grow::one, crate::proofs::Grow::full))]
    pub(crate) fn put(&mut self, b: u8)
        ensures { Adds self.old (b ∷ []) self.new }
    {
        if self.end < self.bytes.len() {
            self.bytes[self.end] = b;
            self.end += 1;
        }
    }

    pub(crate) fn put_all(&mut self, piece: &[u8])
        ensures { Adds self.old piece.now self.new }
    {
        for b in piece {
            self.put(*b);
        }
    }

    // A number in decimal; one below 0 has a hyphen.
    pub(crate) fn put_number<I: Integer>(&mut self, n: I)
        ensures { Adds self.old (I.text n) self.new }
    {
        self.put_all(Buffer::new().format(n).as_bytes());
    }
}
