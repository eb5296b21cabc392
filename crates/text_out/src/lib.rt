// Text put into a lent buffer, one byte after another. A byte past the buffer's end is not written, and counts: so the length of the whole text is known
// also where the buffer has no room for it.
#![tactic(auto)]

ghost use Rattle.std.specs.Prelude.{◌≡◌, [], ◌∷◌, IsOk};
ghost use Rattle.definition.specs.Format.{decimal};
ghost use Rattle.definition.specs.Write.{spaced};
ghost use Rattle.text_out.specs.Text.{started, with_text, text_length};

use std::fmt;

// A slice and a place, and no vector: the buffer is the caller's, and the place goes on past its end.
#[derive(Drop)]
pub struct Text<'a> {
    out: &'a mut [u8],
    at: usize,
}

impl<'a> Text<'a> {
    // No text yet, in a buffer that is lent for it.
    pub fn new(out: &'a mut [u8]) -> Text<'a>
        ensures { result ≡ started out.entry }
    {
        Text { out, at: 0 }
    }

    // How many bytes the text has, in the buffer and past its end.
    pub fn length(&self) -> usize
        ensures { result ≡ text_length self.now }
    {
        self.at
    }

    #[tactic(auto, using(std::proofs::lemmas::List::set_past), unfolding(crate::specs::Text::laid, crate::specs::Text::after_text))]
    pub fn byte(&mut self, b: u8)
        ensures { self.new ≡ with_text self.old (b ∷ []) }
    {
        let at = self.at;
        if at < self.out.len() {
            self.out[at] = b;
        }
        self.at = at.saturating_add(1);
    }

    #[tactic(auto, using(crate::proofs::Laws::with_text_more), unfolding(crate::specs::Text::laid, crate::specs::Text::after_text))]
    pub fn bytes(&mut self, text: &[u8])
        ensures { self.new ≡ with_text self.old text.now }
    {
        for b in text {
            self.byte(*b);
        }
    }

    // The digits before the last one, then the last one. By hand: `write!` promises a text only where it gives Ok.
    #[tactic(auto, using(crate::proofs::Laws::with_last_digit, crate::proofs::Laws::with_more_digits))]
    pub fn decimal(&mut self, n: u64)
        ensures { self.new ≡ with_text self.old (decimal n) }
    {
        if n >= 10 {
            self.decimal(n / 10);
        }
        self.byte(b'0' + (n % 10) as u8);
    }

    // A number with the space before it.
    #[tactic(auto, unfolding(definition::specs::Write::spaced, crate::specs::Text::laid, crate::specs::Text::after_text))]
    pub fn spaced_decimal(&mut self, n: u64)
        ensures { self.new ≡ with_text self.old (spaced n) }
    {
        self.byte(b' ');
        self.decimal(n);
    }
}

// No write fails. The contract of `write!` does not say so, but only what was written where it gives Ok: so the methods above are for callers that promise
// a text, and this is for those that promise none.
impl fmt::Write for Text<'_> {
    ghost write_str_gives = { λ before text after. after ≡ with_text before text };

    fn write_str(&mut self, text: &str) -> fmt::Result
        ensures ok { IsOk result → self.new ≡ with_text self.old text.now }
        ensures never_fails { IsOk result }
    {
        self.bytes(text.as_bytes());
        Ok(())
    }
}
