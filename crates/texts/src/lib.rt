// Texts, laid down in a lent buffer from its front on, one behind the other: words, and numbers in decimal. Bytes that the
// buffer has no room for are left out.
#![tactic(auto)]

ghost use Rattle.texts.specs.Texts.{Lays, LaysNumber};

use words::Count;

// A lent buffer, and how many bytes of it are filled.
#[derive(Drop)]
pub struct Text<'a> {
    pub buffer: &'a mut [u8],
    pub filled: Count,
}

impl Text<'_> {
    // Lays the bytes of a word down.
    pub fn word(&mut self, text: &[u8])
        ensures { Lays text.now self.old self.new }
    {
        let filled = self.filled.0;
        if self.buffer.len() <= filled {
            return;
        }
        let n = text.len().min(self.buffer.len() - filled);
        let end = filled + n;
        self.buffer[filled..end].copy_from_slice(&text[..n]);
        self.filled = Count(end);
    }

    // Lays a number down in decimal, without zeros in front.
    pub fn decimal(&mut self, v: u64)
        ensures { LaysNumber v self.old self.new }
    {
        let mut digits = [0u8; 20];
        let count = io::decimal(v, &mut digits);
        self.word(&digits[..count]);
    }
}
