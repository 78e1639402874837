// Words, decimal numbers and lines, put into a lent buffer as far as it goes.
#![tactic(auto)]

ghost use Rattle.std.specs.Prelude.{◌≡◌, [], ◌∷◌};
ghost use Rattle.lines.specs.Text.{decimal, valued, titled};
ghost use Rattle.lines.specs.Put.{Puts};

// A lent buffer and the place where the next text goes.
// std's writer over a slice fails where the room ends, and no clause says which bytes it wrote; so this is a type of its own.
#[derive(Drop)]
pub struct Page<'a> {
    pub out: &'a mut [u8],
    pub at: usize,
}

impl<'a> Page<'a> {
    // A buffer, from its start on.
    pub fn new(out: &'a mut [u8]) -> Page<'a>
        ensures same_reference { result.out.ghost_name ≡ out.entry.ghost_name }
        ensures bytes { result.out.now ≡ out.old }
        ensures start { result.at ≡ 0 }
    {
        Page { out, at: 0 }
    }
}

impl Page<'_> {
    // Puts a byte, if the buffer has its place; past the end it puts nothing and the place stays.
    pub fn put_byte(&mut self, byte: u8)
        ensures { Puts (byte ∷ []) self.old self.new }
    {
        if self.out.len() <= self.at {
            return;
        }
        self.out[self.at] = byte;
        self.at += 1;
    }

    // Puts a word.
    pub fn put(&mut self, word: &[u8])
        ensures { Puts word.now self.old self.new }
    {
        for byte in word {
            self.put_byte(*byte);
        }
    }

    // Puts a number in decimal.
    pub fn put_number(&mut self, number: u64)
        ensures { Puts (decimal number) self.old self.new }
    {
        let mut digits = [0u8; 20];
        let count = io::decimal(number, &mut digits);
        self.put(&digits[..count]);
    }

    // Puts a space, a number and the line's end.
    pub fn put_value(&mut self, number: u64)
        ensures { Puts (valued number) self.old self.new }
    {
        self.put_byte(b' ');
        self.put_number(number);
        self.put_byte(b'\n');
    }

    // Puts a line of a word and a number.
    pub fn put_titled(&mut self, word: &[u8], number: u64)
        ensures { Puts (titled word.now number) self.old self.new }
    {
        self.put(word);
        self.put_value(number);
    }
}
