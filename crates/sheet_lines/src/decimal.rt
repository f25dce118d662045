// Lent bytes that are filled from the front, and numbers in decimal digits put into them.
ghost use Rattle.std.specs.Prelude.{◌≡◌, ◌+◌, ◌≤◌, length};
ghost use Rattle.sheet_lines.specs.Decimal.{decimal, digits_room};
ghost use Rattle.sheet_lines.specs.Filled.{Filled};

use itoa::Buffer;
use storage_bytes::words::put_bytes;

// Lent bytes, and where the next ones go. Each function asks for its room there: that the place lies inside would not spare it.
#[derive(Drop)]
pub struct Sheet<'a> {
    pub out: &'a mut [u8],
    pub end: usize,
}

impl<'a> Sheet<'a> {
    pub fn put_text(&mut self, text: &[u8])
        requires { self.old.end + length text.now ≤ length self.old.out.now }
        ensures { Filled (length text.now) self.old text.now self.new }
    {
        put_bytes(&mut self.out[..], self.end, text);
        self.end += text.len();
    }

    // The digits of v, where there is room for any number.
    pub fn put_decimal(&mut self, v: u64)
        requires { self.old.end + digits_room ≤ length self.old.out.now }
        ensures { Filled digits_room self.old (decimal v) self.new }
    {
        let mut buffer = Buffer::new();
        let digits = buffer.format(v).as_bytes();
        self.put_text(digits);
    }
}
