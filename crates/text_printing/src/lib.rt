// Text written on a page: a lent stretch of bytes, of which the bytes before a mark are the text so far. Each
// method writes from the mark on and moves it; what comes past the page's end is not written, so that none
// asks for room.
#![tactic(auto, using(crate::proofs::Pages::texts))]

ghost use Rattle.std.specs.Prelude.{◌≡◌, ◌∷◌, [], ◌++◌, ◌+◌, ◌%◌, ◌-◌, ◌≤◌, ◌<◌, drop, take, length};
ghost use Rattle.text_printing.specs.Page.{Wrote};
ghost use Rattle.text_printing.specs.Writing.{hex_digit, hex2, hex8, hex_bytes, decimal, newline, value_word, refused_word, answer_line};

use lighting_outputs::Answer;

// A page: any stretch of bytes, and any mark in it or past it.
#[derive(Drop)]
pub struct Page<'a> {
    pub bytes: &'a mut [u8],
    pub mark: usize,
}

impl<'a> Page<'a> {
    // A page with nothing on it.
    pub fn new(bytes: &'a mut [u8]) -> Page<'a>
        ensures { result ≡ record { bytes = bytes.entry; mark = 0 } }
    {
        Page { bytes, mark: 0 }
    }

    // The text so far.
    pub fn text(&self) -> &[u8]
        ensures { result.now ≡ take self.now.mark self.now.bytes.now }
    {
        &self.bytes[..self.mark.min(self.bytes.len())]
    }

    // How many bytes are free.
    pub fn room(&self) -> usize
        ensures { result ≡ length self.now.bytes.now - self.now.mark }
    {
        self.bytes.len().saturating_sub(self.mark)
    }

    // To be written on from its start.
    pub fn clear(&mut self)
        ensures { self.new ≡ record self.old { mark = 0 } }
    {
        self.mark = 0;
    }

    // ---- bytes

    #[tactic(auto, using(crate::proofs::Pages::with_text_byte, crate::proofs::Pages::with_text_out))]
    pub fn put(&mut self, c: u8)
        ensures { Wrote self.old (c ∷ []) self.new }
    {
        if self.mark < self.bytes.len() {
            self.bytes[self.mark] = c;
            self.mark += 1;
        }
    }

    #[tactic(auto, using(crate::proofs::Pages::with_text_out))]
    pub fn put_all(&mut self, s: &[u8])
        ensures { Wrote self.old s.now self.new }
    {
        if self.mark < self.bytes.len() {
            let n = s.len().min(self.bytes.len() - self.mark);
            self.bytes[self.mark..self.mark + n].copy_from_slice(&s[..n]);
            self.mark += n;
        }
    }
}

// ---- numbers

#[tactic(auto, using(lighting_levels::proofs::Choosing::ifs), unfolding(crate::specs::Writing::hex_digit))]
fn hex_digit(d: u8) -> u8
    requires { d < 16 }
    ensures { result ≡ hex_digit d }
{
    if d < 10 { b'0' + d } else { b'A' - 10 + d }
}

pub fn last_digit(n: u64) -> u8
    ensures { result ≡ 48 + n % 10 }
{
    (48 + n % 10) as u8
}

impl<'a> Page<'a> {
    #[tactic(auto, using(crate::proofs::Pages::texts), unfolding(crate::specs::Writing::hex2))]
    fn put_hex2(&mut self, v: u8)
        ensures { Wrote self.old (hex2 v) self.new }
    {
        self.put(hex_digit(v / 16));
        self.put(hex_digit(v % 16));
    }

    #[tactic(auto, using(crate::proofs::Pages::texts, crate::proofs::Pages::hex_more), unfolding(crate::specs::Writing::hex_bytes))]
    pub fn put_hex_bytes(&mut self, s: &[u8])
        ensures { Wrote self.old (hex_bytes s.now) self.new }
    {
        for b in s {
            self.put_hex2(*b);
        }
    }

    #[tactic(auto, using(crate::proofs::Pages::hex_octets))]
    pub fn put_hex8(&mut self, v: u32)
        ensures { Wrote self.old (hex8 v) self.new }
    {
        self.put_hex_bytes(&v.to_be_bytes());
    }

    // The digits are found from the last one to the first.
    // Stays: the turns end by the number, and the place is where the digits begin: no `for` is plainer.
    #[tactic(auto, using(crate::proofs::Decimals::digit_start))]
    pub fn put_decimal(&mut self, n: u64)
        ensures { Wrote self.old (decimal n) self.new }
    {
        let mut bytes = [0u8; 20];
        let mut i: usize = 19;
        let mut rest = n;
        while 10 <= rest && 0 < i {
            bytes[i] = last_digit(rest);
            rest /= 10;
            i -= 1;
        }
        bytes[i] = last_digit(rest);
        self.put_all(&bytes[i..]);
    }

    // ---- answers

    fn put_value_line(&mut self, v: u32)
        ensures { Wrote self.old (value_word ++ (hex8 v ++ newline)) self.new }
    {
        self.put_all(b"Value ");
        self.put_hex8(v);
        self.put(b'\n');
    }

    fn put_refused_line(&mut self, n: u8)
        ensures { Wrote self.old (refused_word ++ (decimal n ++ newline)) self.new }
    {
        self.put_all(b"Refused ");
        self.put_decimal(u64::from(n));
        self.put(b'\n');
    }

    #[tactic(auto, unfolding(crate::specs::Writing::answer_line))]
    pub fn put_answer(&mut self, a: Answer)
        ensures { Wrote self.old (answer_line a) self.new }
    {
        match a {
            Answer::Done => self.put_all(b"Done\n"),
            Answer::Value(v) => self.put_value_line(v),
            Answer::Absent => self.put_all(b"Absent\n"),
            Answer::Refused(n) => self.put_refused_line(n),
        }
    }
}
