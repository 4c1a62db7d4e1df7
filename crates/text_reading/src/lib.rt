// A list's text, read a line at a time: whole bytes straight to their place, every other character by value.
// The caller sees the ends of lines.
#![tactic(auto)]

mod characters;

ghost use Rattle.std.specs.Prelude.{◌≡◌, ◌+◌, ◌≤◌, length, drop};
ghost use Rattle.text_reading.specs.Reading.{pushed, joined, stored_by, with_held, feed, fed_line, line_length, heading_line, line_of, next_line, with_named, fresh_reader};

use text_heading::{Heading, HeadingFault, Named};

// What makes a line a bad one.
#[derive(Clone, Copy)]
pub enum Fault {
    // in the line that names the outputs
    InHeading(HeadingFault),
    // a character that is no hexadecimal digit
    NoDigit,
    // one digit where a byte has two
    HalfByte,
}

// What a line holds so far.
#[derive(Clone, Copy)]
pub enum Held {
    // nothing, or blanks
    Blank,
    Comment,
    // the line that names the outputs
    Naming(Heading),
    // whole bytes
    Whole,
    // a digit that waits for the second one of its byte
    Half(u8),
    // `-`, the empty string
    Dash,
    Spoilt(Fault),
}

// What a line is at its end.
#[derive(Clone, Copy)]
pub enum Line {
    Nothing,
    Started(Named),
    Frame,
    Wrong(Fault),
}

// How many bytes of a line's string are kept: one more than the longest frame has, so that they tell any
// longer string from a frame.
pub const BYTES_KEPT: usize = lighting_frames::LONGEST_FRAME + 1;

// The reader between two bytes: whether the list has named its outputs, the line's number, what it holds so
// far, and of its bytes the first ones.
// Stays: an array and a count (the panel's programs have no heap), and `named`, beside which no value stands.
#[derive(Clone, Copy)]
pub struct Reader {
    pub named: bool,
    pub line: u64,
    pub held: Held,
    pub bytes: [u8; BYTES_KEPT],
    pub count: usize,
}

// ---- the reader fed

#[tactic(auto, using(lighting_levels::proofs::Choosing::ifs), unfolding(crate::specs::Reading::pushed))]
fn push(w: Reader, x: u8) -> Reader
    ensures { result ≡ pushed w x }
{
    if w.count < BYTES_KEPT {
        let mut bytes = w.bytes;
        bytes[w.count] = x;
        Reader {
            bytes,
            count: w.count + 1,
            ..w
        }
    } else {
        w
    }
}

#[tactic(auto, unfolding(crate::specs::Reading::joined))]
fn join(w: Reader, d: u8, v: u8) -> Reader
    ensures { result ≡ joined w d v }
{
    push(w, text_characters::byte_pair(d, v))
}

#[tactic(auto, unfolding(crate::specs::Reading::stored_by, crate::specs::Reading::joined_by))]
fn store(w: Reader, h: Held, v: Option<u8>) -> Reader
    ensures { result ≡ stored_by w h v }
{
    match h {
        Held::Half(d) => match v {
            Some(v) => join(w, d, v),
            None => w,
        },
        Held::Blank
        | Held::Comment
        | Held::Naming(_)
        | Held::Whole
        | Held::Dash
        | Held::Spoilt(_) => w,
    }
}

#[tactic(auto, unfolding(crate::specs::Reading::with_held))]
fn with_held(w: Reader, held: Held) -> Reader
    ensures { result ≡ with_held w held }
{
    Reader { held, ..w }
}

#[tactic(auto, unfolding(crate::specs::Reading::feed))]
fn feed(w: Reader, c: u8) -> Reader
    ensures { result ≡ feed w c }
{
    let v = text_characters::hex_value(c);
    with_held(store(w, w.held, v), characters::step(w.named, w.held, v, c))
}

// The reader after the rest of a line, as far as the bytes go, and where that ends: at a newline, or at the
// end of the bytes.
#[derive(Clone, Copy)]
pub struct Fed {
    pub reader: Reader,
    pub next: usize,
}

// As many whole bytes as stand from `from` on, with the blanks between them, where a byte may begin: each
// goes straight to its place, and the reader is made once, after the last. What comes to the same reader at
// the line's end is left.
fn feed_bytes(w: Reader, s: &[u8], from: usize) -> Fed
    requires { from ≤ length s.now }
    ensures s_value { fed_line result.reader (drop result.next s.now) ≡ fed_line w (drop from s.now) }
    ensures s_value_2 { result.next + line_length (drop result.next s.now) ≡ from + line_length (drop from s.now) }
    ensures from_le_next { (from ≤ result.next) × (result.next ≤ length s.now) }
{
    // Stays: a turn takes one character or two, and the place where the run ends is handed back, so that no
    // `for` over the bytes and no iterator is plainer.
    let mut held = w.held;
    let mut bytes = w.bytes;
    let mut count = w.count;
    let mut i = from;
    if characters::may_begin(w.named, held) {
        while i < s.len() {
            let c = s[i];
            if let Some(d) = text_characters::hex_value(c) {
                if BYTES_KEPT <= count || s.len() <= i + 1 {
                    break;
                }
                let Some(v) = text_characters::hex_value(s[i + 1]) else {
                    break;
                };
                bytes[count] = text_characters::byte_pair(d, v);
                count += 1;
                held = Held::Whole;
                i += 2;
            } else if text_characters::is_blank(c) {
                i += 1;
            } else {
                break;
            }
        }
    }
    Fed {
        reader: Reader {
            held,
            bytes,
            count,
            ..w
        },
        next: i,
    }
}

// Stays: a turn takes as much as `feed_bytes` took and one character more, so that no `for` is plainer.
pub fn feed_line(w: Reader, s: &[u8], from: usize) -> Fed
    requires { from ≤ length s.now }
    ensures reader_value { result.reader ≡ fed_line w (drop from s.now) }
    ensures next_value { result.next ≡ from + line_length (drop from s.now) }
{
    let mut reader = w;
    let mut i = from;
    while i < s.len() {
        let run = feed_bytes(reader, s, i);
        reader = run.reader;
        i = run.next;
        if i < s.len() {
            let c = s[i];
            if c == b'\n' {
                break;
            }
            reader = feed(reader, c);
            i += 1;
        }
    }
    Fed { reader, next: i }
}

// ---- a line's end

#[tactic(auto, unfolding(crate::specs::Reading::heading_line))]
fn heading_line(named: Result<Named, HeadingFault>) -> Line
    ensures { result ≡ heading_line named }
{
    match named {
        Ok(named) => Line::Started(named),
        Err(f) => Line::Wrong(Fault::InHeading(f)),
    }
}

#[tactic(auto, unfolding(crate::specs::Reading::line_of))]
pub fn line_of(h: Held) -> Line
    ensures { result ≡ line_of h }
{
    match h {
        Held::Blank | Held::Comment => Line::Nothing,
        Held::Naming(n) => heading_line(text_heading::ended(n)),
        Held::Whole | Held::Dash => Line::Frame,
        Held::Half(_) => Line::Wrong(Fault::HalfByte),
        Held::Spoilt(f) => Line::Wrong(f),
    }
}

#[tactic(auto, unfolding(crate::specs::Reading::next_line))]
pub fn next_line(w: Reader) -> Reader
    ensures { result ≡ next_line w }
{
    Reader {
        line: w.line.saturating_add(1),
        held: Held::Blank,
        count: 0,
        ..w
    }
}

// The reader of a list that has named its outputs.
#[tactic(auto, unfolding(crate::specs::Reading::with_named))]
pub fn with_named(w: Reader) -> Reader
    ensures { result ≡ with_named w }
{
    Reader { named: true, ..w }
}

// Before the first byte of a list.
#[tactic(auto, unfolding(crate::specs::Reading::fresh_reader))]
pub fn fresh_reader() -> Reader
    ensures { result ≡ fresh_reader }
{
    Reader {
        named: false,
        line: 1,
        held: Held::Blank,
        bytes: [0; BYTES_KEPT],
        count: 0,
    }
}
