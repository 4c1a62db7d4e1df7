// The characters of a list: blanks and hexadecimal digits.
#![tactic(auto)]

ghost use Rattle.std.specs.Prelude.{◌≡◌};
ghost use Rattle.text_characters.specs.Characters.{is_blank, hex_value, byte_pair};

// A blank, a tab, or the carriage return before a newline.
#[tactic(auto, using(lighting_levels::proofs::Choosing::ifs), unfolding(crate::specs::Characters::is_blank))]
pub fn is_blank(c: u8) -> bool
    ensures { result ≡ is_blank c }
{
    c == b' ' || c == b'\t' || c == b'\r'
}

// What a hexadecimal digit of either case is worth; any other character is none.
#[tactic(auto, using(lighting_levels::proofs::Choosing::ifs), unfolding(crate::specs::Characters::hex_value))]
pub fn hex_value(c: u8) -> Option<u8>
    ensures { result ≡ hex_value c }
{
    match c {
        b'0'..=b'9' => Some(c - b'0'),
        b'A'..=b'F' => Some(c - b'A' + 10),
        b'a'..=b'f' => Some(c - b'a' + 10),
        _ => None,
    }
}

// The byte of two digits.
#[tactic(auto, unfolding(crate::specs::Characters::byte_pair))]
pub fn byte_pair(d: u8, v: u8) -> u8
    ensures { result ≡ byte_pair d v }
{
    d % 16 * 16 + v % 16
}
