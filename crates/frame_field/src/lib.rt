// Bytes, big-endian numbers and parts out of a frame. Past the end of the frame every byte is 0, and a part
// has what is there, so that a field can be read before the length is judged.
#![tactic(auto)]

ghost use Rattle.std.specs.Prelude.{◌≡◌, ◌<◌, ◌≤◌, ◌^◌, take, drop};
ghost use Rattle.lighting_levels.specs.Paper.Field.{byte_at, big_endian};

#[tactic(auto, unfolding(lighting_levels::specs::Paper::Field::byte_at))]
pub fn byte_at(s: &[u8], at: usize) -> u8
    ensures { result ≡ byte_at s.now at }
{
    s.get(at).copied().unwrap_or(0)
}

// The number in the N bytes from `at` on, the first the most significant. A place that a usize does not hold
// is past the end of any slice, and so is the last place.
fn big_endian<const N: usize>(s: &[u8], at: usize) -> u64
    requires { N ≤ 7 }
    ensures { (result ≡ big_endian N s.now at) × (result < 256 ^ N) }
{
    let mut n: u64 = 0;
    for i in 0..N {
        n = n * 256 + u64::from(byte_at(s, at.saturating_add(i)));
    }
    n
}

pub fn word32_at(s: &[u8], at: usize) -> u32
    ensures { result ≡ big_endian 4 s.now at }
{
    big_endian::<4>(s, at) as u32
}

pub fn word48_at(s: &[u8], at: usize) -> u64
    ensures { (result ≡ big_endian 6 s.now at) × (result < 281474976710656) }
{
    big_endian::<6>(s, at)
}

// The bytes from `at` on, and the first `n`.
pub fn from_on(s: &[u8], at: usize) -> &[u8]
    ensures { result.now ≡ drop at s.now }
{
    &s[at.min(s.len())..]
}

pub fn first(s: &[u8], n: usize) -> &[u8]
    ensures { result.now ≡ take n s.now }
{
    &s[..n.min(s.len())]
}
