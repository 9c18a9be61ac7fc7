// Hexadecimal numbers at fixed places of a text, for programs that read recorded answers.
#![tactic(auto)]

ghost use Rattle.std.specs.Prelude.{◌≡◌};
ghost use Rattle.hex_text.specs.Hex.{hex_digit, hex_at};

// What the digit with this ASCII code counts, `0` to `9` and `a` to `f`, and none for every other byte.
#[tactic(auto, unfolding(crate::specs::Hex::hex_digit))]
pub fn digit(code: u8) -> Option<u64>
    ensures { result ≡ hex_digit code }
{
    match code {
        b'0'..=b'9' => Some(u64::from(code - b'0')),
        b'a'..=b'f' => Some(u64::from(code - b'a') + 10),
        _ => None,
    }
}

// The number of `count` digits at place `at` of the text, and none where there are more than 16, the text ends before it, or something
// else than a digit stands there.
pub fn hex_at(text: &[u8], at: usize, count: usize) -> Option<u64>
    ensures { result ≡ hex_at text.now at count }
{
    if 16 < count {
        return None;
    }
    let end = at.checked_add(count)?;
    let digits = text.get(at..end)?;
    let mut value: u64 = 0;
    for c in digits {
        let d = digit(*c)?;
        value = value * 16 + d;
    }
    Some(value)
}

// The number of 16 digits at place `at` of the text.
pub fn word_at(text: &[u8], at: usize) -> Option<u64>
    ensures { result ≡ hex_at text.now at 16 }
{
    hex_at(text, at, 16)
}
