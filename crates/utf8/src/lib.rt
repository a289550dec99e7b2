// Whether a byte string is well-formed UTF-8, by RFC 3629, section 4.
// The functions `utf8_..` are named after the rules of its ABNF, and take octets.
#![tactic(auto)]

ghost use Rattle.std.specs.Prelude.{◌≡◌, ◌≢◌, ◌&&◌, ◌<◌, Some, length, unwrap_or};
ghost use Rattle.utf8.specs.Rfc3629.{range, utf8_tail, utf8_1, utf8_2, utf8_3, utf8_4, well_formed};
ghost use Rattle.utf8.specs.Properties.{ascii};
ghost use Rattle.utf8.specs.Front.{Front};

// %xLO-HI
fn range(lo: u8, hi: u8, a: u8) -> bool
    ensures { result ≡ range lo hi a }
{
    (lo..=hi).contains(&a)
}

fn utf8_tail(a: u8) -> bool
    ensures { result ≡ utf8_tail a }
{
    range(0x80, 0xBF, a)
}

fn utf8_1(a: u8) -> bool
    ensures { result ≡ utf8_1 a }
{
    range(0x00, 0x7F, a)
}

#[tactic(auto, unfolding(crate::specs::Rfc3629::utf8_2))]
fn utf8_2(a: u8, b: u8) -> bool
    ensures { result ≡ utf8_2 a b }
{
    range(0xC2, 0xDF, a) && utf8_tail(b)
}

// An alternative of UTF8-3 or UTF8-4: the bounds of its first two octets, and its tails.
fn two(al: u8, ah: u8, bl: u8, bh: u8, a: u8, b: u8) -> bool
    ensures { result ≡ (range al ah a && range bl bh b) }
{
    range(al, ah, a) && range(bl, bh, b)
}

fn three(al: u8, ah: u8, bl: u8, bh: u8, a: u8, b: u8, c: u8) -> bool
    ensures { result ≡ (range al ah a && range bl bh b && utf8_tail c) }
{
    two(al, ah, bl, bh, a, b) && utf8_tail(c)
}

fn four(al: u8, ah: u8, bl: u8, bh: u8, a: u8, b: u8, c: u8, d: u8) -> bool
    ensures { result ≡ (range al ah a && range bl bh b && utf8_tail c && utf8_tail d) }
{
    three(al, ah, bl, bh, a, b, c) && utf8_tail(d)
}

#[tactic(auto, unfolding(crate::specs::Rfc3629::utf8_3))]
fn utf8_3(a: u8, b: u8, c: u8) -> bool
    ensures { result ≡ utf8_3 a b c }
{
    three(0xE0, 0xE0, 0xA0, 0xBF, a, b, c)
        || three(0xE1, 0xEC, 0x80, 0xBF, a, b, c)
        || three(0xED, 0xED, 0x80, 0x9F, a, b, c)
        || three(0xEE, 0xEF, 0x80, 0xBF, a, b, c)
}

#[tactic(auto, unfolding(crate::specs::Rfc3629::utf8_4))]
fn utf8_4(a: u8, b: u8, c: u8, d: u8) -> bool
    ensures { result ≡ utf8_4 a b c d }
{
    four(0xF0, 0xF0, 0x90, 0xBF, a, b, c, d)
        || four(0xF1, 0xF3, 0x80, 0xBF, a, b, c, d)
        || four(0xF4, 0xF4, 0x80, 0x8F, a, b, c, d)
}

// How many octets the character has that t begins with, if it begins with one.
#[tactic(auto, using(crate::proofs::Fronts::front_1, crate::proofs::Fronts::front_2, crate::proofs::Fronts::front_3, crate::proofs::Fronts::front_4, crate::proofs::Fronts::front_0))]
fn char_len(t: &[u8]) -> Option<usize>
    requires { 0 < length t.now }
    ensures { Front t.now (unwrap_or result 0) × (result ≢ Some 0) }
{
    match *t {
        [a, ..] if utf8_1(a) => Some(1),
        [a, b, ..] if utf8_2(a, b) => Some(2),
        [a, b, c, ..] if utf8_3(a, b, c) => Some(3),
        [a, b, c, d, ..] if utf8_4(a, b, c, d) => Some(4),
        _ => None,
    }
}

// Whether s is of octets 00 to 7F alone, as most names are. There is no way out of the loop, so that it is compiled to take many octets at a time.
fn is_ascii(s: &[u8]) -> bool
    ensures { result ≡ ascii s.now }
{
    let mut all = 0u8;
    for octet in s {
        all |= *octet;
    }
    utf8_1(all)
}

// Whether s is well formed: UTF8-octets, one character after another.
pub fn well_formed(s: &[u8]) -> bool
    ensures { result ≡ well_formed s.now }
{
    if is_ascii(s) {
        return true;
    }
    let mut rest = s;
    while !rest.is_empty() {
        let Some(n) = char_len(rest) else {
            return false;
        };
        rest = &rest[n..];
    }
    true
}
