// The printing program's input (document 01, "Bench rows"): four lengths and four parts, words little-endian.
#![tactic(auto)]

ghost use Rattle.std.specs.Prelude.{◌≡◌, ◌+◌, ◌*◌, ◌^◌, ◌<◌, length};
ghost use Rattle.ptype.specs.Add.{overwrite};
ghost use Rattle.bench_rows.specs.Bench.{word_in, words_in, image_start, text_start, library_start, fits, inputs_in};

use slices::part;

// Words.

// The little-endian word at a byte.
#[tactic(auto, unfolding(bench_rows::specs::Bench::word_in, tok::specs::LittleEndian::little_endian))]
fn word(bytes: &[u8], at: usize) -> u32
    ensures { result ≡ word_in bytes.now at }
{
    tok::little_endian(bytes, at)
}

// Writes the k words from byte `at` on into the front of a buffer, as many as it has room for.
fn words(out: &mut [u32], bytes: &[u8], at: usize, k: usize)
    requires { at + 4 * k < 2 ^ 63 }
    ensures { out.new ≡ overwrite out.old (words_in bytes.now at k) }
{
    for i in 0..k.min(out.len()) {
        out[i] = word(bytes, at + 4 * i);
    }
}

// Lengths and places.

// How many words the image has.
pub fn image_length(bytes: &[u8]) -> usize
    ensures { result ≡ word_in bytes.now 4 }
{
    word(bytes, 4) as usize
}

// How many words the library has.
pub fn library_length(bytes: &[u8]) -> usize
    ensures { result ≡ word_in bytes.now 12 }
{
    word(bytes, 12) as usize
}

// Where the image begins: behind the lengths and the script.
fn image_start(bytes: &[u8]) -> usize
    ensures { (result ≡ image_start bytes.now) × (result < 2 ^ 33) }
{
    16 + word(bytes, 0) as usize
}

// Where the library text begins.
fn text_start(bytes: &[u8]) -> usize
    ensures { (result ≡ text_start bytes.now) × (result < 2 ^ 35) }
{
    image_start(bytes) + 4 * word(bytes, 4) as usize
}

// Where the library begins.
fn library_start(bytes: &[u8]) -> usize
    ensures { (result ≡ library_start bytes.now) × (result < 2 ^ 36) }
{
    text_start(bytes) + word(bytes, 8) as usize
}

// Whether the lengths use up the input, which is not too long.
#[tactic(auto, unfolding(bench_rows::specs::Bench::fits))]
pub fn fits(bytes: &[u8]) -> bool
    ensures { result ≡ fits bytes.now }
{
    let n = bytes.len();
    (16..=65_536).contains(&n) && library_start(bytes) + 4 * word(bytes, 12) as usize == n
}

// The four parts.

#[tactic(auto, unfolding(bench_rows::specs::Bench::inputs_in))]
pub fn script<'a>(bytes: &'a [u8]) -> &'a [u8]
    ensures { result.now ≡ (inputs_in bytes.now).script }
{
    part(bytes, 16, word(bytes, 0) as usize)
}

// Writes the image's words into the front of a buffer.
#[tactic(auto, unfolding(bench_rows::specs::Bench::inputs_in))]
pub fn image(out: &mut [u32], bytes: &[u8])
    ensures { out.new ≡ overwrite out.old (inputs_in bytes.now).image }
{
    words(out, bytes, image_start(bytes), word(bytes, 4) as usize);
}

#[tactic(auto, unfolding(bench_rows::specs::Bench::inputs_in))]
pub fn library_text<'a>(bytes: &'a [u8]) -> &'a [u8]
    ensures { result.now ≡ (inputs_in bytes.now).library_text }
{
    part(bytes, text_start(bytes), word(bytes, 8) as usize)
}

// Writes the library's words into the front of a buffer.
#[tactic(auto, unfolding(bench_rows::specs::Bench::inputs_in))]
pub fn library(out: &mut [u32], bytes: &[u8])
    ensures { out.new ≡ overwrite out.old (inputs_in bytes.now).library }
{
    words(out, bytes, library_start(bytes), word(bytes, 12) as usize);
}
