//! Digits of numbers, put behind what is there already.

ghost use Rattle.std.specs.Prelude.{◌≡◌, ◌+◌, ◌*◌, ◌/◌, ◌%◌, ◌^◌, ◌<◌, ◌≤◌, [], ◌∷◌, ◌++◌, codes, flat_map, length, vec_capacity, IsOk, OnErr, OnOk};
ghost use Rattle.std.specs.Fmt.{decimal};
ghost use Rattle.pdb_text.specs.Digits.{hex, hex_length, short_hex, four_digits};
ghost use Rattle.pdb_text.specs.Written.{PutFront};

use std::alloc::AllocError;

/// The two lower hex digits of each byte, the higher one in the lower byte.
static HEX_PAIRS: [u16; 256] = [
    0x3030, 0x3130, 0x3230, 0x3330, 0x3430, 0x3530, 0x3630, 0x3730, 0x3830, 0x3930, 0x6130, 0x6230,
    0x6330, 0x6430, 0x6530, 0x6630, 0x3031, 0x3131, 0x3231, 0x3331, 0x3431, 0x3531, 0x3631, 0x3731,
    0x3831, 0x3931, 0x6131, 0x6231, 0x6331, 0x6431, 0x6531, 0x6631, 0x3032, 0x3132, 0x3232, 0x3332,
    0x3432, 0x3532, 0x3632, 0x3732, 0x3832, 0x3932, 0x6132, 0x6232, 0x6332, 0x6432, 0x6532, 0x6632,
    0x3033, 0x3133, 0x3233, 0x3333, 0x3433, 0x3533, 0x3633, 0x3733, 0x3833, 0x3933, 0x6133, 0x6233,
    0x6333, 0x6433, 0x6533, 0x6633, 0x3034, 0x3134, 0x3234, 0x3334, 0x3434, 0x3534, 0x3634, 0x3734,
    0x3834, 0x3934, 0x6134, 0x6234, 0x6334, 0x6434, 0x6534, 0x6634, 0x3035, 0x3135, 0x3235, 0x3335,
    0x3435, 0x3535, 0x3635, 0x3735, 0x3835, 0x3935, 0x6135, 0x6235, 0x6335, 0x6435, 0x6535, 0x6635,
    0x3036, 0x3136, 0x3236, 0x3336, 0x3436, 0x3536, 0x3636, 0x3736, 0x3836, 0x3936, 0x6136, 0x6236,
    0x6336, 0x6436, 0x6536, 0x6636, 0x3037, 0x3137, 0x3237, 0x3337, 0x3437, 0x3537, 0x3637, 0x3737,
    0x3837, 0x3937, 0x6137, 0x6237, 0x6337, 0x6437, 0x6537, 0x6637, 0x3038, 0x3138, 0x3238, 0x3338,
    0x3438, 0x3538, 0x3638, 0x3738, 0x3838, 0x3938, 0x6138, 0x6238, 0x6338, 0x6438, 0x6538, 0x6638,
    0x3039, 0x3139, 0x3239, 0x3339, 0x3439, 0x3539, 0x3639, 0x3739, 0x3839, 0x3939, 0x6139, 0x6239,
    0x6339, 0x6439, 0x6539, 0x6639, 0x3061, 0x3161, 0x3261, 0x3361, 0x3461, 0x3561, 0x3661, 0x3761,
    0x3861, 0x3961, 0x6161, 0x6261, 0x6361, 0x6461, 0x6561, 0x6661, 0x3062, 0x3162, 0x3262, 0x3362,
    0x3462, 0x3562, 0x3662, 0x3762, 0x3862, 0x3962, 0x6162, 0x6262, 0x6362, 0x6462, 0x6562, 0x6662,
    0x3063, 0x3163, 0x3263, 0x3363, 0x3463, 0x3563, 0x3663, 0x3763, 0x3863, 0x3963, 0x6163, 0x6263,
    0x6363, 0x6463, 0x6563, 0x6663, 0x3064, 0x3164, 0x3264, 0x3364, 0x3464, 0x3564, 0x3664, 0x3764,
    0x3864, 0x3964, 0x6164, 0x6264, 0x6364, 0x6464, 0x6564, 0x6664, 0x3065, 0x3165, 0x3265, 0x3365,
    0x3465, 0x3565, 0x3665, 0x3765, 0x3865, 0x3965, 0x6165, 0x6265, 0x6365, 0x6465, 0x6565, 0x6665,
    0x3066, 0x3166, 0x3266, 0x3366, 0x3466, 0x3566, 0x3666, 0x3766, 0x3866, 0x3966, 0x6166, 0x6266,
    0x6366, 0x6466, 0x6566, 0x6666,
];

/// The two decimal digits of each number below 100, the higher one in the lower byte.
static DECIMAL_PAIRS: [u16; 100] = [
    0x3030, 0x3130, 0x3230, 0x3330, 0x3430, 0x3530, 0x3630, 0x3730, 0x3830, 0x3930, 0x3031, 0x3131,
    0x3231, 0x3331, 0x3431, 0x3531, 0x3631, 0x3731, 0x3831, 0x3931, 0x3032, 0x3132, 0x3232, 0x3332,
    0x3432, 0x3532, 0x3632, 0x3732, 0x3832, 0x3932, 0x3033, 0x3133, 0x3233, 0x3333, 0x3433, 0x3533,
    0x3633, 0x3733, 0x3833, 0x3933, 0x3034, 0x3134, 0x3234, 0x3334, 0x3434, 0x3534, 0x3634, 0x3734,
    0x3834, 0x3934, 0x3035, 0x3135, 0x3235, 0x3335, 0x3435, 0x3535, 0x3635, 0x3735, 0x3835, 0x3935,
    0x3036, 0x3136, 0x3236, 0x3336, 0x3436, 0x3536, 0x3636, 0x3736, 0x3836, 0x3936, 0x3037, 0x3137,
    0x3237, 0x3337, 0x3437, 0x3537, 0x3637, 0x3737, 0x3837, 0x3937, 0x3038, 0x3138, 0x3238, 0x3338,
    0x3438, 0x3538, 0x3638, 0x3738, 0x3838, 0x3938, 0x3039, 0x3139, 0x3239, 0x3339, 0x3439, 0x3539,
    0x3639, 0x3739, 0x3839, 0x3939,
];

/// Two lower hex digits of a number below 256.
#[inline(always)]
fn hex2(n: u32) -> [u8; 2]
    requires { n < 256 }
    ensures { result ≡ hex 2 n }
{
    HEX_PAIRS[n as usize].to_le_bytes()
}

/// Four lower hex digits.
#[inline(always)]
#[tactic(auto, unfolding(crate::specs::Digits::hex))]
pub fn hex4(n: u16) -> [u8; 4]
    ensures { result ≡ hex 4 n }
{
    let n = u32::from(n);
    let high = hex2(n >> 8);
    let low = hex2(n % 256);
    [high[0], high[1], low[0], low[1]]
}

/// Eight lower hex digits.
#[inline(always)]
pub fn hex8(n: u32) -> [u8; 8]
    ensures { result ≡ hex 8 n }
{
    let a = hex2(n >> 24);
    let b = hex2((n >> 16) % 256);
    let c = hex2((n >> 8) % 256);
    let d = hex2(n % 256);
    [a[0], a[1], b[0], b[1], c[0], c[1], d[0], d[1]]
}

/// The byte in two lower hex digits.
pub fn put_hex2(out: &mut Vec<u8>, n: u8) -> Result<(), AllocError>
    ensures ok { OnOk result (out.new.items ≡ out.old.items ++ hex 2 n) }
    ensures err { OnErr result (out.new.items ≡ out.old.items) }
    ensures capacity { vec_capacity out.old ≤ vec_capacity out.new }
    ensures fits { length out.old.items + 2 ≤ vec_capacity out.old → IsOk result }
{
    out.extend_from_slice(&hex2(u32::from(n)))
}

/// The number in four lower hex digits.
pub fn put_hex4(out: &mut Vec<u8>, n: u16) -> Result<(), AllocError>
    ensures ok { OnOk result (out.new.items ≡ out.old.items ++ hex 4 n) }
    ensures err { OnErr result (out.new.items ≡ out.old.items) }
{
    out.extend_from_slice(&hex4(n))
}

/// The number in eight lower hex digits.
pub fn put_hex8(out: &mut Vec<u8>, n: u32) -> Result<(), AllocError>
    ensures ok { OnOk result (out.new.items ≡ out.old.items ++ hex 8 n) }
    ensures err { OnErr result (out.new.items ≡ out.old.items) }
{
    out.extend_from_slice(&hex8(n))
}

/// How many hex digits a number has.
fn hex_length(n: u32) -> usize
    ensures length { result ≡ hex_length n }
    ensures most { result ≤ 8 }
{
    match n {
        0..=0xf => 1,
        0x10..=0xff => 2,
        0x100..=0xfff => 3,
        0x1000..=0xffff => 4,
        0x1_0000..=0xf_ffff => 5,
        0x10_0000..=0xff_ffff => 6,
        0x100_0000..=0xfff_ffff => 7,
        _ => 8,
    }
}

/// The number in lower hex digits, without zeros in front.
#[tactic(auto, using(crate::proofs::Pairs::last_digits))]
pub fn put_short_hex(out: &mut Vec<u8>, n: u32) -> Result<(), AllocError>
    ensures ok { OnOk result (out.new.items ≡ out.old.items ++ short_hex n) }
    ensures err { OnErr result (out.new.items ≡ out.old.items) }
{
    let digits = hex8(n);
    out.extend_from_slice(&digits[8 - hex_length(n)..])
}

/// The two decimal digits of a number below 100.
#[inline(always)]
fn pair(n: u64) -> [u8; 2]
    requires { n < 100 }
    ensures { result ≡ (48 + n / 10) ∷ (48 + n % 10) ∷ [] }
{
    DECIMAL_PAIRS[n as usize].to_le_bytes()
}

/// The last two decimal digits of a number.
#[inline(always)]
pub fn decimal2(n: u64) -> [u8; 2]
    ensures { result ≡ (48 + n % 100 / 10) ∷ (48 + n % 100 % 10) ∷ [] }
{
    pair(n % 100)
}

/// The four decimal digits of a number below 10000, with zeros.
#[inline(always)]
fn decimal4(n: u64) -> [u8; 4]
    requires { n < 10000 }
    ensures { result ≡ four_digits n }
{
    let high = pair(n / 100);
    let low = pair(n % 100);
    [high[0], high[1], low[0], low[1]]
}

/// A number below 10000 in decimal digits.
#[inline(always)]
#[tactic(auto, using(std::proofs::lemmas::Fmt::decimal_digit, crate::proofs::Pairs::decimal_two, crate::proofs::Pairs::decimal_three, crate::proofs::Pairs::decimal_of_four))]
fn put_short_decimal(out: &mut Vec<u8>, n: u64) -> Result<(), AllocError>
    requires { n < 10000 }
    ensures ok { OnOk result (out.new.items ≡ out.old.items ++ decimal n) }
    ensures err { OnErr result (out.new.items ≡ out.old.items) }
{
    if n < 10 {
        out.push(b'0' + n as u8)?;
        return Ok(());
    }
    if n < 100 {
        return out.extend_from_slice(&pair(n));
    }
    if n < 1000 {
        let low = pair(n % 100);
        return out.extend_from_slice(&[b'0' + (n / 100) as u8, low[0], low[1]]);
    }
    out.extend_from_slice(&decimal4(n))
}

/// A number in decimal digits, its last four apart.
#[tactic(auto, using(crate::proofs::Fronts::number_whole, crate::proofs::Fronts::number_first, crate::proofs::Fronts::number_piece))]
fn put_long_decimal(out: &mut Vec<u8>, n: u64) -> Result<(), AllocError>
    ensures ok { OnOk result (out.new.items ≡ out.old.items ++ decimal n) }
    ensures err { OnErr result (PutFront out.old.items out.new.items (decimal n)) }
{
    if n < 10000 {
        return put_short_decimal(out, n);
    }
    put_long_decimal(out, n / 10000)?;
    out.extend_from_slice(&decimal4(n % 10000))?;
    Ok(())
}

/// The number in decimal digits.
#[inline]
pub fn put_decimal(out: &mut Vec<u8>, n: u64) -> Result<(), AllocError>
    ensures ok { OnOk result (out.new.items ≡ out.old.items ++ decimal n) }
    ensures err { OnErr result (PutFront out.old.items out.new.items (decimal n)) }
{
    if n < 10000 {
        return put_short_decimal(out, n);
    }
    put_long_decimal(out, n)
}

/// A space, and a number below 10000 in decimal digits.
#[inline(always)]
#[tactic(auto, using(std::proofs::lemmas::Fmt::decimal_digit, crate::proofs::Pairs::decimal_two, crate::proofs::Pairs::decimal_three, crate::proofs::Pairs::decimal_of_four))]
fn put_short_field(out: &mut Vec<u8>, n: u64) -> Result<(), AllocError>
    requires { n < 10000 }
    ensures ok { OnOk result (out.new.items ≡ out.old.items ++ (codes " " ++ decimal n)) }
    ensures err { OnErr result (out.new.items ≡ out.old.items) }
{
    if n < 10 {
        return out.extend_from_slice(&[b' ', b'0' + n as u8]);
    }
    if n < 100 {
        let low = pair(n);
        return out.extend_from_slice(&[b' ', low[0], low[1]]);
    }
    if n < 1000 {
        let low = pair(n % 100);
        return out.extend_from_slice(&[b' ', b'0' + (n / 100) as u8, low[0], low[1]]);
    }
    let d = decimal4(n);
    out.extend_from_slice(&[b' ', d[0], d[1], d[2], d[3]])
}

/// A space, and the number in decimal digits.
#[inline]
#[tactic(auto, using(crate::proofs::Fronts::field_whole, crate::proofs::Fronts::field_piece, crate::proofs::Fronts::field_next))]
pub fn put_field(out: &mut Vec<u8>, n: u64) -> Result<(), AllocError>
    ensures ok { OnOk result (out.new.items ≡ out.old.items ++ (codes " " ++ decimal n)) }
    ensures err { OnErr result (PutFront out.old.items out.new.items (codes " " ++ decimal n)) }
{
    if n < 10000 {
        return put_short_field(out, n);
    }
    if n < 100_000_000 {
        put_short_field(out, n / 10000)?;
        out.extend_from_slice(&decimal4(n % 10000))?;
        return Ok(());
    }
    out.push(b' ')?;
    put_long_decimal(out, n)
}

/// The end of a line.
pub fn put_line_end(out: &mut Vec<u8>) -> Result<(), AllocError>
    ensures ok { OnOk result (out.new.items ≡ out.old.items ++ codes "\n") }
    ensures err { OnErr result (out.new.items ≡ out.old.items) }
{
    out.push(b'\n')?;
    Ok(())
}

/// The bytes in two hex digits each.
#[tactic(auto, unfolding(crate::specs::Digits::hex), using(crate::proofs::Fronts::front_digits))]
pub fn put_hex_bytes(out: &mut Vec<u8>, bytes: &[u8]) -> Result<(), AllocError>
    ensures ok { OnOk result (out.new.items ≡ out.old.items ++ flat_map (hex 2) bytes.now) }
    ensures err { OnErr result (PutFront out.old.items out.new.items (flat_map (hex 2) bytes.now)) }
    ensures fits { length out.old.items + 2 * length bytes.now ≤ vec_capacity out.old → IsOk result }
{
    for byte in bytes {
        put_hex2(out, *byte)?;
    }
    Ok(())
}

/// A space and eight lower hex digits.
#[inline(always)]
#[tactic(auto, unfolding(crate::specs::Digits::hex))]
pub fn hex8_field(n: u32) -> [u8; 9]
    ensures { result ≡ codes " " ++ hex 8 n }
{
    let h = hex8(n);
    [b' ', h[0], h[1], h[2], h[3], h[4], h[5], h[6], h[7]]
}
