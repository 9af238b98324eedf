//! The names of the registers of MIPS.

ghost use Rattle.std.specs.Prelude.{◌≡◌};
ghost use Rattle.std.specs.Option.{option_map};
ghost use Rattle.pdb_records.specs.NameRows.{name_in};
ghost use Rattle.pdb_records.specs.RegistersMips.{mips_name, mips_rows_1, mips_rows_2, mips_rows_3};

// The name of a register of MIPS: `CV_HREG_e` of `cvconst.h`.
pub(crate) fn mips_register(number: u16) -> Option<&'static str>
    ensures { option_map (λ s. s.now) result ≡ mips_name number }
{
    match number {
        0..40 => mips_1(number),
        40..84 => mips_2(number),
        _ => mips_3(number),
    }
}

// From 10 to 39.
fn mips_1(number: u16) -> Option<&'static str>
    ensures { option_map (λ s. s.now) result ≡ name_in mips_rows_1 number }
{
    match number {
        10 => Some("zero"),
        11 => Some("at"),
        12 => Some("v0"),
        13 => Some("v1"),
        14 => Some("a0"),
        15 => Some("a1"),
        16 => Some("a2"),
        17 => Some("a3"),
        18 => Some("t0"),
        19 => Some("t1"),
        20 => Some("t2"),
        21 => Some("t3"),
        22 => Some("t4"),
        23 => Some("t5"),
        24 => Some("t6"),
        25 => Some("t7"),
        26 => Some("s0"),
        27 => Some("s1"),
        28 => Some("s2"),
        29 => Some("s3"),
        30 => Some("s4"),
        31 => Some("s5"),
        32 => Some("s6"),
        33 => Some("s7"),
        34 => Some("t8"),
        35 => Some("t9"),
        36 => Some("k0"),
        37 => Some("k1"),
        38 => Some("gp"),
        39 => Some("sp"),
        _ => None,
    }
}

// From 40 to 83.
fn mips_2(number: u16) -> Option<&'static str>
    ensures { option_map (λ s. s.now) result ≡ name_in mips_rows_2 number }
{
    match number {
        40 => Some("s8"),
        41 => Some("ra"),
        42 => Some("lo"),
        43 => Some("hi"),
        50 => Some("fir"),
        51 => Some("psr"),
        60 => Some("f0"),
        61 => Some("f1"),
        62 => Some("f2"),
        63 => Some("f3"),
        64 => Some("f4"),
        65 => Some("f5"),
        66 => Some("f6"),
        67 => Some("f7"),
        68 => Some("f8"),
        69 => Some("f9"),
        70 => Some("f10"),
        71 => Some("f11"),
        72 => Some("f12"),
        73 => Some("f13"),
        74 => Some("f14"),
        75 => Some("f15"),
        76 => Some("f16"),
        77 => Some("f17"),
        78 => Some("f18"),
        79 => Some("f19"),
        80 => Some("f20"),
        81 => Some("f21"),
        82 => Some("f22"),
        83 => Some("f23"),
        _ => None,
    }
}

// From 84 to 92.
fn mips_3(number: u16) -> Option<&'static str>
    ensures { option_map (λ s. s.now) result ≡ name_in mips_rows_3 number }
{
    match number {
        84 => Some("f24"),
        85 => Some("f25"),
        86 => Some("f26"),
        87 => Some("f27"),
        88 => Some("f28"),
        89 => Some("f29"),
        90 => Some("f30"),
        91 => Some("f31"),
        92 => Some("fsr"),
        _ => None,
    }
}
