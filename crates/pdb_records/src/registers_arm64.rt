//! The names of the registers of ARM64.

ghost use Rattle.std.specs.Prelude.{◌≡◌};
ghost use Rattle.std.specs.Option.{option_map};
ghost use Rattle.pdb_records.specs.NameRows.{name_in};
ghost use Rattle.pdb_records.specs.RegistersArm64.{arm64_name, arm64_rows_1, arm64_rows_2, arm64_rows_3, arm64_rows_4, arm64_rows_5, arm64_rows_6, arm64_rows_7, arm64_rows_8};

// The name of a register of ARM64: `CV_HREG_e` of `cvconst.h`.
pub(crate) fn arm64_register(number: u16) -> Option<&'static str>
    ensures { option_map (λ s. s.now) result ≡ arm64_name number }
{
    match number {
        0..40 => arm64_1(number),
        40..78 => arm64_2(number),
        78..124 => arm64_3(number),
        124..162 => arm64_4(number),
        162..200 => arm64_5(number),
        200..246 => arm64_6(number),
        246..284 => arm64_7(number),
        _ => arm64_8(number),
    }
}

// From 10 to 39.
fn arm64_1(number: u16) -> Option<&'static str>
    ensures { option_map (λ s. s.now) result ≡ name_in arm64_rows_1 number }
{
    match number {
        10 => Some("w0"),
        11 => Some("w1"),
        12 => Some("w2"),
        13 => Some("w3"),
        14 => Some("w4"),
        15 => Some("w5"),
        16 => Some("w6"),
        17 => Some("w7"),
        18 => Some("w8"),
        19 => Some("w9"),
        20 => Some("w10"),
        21 => Some("w11"),
        22 => Some("w12"),
        23 => Some("w13"),
        24 => Some("w14"),
        25 => Some("w15"),
        26 => Some("w16"),
        27 => Some("w17"),
        28 => Some("w18"),
        29 => Some("w19"),
        30 => Some("w20"),
        31 => Some("w21"),
        32 => Some("w22"),
        33 => Some("w23"),
        34 => Some("w24"),
        35 => Some("w25"),
        36 => Some("w26"),
        37 => Some("w27"),
        38 => Some("w28"),
        39 => Some("w29"),
        _ => None,
    }
}

// From 40 to 77.
fn arm64_2(number: u16) -> Option<&'static str>
    ensures { option_map (λ s. s.now) result ≡ name_in arm64_rows_2 number }
{
    match number {
        40 => Some("w30"),
        41 => Some("wzr"),
        50 => Some("x0"),
        51 => Some("x1"),
        52 => Some("x2"),
        53 => Some("x3"),
        54 => Some("x4"),
        55 => Some("x5"),
        56 => Some("x6"),
        57 => Some("x7"),
        58 => Some("x8"),
        59 => Some("x9"),
        60 => Some("x10"),
        61 => Some("x11"),
        62 => Some("x12"),
        63 => Some("x13"),
        64 => Some("x14"),
        65 => Some("x15"),
        66 => Some("x16"),
        67 => Some("x17"),
        68 => Some("x18"),
        69 => Some("x19"),
        70 => Some("x20"),
        71 => Some("x21"),
        72 => Some("x22"),
        73 => Some("x23"),
        74 => Some("x24"),
        75 => Some("x25"),
        76 => Some("x26"),
        77 => Some("x27"),
        _ => None,
    }
}

// From 78 to 123.
fn arm64_3(number: u16) -> Option<&'static str>
    ensures { option_map (λ s. s.now) result ≡ name_in arm64_rows_3 number }
{
    match number {
        78 => Some("x28"),
        79 => Some("fp"),
        80 => Some("lr"),
        81 => Some("sp"),
        82 => Some("zr"),
        90 => Some("nzcv"),
        100 => Some("s0"),
        101 => Some("s1"),
        102 => Some("s2"),
        103 => Some("s3"),
        104 => Some("s4"),
        105 => Some("s5"),
        106 => Some("s6"),
        107 => Some("s7"),
        108 => Some("s8"),
        109 => Some("s9"),
        110 => Some("s10"),
        111 => Some("s11"),
        112 => Some("s12"),
        113 => Some("s13"),
        114 => Some("s14"),
        115 => Some("s15"),
        116 => Some("s16"),
        117 => Some("s17"),
        118 => Some("s18"),
        119 => Some("s19"),
        120 => Some("s20"),
        121 => Some("s21"),
        122 => Some("s22"),
        123 => Some("s23"),
        _ => None,
    }
}

// From 124 to 161.
fn arm64_4(number: u16) -> Option<&'static str>
    ensures { option_map (λ s. s.now) result ≡ name_in arm64_rows_4 number }
{
    match number {
        124 => Some("s24"),
        125 => Some("s25"),
        126 => Some("s26"),
        127 => Some("s27"),
        128 => Some("s28"),
        129 => Some("s29"),
        130 => Some("s30"),
        131 => Some("s31"),
        140 => Some("d0"),
        141 => Some("d1"),
        142 => Some("d2"),
        143 => Some("d3"),
        144 => Some("d4"),
        145 => Some("d5"),
        146 => Some("d6"),
        147 => Some("d7"),
        148 => Some("d8"),
        149 => Some("d9"),
        150 => Some("d10"),
        151 => Some("d11"),
        152 => Some("d12"),
        153 => Some("d13"),
        154 => Some("d14"),
        155 => Some("d15"),
        156 => Some("d16"),
        157 => Some("d17"),
        158 => Some("d18"),
        159 => Some("d19"),
        160 => Some("d20"),
        161 => Some("d21"),
        _ => None,
    }
}

// From 162 to 199.
fn arm64_5(number: u16) -> Option<&'static str>
    ensures { option_map (λ s. s.now) result ≡ name_in arm64_rows_5 number }
{
    match number {
        162 => Some("d22"),
        163 => Some("d23"),
        164 => Some("d24"),
        165 => Some("d25"),
        166 => Some("d26"),
        167 => Some("d27"),
        168 => Some("d28"),
        169 => Some("d29"),
        170 => Some("d30"),
        171 => Some("d31"),
        180 => Some("q0"),
        181 => Some("q1"),
        182 => Some("q2"),
        183 => Some("q3"),
        184 => Some("q4"),
        185 => Some("q5"),
        186 => Some("q6"),
        187 => Some("q7"),
        188 => Some("q8"),
        189 => Some("q9"),
        190 => Some("q10"),
        191 => Some("q11"),
        192 => Some("q12"),
        193 => Some("q13"),
        194 => Some("q14"),
        195 => Some("q15"),
        196 => Some("q16"),
        197 => Some("q17"),
        198 => Some("q18"),
        199 => Some("q19"),
        _ => None,
    }
}

// From 200 to 245.
fn arm64_6(number: u16) -> Option<&'static str>
    ensures { option_map (λ s. s.now) result ≡ name_in arm64_rows_6 number }
{
    match number {
        200 => Some("q20"),
        201 => Some("q21"),
        202 => Some("q22"),
        203 => Some("q23"),
        204 => Some("q24"),
        205 => Some("q25"),
        206 => Some("q26"),
        207 => Some("q27"),
        208 => Some("q28"),
        209 => Some("q29"),
        210 => Some("q30"),
        211 => Some("q31"),
        220 => Some("fpsr"),
        221 => Some("fpcr"),
        230 => Some("b0"),
        231 => Some("b1"),
        232 => Some("b2"),
        233 => Some("b3"),
        234 => Some("b4"),
        235 => Some("b5"),
        236 => Some("b6"),
        237 => Some("b7"),
        238 => Some("b8"),
        239 => Some("b9"),
        240 => Some("b10"),
        241 => Some("b11"),
        242 => Some("b12"),
        243 => Some("b13"),
        244 => Some("b14"),
        245 => Some("b15"),
        _ => None,
    }
}

// From 246 to 283.
fn arm64_7(number: u16) -> Option<&'static str>
    ensures { option_map (λ s. s.now) result ≡ name_in arm64_rows_7 number }
{
    match number {
        246 => Some("b16"),
        247 => Some("b17"),
        248 => Some("b18"),
        249 => Some("b19"),
        250 => Some("b20"),
        251 => Some("b21"),
        252 => Some("b22"),
        253 => Some("b23"),
        254 => Some("b24"),
        255 => Some("b25"),
        256 => Some("b26"),
        257 => Some("b27"),
        258 => Some("b28"),
        259 => Some("b29"),
        260 => Some("b30"),
        261 => Some("b31"),
        270 => Some("h0"),
        271 => Some("h1"),
        272 => Some("h2"),
        273 => Some("h3"),
        274 => Some("h4"),
        275 => Some("h5"),
        276 => Some("h6"),
        277 => Some("h7"),
        278 => Some("h8"),
        279 => Some("h9"),
        280 => Some("h10"),
        281 => Some("h11"),
        282 => Some("h12"),
        283 => Some("h13"),
        _ => None,
    }
}

// From 284 to 301.
fn arm64_8(number: u16) -> Option<&'static str>
    ensures { option_map (λ s. s.now) result ≡ name_in arm64_rows_8 number }
{
    match number {
        284 => Some("h14"),
        285 => Some("h15"),
        286 => Some("h16"),
        287 => Some("h17"),
        288 => Some("h18"),
        289 => Some("h19"),
        290 => Some("h20"),
        291 => Some("h21"),
        292 => Some("h22"),
        293 => Some("h23"),
        294 => Some("h24"),
        295 => Some("h25"),
        296 => Some("h26"),
        297 => Some("h27"),
        298 => Some("h28"),
        299 => Some("h29"),
        300 => Some("h30"),
        301 => Some("h31"),
        _ => None,
    }
}
