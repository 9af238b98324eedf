//! The names of the registers of x64.

ghost use Rattle.std.specs.Prelude.{◌≡◌};
ghost use Rattle.std.specs.Option.{option_map};
ghost use Rattle.pdb_records.specs.NameRows.{name_in};
ghost use Rattle.pdb_records.specs.RegistersX64.{x64_name, x64_low_name, x64_high_name, x64_rows_1, x64_rows_2, x64_rows_3, x64_rows_4, x64_rows_5, x64_rows_6, x64_rows_7, x64_rows_8, x64_rows_9};

use crate::registers_x64_high::{x64_10, x64_11, x64_12, x64_13};

// The name of a register of x64: `CV_HREG_e` of `cvconst.h`.
pub(crate) fn x64_register(number: u16) -> Option<&'static str>
    ensures { option_map (λ s. s.now) result ≡ x64_name number }
{
    if number < 246 {
        x64_low(number)
    } else {
        x64_high(number)
    }
}

// Numbers below 246.
#[tactic(auto, unfolding(crate::specs::RegistersX64::x64_low_name))]
fn x64_low(number: u16) -> Option<&'static str>
    ensures { option_map (λ s. s.now) result ≡ x64_low_name number }
{
    match number {
        0..31 => x64_1(number),
        31..115 => x64_2(number),
        115..148 => x64_3(number),
        148..178 => x64_4(number),
        178..208 => x64_5(number),
        _ => x64_6(number),
    }
}

// The others.
#[tactic(auto, unfolding(crate::specs::RegistersX64::x64_high_name))]
fn x64_high(number: u16) -> Option<&'static str>
    ensures { option_map (λ s. s.now) result ≡ x64_high_name number }
{
    match number {
        0..276 => x64_7(number),
        276..306 => x64_8(number),
        306..352 => x64_9(number),
        352..382 => x64_10(number),
        382..719 => x64_11(number),
        719..749 => x64_12(number),
        _ => x64_13(number),
    }
}

// From 1 to 30.
fn x64_1(number: u16) -> Option<&'static str>
    ensures { option_map (λ s. s.now) result ≡ name_in x64_rows_1 number }
{
    match number {
        1 => Some("al"),
        2 => Some("cl"),
        3 => Some("dl"),
        4 => Some("bl"),
        5 => Some("ah"),
        6 => Some("ch"),
        7 => Some("dh"),
        8 => Some("bh"),
        9 => Some("ax"),
        10 => Some("cx"),
        11 => Some("dx"),
        12 => Some("bx"),
        13 => Some("sp"),
        14 => Some("bp"),
        15 => Some("si"),
        16 => Some("di"),
        17 => Some("eax"),
        18 => Some("ecx"),
        19 => Some("edx"),
        20 => Some("ebx"),
        21 => Some("esp"),
        22 => Some("ebp"),
        23 => Some("esi"),
        24 => Some("edi"),
        25 => Some("es"),
        26 => Some("cs"),
        27 => Some("ss"),
        28 => Some("ds"),
        29 => Some("fs"),
        30 => Some("gs"),
        _ => None,
    }
}

// From 31 to 114.
fn x64_2(number: u16) -> Option<&'static str>
    ensures { option_map (λ s. s.now) result ≡ name_in x64_rows_2 number }
{
    match number {
        31 => Some("ip"),
        32 => Some("flags"),
        33 => Some("rip"),
        34 => Some("eflags"),
        40 => Some("temp"),
        41 => Some("temph"),
        42 => Some("quote"),
        43 => Some("pcdr3"),
        44 => Some("pcdr4"),
        45 => Some("pcdr5"),
        46 => Some("pcdr6"),
        47 => Some("pcdr7"),
        80 => Some("cr0"),
        81 => Some("cr1"),
        82 => Some("cr2"),
        83 => Some("cr3"),
        84 => Some("cr4"),
        90 => Some("dr0"),
        91 => Some("dr1"),
        92 => Some("dr2"),
        93 => Some("dr3"),
        94 => Some("dr4"),
        95 => Some("dr5"),
        96 => Some("dr6"),
        97 => Some("dr7"),
        110 => Some("gdtr"),
        111 => Some("gdtl"),
        112 => Some("idtr"),
        113 => Some("idtl"),
        114 => Some("ldtr"),
        _ => None,
    }
}

// From 115 to 147.
fn x64_3(number: u16) -> Option<&'static str>
    ensures { option_map (λ s. s.now) result ≡ name_in x64_rows_3 number }
{
    match number {
        115 => Some("tr"),
        116 => Some("pseudo1"),
        117 => Some("pseudo2"),
        118 => Some("pseudo3"),
        119 => Some("pseudo4"),
        120 => Some("pseudo5"),
        121 => Some("pseudo6"),
        122 => Some("pseudo7"),
        123 => Some("pseudo8"),
        124 => Some("pseudo9"),
        128 => Some("st0"),
        129 => Some("st1"),
        130 => Some("st2"),
        131 => Some("st3"),
        132 => Some("st4"),
        133 => Some("st5"),
        134 => Some("st6"),
        135 => Some("st7"),
        136 => Some("ctrl"),
        137 => Some("stat"),
        138 => Some("tag"),
        139 => Some("fpip"),
        140 => Some("fpcs"),
        141 => Some("fpdo"),
        142 => Some("fpds"),
        143 => Some("isem"),
        144 => Some("fpeip"),
        145 => Some("fpedo"),
        146 => Some("mm0"),
        147 => Some("mm1"),
        _ => None,
    }
}

// From 148 to 177.
fn x64_4(number: u16) -> Option<&'static str>
    ensures { option_map (λ s. s.now) result ≡ name_in x64_rows_4 number }
{
    match number {
        148 => Some("mm2"),
        149 => Some("mm3"),
        150 => Some("mm4"),
        151 => Some("mm5"),
        152 => Some("mm6"),
        153 => Some("mm7"),
        154 => Some("xmm0"),
        155 => Some("xmm1"),
        156 => Some("xmm2"),
        157 => Some("xmm3"),
        158 => Some("xmm4"),
        159 => Some("xmm5"),
        160 => Some("xmm6"),
        161 => Some("xmm7"),
        162 => Some("xmm0_0"),
        163 => Some("xmm0_1"),
        164 => Some("xmm0_2"),
        165 => Some("xmm0_3"),
        166 => Some("xmm1_0"),
        167 => Some("xmm1_1"),
        168 => Some("xmm1_2"),
        169 => Some("xmm1_3"),
        170 => Some("xmm2_0"),
        171 => Some("xmm2_1"),
        172 => Some("xmm2_2"),
        173 => Some("xmm2_3"),
        174 => Some("xmm3_0"),
        175 => Some("xmm3_1"),
        176 => Some("xmm3_2"),
        177 => Some("xmm3_3"),
        _ => None,
    }
}

// From 178 to 207.
fn x64_5(number: u16) -> Option<&'static str>
    ensures { option_map (λ s. s.now) result ≡ name_in x64_rows_5 number }
{
    match number {
        178 => Some("xmm4_0"),
        179 => Some("xmm4_1"),
        180 => Some("xmm4_2"),
        181 => Some("xmm4_3"),
        182 => Some("xmm5_0"),
        183 => Some("xmm5_1"),
        184 => Some("xmm5_2"),
        185 => Some("xmm5_3"),
        186 => Some("xmm6_0"),
        187 => Some("xmm6_1"),
        188 => Some("xmm6_2"),
        189 => Some("xmm6_3"),
        190 => Some("xmm7_0"),
        191 => Some("xmm7_1"),
        192 => Some("xmm7_2"),
        193 => Some("xmm7_3"),
        194 => Some("xmm0l"),
        195 => Some("xmm1l"),
        196 => Some("xmm2l"),
        197 => Some("xmm3l"),
        198 => Some("xmm4l"),
        199 => Some("xmm5l"),
        200 => Some("xmm6l"),
        201 => Some("xmm7l"),
        202 => Some("xmm0h"),
        203 => Some("xmm1h"),
        204 => Some("xmm2h"),
        205 => Some("xmm3h"),
        206 => Some("xmm4h"),
        207 => Some("xmm5h"),
        _ => None,
    }
}

// From 208 to 245.
fn x64_6(number: u16) -> Option<&'static str>
    ensures { option_map (λ s. s.now) result ≡ name_in x64_rows_6 number }
{
    match number {
        208 => Some("xmm6h"),
        209 => Some("xmm7h"),
        211 => Some("mxcsr"),
        212 => Some("edxeax"),
        220 => Some("emm0l"),
        221 => Some("emm1l"),
        222 => Some("emm2l"),
        223 => Some("emm3l"),
        224 => Some("emm4l"),
        225 => Some("emm5l"),
        226 => Some("emm6l"),
        227 => Some("emm7l"),
        228 => Some("emm0h"),
        229 => Some("emm1h"),
        230 => Some("emm2h"),
        231 => Some("emm3h"),
        232 => Some("emm4h"),
        233 => Some("emm5h"),
        234 => Some("emm6h"),
        235 => Some("emm7h"),
        236 => Some("mm00"),
        237 => Some("mm01"),
        238 => Some("mm10"),
        239 => Some("mm11"),
        240 => Some("mm20"),
        241 => Some("mm21"),
        242 => Some("mm30"),
        243 => Some("mm31"),
        244 => Some("mm40"),
        245 => Some("mm41"),
        _ => None,
    }
}

// From 246 to 275.
fn x64_7(number: u16) -> Option<&'static str>
    ensures { option_map (λ s. s.now) result ≡ name_in x64_rows_7 number }
{
    match number {
        246 => Some("mm50"),
        247 => Some("mm51"),
        248 => Some("mm60"),
        249 => Some("mm61"),
        250 => Some("mm70"),
        251 => Some("mm71"),
        252 => Some("xmm8"),
        253 => Some("xmm9"),
        254 => Some("xmm10"),
        255 => Some("xmm11"),
        256 => Some("xmm12"),
        257 => Some("xmm13"),
        258 => Some("xmm14"),
        259 => Some("xmm15"),
        260 => Some("xmm8_0"),
        261 => Some("xmm8_1"),
        262 => Some("xmm8_2"),
        263 => Some("xmm8_3"),
        264 => Some("xmm9_0"),
        265 => Some("xmm9_1"),
        266 => Some("xmm9_2"),
        267 => Some("xmm9_3"),
        268 => Some("xmm10_0"),
        269 => Some("xmm10_1"),
        270 => Some("xmm10_2"),
        271 => Some("xmm10_3"),
        272 => Some("xmm11_0"),
        273 => Some("xmm11_1"),
        274 => Some("xmm11_2"),
        275 => Some("xmm11_3"),
        _ => None,
    }
}

// From 276 to 305.
fn x64_8(number: u16) -> Option<&'static str>
    ensures { option_map (λ s. s.now) result ≡ name_in x64_rows_8 number }
{
    match number {
        276 => Some("xmm12_0"),
        277 => Some("xmm12_1"),
        278 => Some("xmm12_2"),
        279 => Some("xmm12_3"),
        280 => Some("xmm13_0"),
        281 => Some("xmm13_1"),
        282 => Some("xmm13_2"),
        283 => Some("xmm13_3"),
        284 => Some("xmm14_0"),
        285 => Some("xmm14_1"),
        286 => Some("xmm14_2"),
        287 => Some("xmm14_3"),
        288 => Some("xmm15_0"),
        289 => Some("xmm15_1"),
        290 => Some("xmm15_2"),
        291 => Some("xmm15_3"),
        292 => Some("xmm8l"),
        293 => Some("xmm9l"),
        294 => Some("xmm10l"),
        295 => Some("xmm11l"),
        296 => Some("xmm12l"),
        297 => Some("xmm13l"),
        298 => Some("xmm14l"),
        299 => Some("xmm15l"),
        300 => Some("xmm8h"),
        301 => Some("xmm9h"),
        302 => Some("xmm10h"),
        303 => Some("xmm11h"),
        304 => Some("xmm12h"),
        305 => Some("xmm13h"),
        _ => None,
    }
}

// From 306 to 351.
fn x64_9(number: u16) -> Option<&'static str>
    ensures { option_map (λ s. s.now) result ≡ name_in x64_rows_9 number }
{
    match number {
        306 => Some("xmm14h"),
        307 => Some("xmm15h"),
        324 => Some("sil"),
        325 => Some("dil"),
        326 => Some("bpl"),
        327 => Some("spl"),
        328 => Some("rax"),
        329 => Some("rbx"),
        330 => Some("rcx"),
        331 => Some("rdx"),
        332 => Some("rsi"),
        333 => Some("rdi"),
        334 => Some("rbp"),
        335 => Some("rsp"),
        336 => Some("r8"),
        337 => Some("r9"),
        338 => Some("r10"),
        339 => Some("r11"),
        340 => Some("r12"),
        341 => Some("r13"),
        342 => Some("r14"),
        343 => Some("r15"),
        344 => Some("r8b"),
        345 => Some("r9b"),
        346 => Some("r10b"),
        347 => Some("r11b"),
        348 => Some("r12b"),
        349 => Some("r13b"),
        350 => Some("r14b"),
        351 => Some("r15b"),
        _ => None,
    }
}
