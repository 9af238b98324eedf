//! The names of the registers of x86.

ghost use Rattle.std.specs.Prelude.{◌≡◌};
ghost use Rattle.std.specs.Option.{option_map};
ghost use Rattle.pdb_records.specs.NameRows.{name_in};
ghost use Rattle.pdb_records.specs.RegistersX86.{x86_name, x86_rows_1, x86_rows_2, x86_rows_3, x86_rows_4, x86_rows_5, x86_rows_6, x86_rows_7};

// The name of a register of x86: `CV_HREG_e` of `cvconst.h`.
pub(crate) fn x86_register(number: u16) -> Option<&'static str>
    ensures { option_map (λ s. s.now) result ≡ x86_name number }
{
    match number {
        0..31 => x86_1(number),
        31..115 => x86_2(number),
        115..148 => x86_3(number),
        148..178 => x86_4(number),
        178..208 => x86_5(number),
        208..246 => x86_6(number),
        _ => x86_7(number),
    }
}

// From 1 to 30.
fn x86_1(number: u16) -> Option<&'static str>
    ensures { option_map (λ s. s.now) result ≡ name_in x86_rows_1 number }
{
    match number {
        1 => Some("al"),
        2 => Some("cl"),
        3 => Some("dl"),
        4 => Some("bl"),
        5 => Some("ah"),
        6 => Some("ch"),
        7 => Some("dh"),
        8 => Some("bh"),
        9 => Some("ax"),
        10 => Some("cx"),
        11 => Some("dx"),
        12 => Some("bx"),
        13 => Some("sp"),
        14 => Some("bp"),
        15 => Some("si"),
        16 => Some("di"),
        17 => Some("eax"),
        18 => Some("ecx"),
        19 => Some("edx"),
        20 => Some("ebx"),
        21 => Some("esp"),
        22 => Some("ebp"),
        23 => Some("esi"),
        24 => Some("edi"),
        25 => Some("es"),
        26 => Some("cs"),
        27 => Some("ss"),
        28 => Some("ds"),
        29 => Some("fs"),
        30 => Some("gs"),
        _ => None,
    }
}

// From 31 to 114.
fn x86_2(number: u16) -> Option<&'static str>
    ensures { option_map (λ s. s.now) result ≡ name_in x86_rows_2 number }
{
    match number {
        31 => Some("ip"),
        32 => Some("flags"),
        33 => Some("eip"),
        34 => Some("eflags"),
        40 => Some("temp"),
        41 => Some("temph"),
        42 => Some("quote"),
        43 => Some("pcdr3"),
        44 => Some("pcdr4"),
        45 => Some("pcdr5"),
        46 => Some("pcdr6"),
        47 => Some("pcdr7"),
        80 => Some("cr0"),
        81 => Some("cr1"),
        82 => Some("cr2"),
        83 => Some("cr3"),
        84 => Some("cr4"),
        90 => Some("dr0"),
        91 => Some("dr1"),
        92 => Some("dr2"),
        93 => Some("dr3"),
        94 => Some("dr4"),
        95 => Some("dr5"),
        96 => Some("dr6"),
        97 => Some("dr7"),
        110 => Some("gdtr"),
        111 => Some("gdtl"),
        112 => Some("idtr"),
        113 => Some("idtl"),
        114 => Some("ldtr"),
        _ => None,
    }
}

// From 115 to 147.
fn x86_3(number: u16) -> Option<&'static str>
    ensures { option_map (λ s. s.now) result ≡ name_in x86_rows_3 number }
{
    match number {
        115 => Some("tr"),
        116 => Some("pseudo1"),
        117 => Some("pseudo2"),
        118 => Some("pseudo3"),
        119 => Some("pseudo4"),
        120 => Some("pseudo5"),
        121 => Some("pseudo6"),
        122 => Some("pseudo7"),
        123 => Some("pseudo8"),
        124 => Some("pseudo9"),
        128 => Some("st0"),
        129 => Some("st1"),
        130 => Some("st2"),
        131 => Some("st3"),
        132 => Some("st4"),
        133 => Some("st5"),
        134 => Some("st6"),
        135 => Some("st7"),
        136 => Some("ctrl"),
        137 => Some("stat"),
        138 => Some("tag"),
        139 => Some("fpip"),
        140 => Some("fpcs"),
        141 => Some("fpdo"),
        142 => Some("fpds"),
        143 => Some("isem"),
        144 => Some("fpeip"),
        145 => Some("fpedo"),
        146 => Some("mm0"),
        147 => Some("mm1"),
        _ => None,
    }
}

// From 148 to 177.
fn x86_4(number: u16) -> Option<&'static str>
    ensures { option_map (λ s. s.now) result ≡ name_in x86_rows_4 number }
{
    match number {
        148 => Some("mm2"),
        149 => Some("mm3"),
        150 => Some("mm4"),
        151 => Some("mm5"),
        152 => Some("mm6"),
        153 => Some("mm7"),
        154 => Some("xmm0"),
        155 => Some("xmm1"),
        156 => Some("xmm2"),
        157 => Some("xmm3"),
        158 => Some("xmm4"),
        159 => Some("xmm5"),
        160 => Some("xmm6"),
        161 => Some("xmm7"),
        162 => Some("xmm0_0"),
        163 => Some("xmm0_1"),
        164 => Some("xmm0_2"),
        165 => Some("xmm0_3"),
        166 => Some("xmm1_0"),
        167 => Some("xmm1_1"),
        168 => Some("xmm1_2"),
        169 => Some("xmm1_3"),
        170 => Some("xmm2_0"),
        171 => Some("xmm2_1"),
        172 => Some("xmm2_2"),
        173 => Some("xmm2_3"),
        174 => Some("xmm3_0"),
        175 => Some("xmm3_1"),
        176 => Some("xmm3_2"),
        177 => Some("xmm3_3"),
        _ => None,
    }
}

// From 178 to 207.
fn x86_5(number: u16) -> Option<&'static str>
    ensures { option_map (λ s. s.now) result ≡ name_in x86_rows_5 number }
{
    match number {
        178 => Some("xmm4_0"),
        179 => Some("xmm4_1"),
        180 => Some("xmm4_2"),
        181 => Some("xmm4_3"),
        182 => Some("xmm5_0"),
        183 => Some("xmm5_1"),
        184 => Some("xmm5_2"),
        185 => Some("xmm5_3"),
        186 => Some("xmm6_0"),
        187 => Some("xmm6_1"),
        188 => Some("xmm6_2"),
        189 => Some("xmm6_3"),
        190 => Some("xmm7_0"),
        191 => Some("xmm7_1"),
        192 => Some("xmm7_2"),
        193 => Some("xmm7_3"),
        194 => Some("xmm0l"),
        195 => Some("xmm1l"),
        196 => Some("xmm2l"),
        197 => Some("xmm3l"),
        198 => Some("xmm4l"),
        199 => Some("xmm5l"),
        200 => Some("xmm6l"),
        201 => Some("xmm7l"),
        202 => Some("xmm0h"),
        203 => Some("xmm1h"),
        204 => Some("xmm2h"),
        205 => Some("xmm3h"),
        206 => Some("xmm4h"),
        207 => Some("xmm5h"),
        _ => None,
    }
}

// From 208 to 245.
fn x86_6(number: u16) -> Option<&'static str>
    ensures { option_map (λ s. s.now) result ≡ name_in x86_rows_6 number }
{
    match number {
        208 => Some("xmm6h"),
        209 => Some("xmm7h"),
        211 => Some("mxcsr"),
        212 => Some("edxeax"),
        220 => Some("emm0l"),
        221 => Some("emm1l"),
        222 => Some("emm2l"),
        223 => Some("emm3l"),
        224 => Some("emm4l"),
        225 => Some("emm5l"),
        226 => Some("emm6l"),
        227 => Some("emm7l"),
        228 => Some("emm0h"),
        229 => Some("emm1h"),
        230 => Some("emm2h"),
        231 => Some("emm3h"),
        232 => Some("emm4h"),
        233 => Some("emm5h"),
        234 => Some("emm6h"),
        235 => Some("emm7h"),
        236 => Some("mm00"),
        237 => Some("mm01"),
        238 => Some("mm10"),
        239 => Some("mm11"),
        240 => Some("mm20"),
        241 => Some("mm21"),
        242 => Some("mm30"),
        243 => Some("mm31"),
        244 => Some("mm40"),
        245 => Some("mm41"),
        _ => None,
    }
}

// From 246 to 398.
fn x86_7(number: u16) -> Option<&'static str>
    ensures { option_map (λ s. s.now) result ≡ name_in x86_rows_7 number }
{
    match number {
        246 => Some("mm50"),
        247 => Some("mm51"),
        248 => Some("mm60"),
        249 => Some("mm61"),
        250 => Some("mm70"),
        251 => Some("mm71"),
        252 => Some("ymm0"),
        253 => Some("ymm1"),
        254 => Some("ymm2"),
        255 => Some("ymm3"),
        256 => Some("ymm4"),
        257 => Some("ymm5"),
        258 => Some("ymm6"),
        259 => Some("ymm7"),
        396 => Some("bnd0"),
        397 => Some("bnd1"),
        398 => Some("bnd2"),
        _ => None,
    }
}
