//! The names of the registers of ARM.

ghost use Rattle.std.specs.Prelude.{◌≡◌};
ghost use Rattle.std.specs.Option.{option_map};
ghost use Rattle.pdb_records.specs.NameRows.{name_in};
ghost use Rattle.pdb_records.specs.RegistersArm.{arm_name, arm_rows_1, arm_rows_2, arm_rows_3, arm_rows_4, arm_rows_5};

// The name of a register of ARM: `CV_HREG_e` of `cvconst.h`.
pub(crate) fn arm_register(number: u16) -> Option<&'static str>
    ensures { option_map (λ s. s.now) result ≡ arm_name number }
{
    match number {
        0..61 => arm_1(number),
        61..209 => arm_2(number),
        209..307 => arm_3(number),
        307..405 => arm_4(number),
        _ => arm_5(number),
    }
}

// From 10 to 60.
fn arm_1(number: u16) -> Option<&'static str>
    ensures { option_map (λ s. s.now) result ≡ name_in arm_rows_1 number }
{
    match number {
        10 => Some("r0"),
        11 => Some("r1"),
        12 => Some("r2"),
        13 => Some("r3"),
        14 => Some("r4"),
        15 => Some("r5"),
        16 => Some("r6"),
        17 => Some("r7"),
        18 => Some("r8"),
        19 => Some("r9"),
        20 => Some("r10"),
        21 => Some("r11"),
        22 => Some("r12"),
        23 => Some("sp"),
        24 => Some("lr"),
        25 => Some("pc"),
        26 => Some("cpsr"),
        40 => Some("fpscr"),
        41 => Some("fpexc"),
        50 => Some("fs0"),
        51 => Some("fs1"),
        52 => Some("fs2"),
        53 => Some("fs3"),
        54 => Some("fs4"),
        55 => Some("fs5"),
        56 => Some("fs6"),
        57 => Some("fs7"),
        58 => Some("fs8"),
        59 => Some("fs9"),
        60 => Some("fs10"),
        _ => None,
    }
}

// From 61 to 208.
fn arm_2(number: u16) -> Option<&'static str>
    ensures { option_map (λ s. s.now) result ≡ name_in arm_rows_2 number }
{
    match number {
        61 => Some("fs11"),
        62 => Some("fs12"),
        63 => Some("fs13"),
        64 => Some("fs14"),
        65 => Some("fs15"),
        66 => Some("fs16"),
        67 => Some("fs17"),
        68 => Some("fs18"),
        69 => Some("fs19"),
        70 => Some("fs20"),
        71 => Some("fs21"),
        72 => Some("fs22"),
        73 => Some("fs23"),
        74 => Some("fs24"),
        75 => Some("fs25"),
        76 => Some("fs26"),
        77 => Some("fs27"),
        78 => Some("fs28"),
        79 => Some("fs29"),
        80 => Some("fs30"),
        81 => Some("fs31"),
        200 => Some("fs32"),
        201 => Some("fs33"),
        202 => Some("fs34"),
        203 => Some("fs35"),
        204 => Some("fs36"),
        205 => Some("fs37"),
        206 => Some("fs38"),
        207 => Some("fs39"),
        208 => Some("fs40"),
        _ => None,
    }
}

// From 209 to 306.
fn arm_3(number: u16) -> Option<&'static str>
    ensures { option_map (λ s. s.now) result ≡ name_in arm_rows_3 number }
{
    match number {
        209 => Some("fs41"),
        210 => Some("fs42"),
        211 => Some("fs43"),
        212 => Some("fs44"),
        213 => Some("fs45"),
        214 => Some("fs46"),
        215 => Some("fs47"),
        216 => Some("fs48"),
        217 => Some("fs49"),
        218 => Some("fs50"),
        219 => Some("fs51"),
        220 => Some("fs52"),
        221 => Some("fs53"),
        222 => Some("fs54"),
        223 => Some("fs55"),
        224 => Some("fs56"),
        225 => Some("fs57"),
        226 => Some("fs58"),
        227 => Some("fs59"),
        228 => Some("fs60"),
        229 => Some("fs61"),
        230 => Some("fs62"),
        231 => Some("fs63"),
        300 => Some("nd0"),
        301 => Some("nd1"),
        302 => Some("nd2"),
        303 => Some("nd3"),
        304 => Some("nd4"),
        305 => Some("nd5"),
        306 => Some("nd6"),
        _ => None,
    }
}

// From 307 to 404.
fn arm_4(number: u16) -> Option<&'static str>
    ensures { option_map (λ s. s.now) result ≡ name_in arm_rows_4 number }
{
    match number {
        307 => Some("nd7"),
        308 => Some("nd8"),
        309 => Some("nd9"),
        310 => Some("nd10"),
        311 => Some("nd11"),
        312 => Some("nd12"),
        313 => Some("nd13"),
        314 => Some("nd14"),
        315 => Some("nd15"),
        316 => Some("nd16"),
        317 => Some("nd17"),
        318 => Some("nd18"),
        319 => Some("nd19"),
        320 => Some("nd20"),
        321 => Some("nd21"),
        322 => Some("nd22"),
        323 => Some("nd23"),
        324 => Some("nd24"),
        325 => Some("nd25"),
        326 => Some("nd26"),
        327 => Some("nd27"),
        328 => Some("nd28"),
        329 => Some("nd29"),
        330 => Some("nd30"),
        331 => Some("nd31"),
        400 => Some("nq0"),
        401 => Some("nq1"),
        402 => Some("nq2"),
        403 => Some("nq3"),
        404 => Some("nq4"),
        _ => None,
    }
}

// From 405 to 415.
fn arm_5(number: u16) -> Option<&'static str>
    ensures { option_map (λ s. s.now) result ≡ name_in arm_rows_5 number }
{
    match number {
        405 => Some("nq5"),
        406 => Some("nq6"),
        407 => Some("nq7"),
        408 => Some("nq8"),
        409 => Some("nq9"),
        410 => Some("nq10"),
        411 => Some("nq11"),
        412 => Some("nq12"),
        413 => Some("nq13"),
        414 => Some("nq14"),
        415 => Some("nq15"),
        _ => None,
    }
}
