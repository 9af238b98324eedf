//! The names of the registers of x64, the greater numbers.

ghost use Rattle.std.specs.Prelude.{◌≡◌};
ghost use Rattle.std.specs.Option.{option_map};
ghost use Rattle.pdb_records.specs.NameRows.{name_in};
ghost use Rattle.pdb_records.specs.RegistersX64.{x64_rows_10, x64_rows_11, x64_rows_12, x64_rows_13};

// From 352 to 381.
pub(crate) fn x64_10(number: u16) -> Option<&'static str>
    ensures { option_map (λ s. s.now) result ≡ name_in x64_rows_10 number }
{
    match number {
        352 => Some("r8w"),
        353 => Some("r9w"),
        354 => Some("r10w"),
        355 => Some("r11w"),
        356 => Some("r12w"),
        357 => Some("r13w"),
        358 => Some("r14w"),
        359 => Some("r15w"),
        360 => Some("r8d"),
        361 => Some("r9d"),
        362 => Some("r10d"),
        363 => Some("r11d"),
        364 => Some("r12d"),
        365 => Some("r13d"),
        366 => Some("r14d"),
        367 => Some("r15d"),
        368 => Some("ymm0"),
        369 => Some("ymm1"),
        370 => Some("ymm2"),
        371 => Some("ymm3"),
        372 => Some("ymm4"),
        373 => Some("ymm5"),
        374 => Some("ymm6"),
        375 => Some("ymm7"),
        376 => Some("ymm8"),
        377 => Some("ymm9"),
        378 => Some("ymm10"),
        379 => Some("ymm11"),
        380 => Some("ymm12"),
        381 => Some("ymm13"),
        _ => None,
    }
}

// From 382 to 718.
pub(crate) fn x64_11(number: u16) -> Option<&'static str>
    ensures { option_map (λ s. s.now) result ≡ name_in x64_rows_11 number }
{
    match number {
        382 => Some("ymm14"),
        383 => Some("ymm15"),
        396 => Some("bnd0"),
        397 => Some("bnd1"),
        398 => Some("bnd2"),
        694 => Some("xmm16"),
        695 => Some("xmm17"),
        696 => Some("xmm18"),
        697 => Some("xmm19"),
        698 => Some("xmm20"),
        699 => Some("xmm21"),
        700 => Some("xmm22"),
        701 => Some("xmm23"),
        702 => Some("xmm24"),
        703 => Some("xmm25"),
        704 => Some("xmm26"),
        705 => Some("xmm27"),
        706 => Some("xmm28"),
        707 => Some("xmm29"),
        708 => Some("xmm30"),
        709 => Some("xmm31"),
        710 => Some("ymm16"),
        711 => Some("ymm17"),
        712 => Some("ymm18"),
        713 => Some("ymm19"),
        714 => Some("ymm20"),
        715 => Some("ymm21"),
        716 => Some("ymm22"),
        717 => Some("ymm23"),
        718 => Some("ymm24"),
        _ => None,
    }
}

// From 719 to 748.
pub(crate) fn x64_12(number: u16) -> Option<&'static str>
    ensures { option_map (λ s. s.now) result ≡ name_in x64_rows_12 number }
{
    match number {
        719 => Some("ymm25"),
        720 => Some("ymm26"),
        721 => Some("ymm27"),
        722 => Some("ymm28"),
        723 => Some("ymm29"),
        724 => Some("ymm30"),
        725 => Some("ymm31"),
        726 => Some("zmm0"),
        727 => Some("zmm1"),
        728 => Some("zmm2"),
        729 => Some("zmm3"),
        730 => Some("zmm4"),
        731 => Some("zmm5"),
        732 => Some("zmm6"),
        733 => Some("zmm7"),
        734 => Some("zmm8"),
        735 => Some("zmm9"),
        736 => Some("zmm10"),
        737 => Some("zmm11"),
        738 => Some("zmm12"),
        739 => Some("zmm13"),
        740 => Some("zmm14"),
        741 => Some("zmm15"),
        742 => Some("zmm16"),
        743 => Some("zmm17"),
        744 => Some("zmm18"),
        745 => Some("zmm19"),
        746 => Some("zmm20"),
        747 => Some("zmm21"),
        748 => Some("zmm22"),
        _ => None,
    }
}

// From 749 to 765.
pub(crate) fn x64_13(number: u16) -> Option<&'static str>
    ensures { option_map (λ s. s.now) result ≡ name_in x64_rows_13 number }
{
    match number {
        749 => Some("zmm23"),
        750 => Some("zmm24"),
        751 => Some("zmm25"),
        752 => Some("zmm26"),
        753 => Some("zmm27"),
        754 => Some("zmm28"),
        755 => Some("zmm29"),
        756 => Some("zmm30"),
        757 => Some("zmm31"),
        758 => Some("k0"),
        759 => Some("k1"),
        760 => Some("k2"),
        761 => Some("k3"),
        762 => Some("k4"),
        763 => Some("k5"),
        764 => Some("k6"),
        765 => Some("k7"),
        _ => None,
    }
}
