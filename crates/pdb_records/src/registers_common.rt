//! The names of the registers of all machines.

ghost use Rattle.std.specs.Prelude.{◌≡◌};
ghost use Rattle.std.specs.Option.{option_map};
ghost use Rattle.pdb_records.specs.NameRows.{name_in};
ghost use Rattle.pdb_records.specs.RegistersCommon.{common_name, common_rows_1};

// The name of a register of all machines: `CV_HREG_e` of `cvconst.h`.
pub(crate) fn common_register(number: u16) -> Option<&'static str>
    ensures { option_map (λ s. s.now) result ≡ common_name number }
{
    common_1(number)
}

// From 30001 to 30012.
fn common_1(number: u16) -> Option<&'static str>
    ensures { option_map (λ s. s.now) result ≡ name_in common_rows_1 number }
{
    match number {
        30001 => Some("teb"),
        30002 => Some("timer"),
        30003 => Some("efad1"),
        30004 => Some("efad2"),
        30005 => Some("efad3"),
        30006 => Some("vframe"),
        30007 => Some("handle"),
        30008 => Some("params"),
        30009 => Some("locals"),
        30010 => Some("tid"),
        30011 => Some("env"),
        30012 => Some("cmdln"),
        _ => None,
    }
}
