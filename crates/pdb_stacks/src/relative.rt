//! The relative address that a reference's number is.

ghost use Rattle.std.specs.Prelude.{◌≡◌};
ghost use Rattle.pdb_stacks.specs.RelativeAddresses.{in_image, of_pdb};

/// The relative address of a number, in an image of this load address and size: the number itself where it is below the size,
/// else the number less the load address. None where it is neither, or where it could be both and a `)` follows: sanitizers
/// write the address there, others the relative one.
pub fn relative_in_image(base: u64, size: u32, number: u64, is_closed: bool) -> Option<u32>
    ensures { result ≡ in_image base size number is_closed }
{
    let size = u64::from(size);
    if number < size {
        let is_either = is_closed && base <= number;
        return if is_either { None } else { Some(number as u32) };
    }
    if base <= number && number - base < size {
        Some((number - base) as u32)
    } else {
        None
    }
}

/// The relative address of a number, where only the PDB of the module is known: the number itself where it is below 2^32, or
/// less the load address that the linker gives a 64-bit program or DLL. None else. Where a `)` follows, a number of an x86
/// module (machine 14c) that may be an address is none.
pub fn relative_of_pdb(is_x86: bool, number: u64, is_closed: bool) -> Option<u32>
    ensures { result ≡ of_pdb is_x86 number is_closed }
{
    if number < 0x1_0000_0000 {
        let is_address = is_closed && is_x86 && number >= 0x40_0000;
        return if is_address {
            None
        } else {
            Some(number as u32)
        };
    }
    if number >= 0x1_4000_0000 && number < 0x1_8000_0000 {
        return Some((number - 0x1_4000_0000) as u32);
    }
    if number >= 0x1_8000_0000 && number < 0x2_0000_0000 {
        return Some((number - 0x1_8000_0000) as u32);
    }
    None
}
