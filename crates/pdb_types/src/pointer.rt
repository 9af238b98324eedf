//! Qualifiers of types, and the attributes of pointers.

ghost use Rattle.std.specs.Prelude.{◌≡◌};
ghost use Rattle.pdb_types.specs.TypeFlags.{has, is_unqualified, modifier_qualifiers, plain_pointer_size, pointer_qualifiers, pointer_size, stored_size};

use pdb_base::TypeIndex;

/// The qualifiers of a type: `CV_modifier_t`, and those of `lfPointerAttr`, in `cvinfo.h`.
#[derive(Clone, Copy, Debug, Eq, PartialEq)]
pub struct Qualifiers {
    /// The type is `const`.
    pub is_const: bool,
    /// The type is `volatile`.
    pub is_volatile: bool,
    /// The type is `__unaligned`.
    pub is_unaligned: bool,
    /// The type is `__restrict`, which only a pointer is.
    pub is_restrict: bool,
}

impl Qualifiers {
    // The qualifiers of a modifier's bits.
    pub(crate) fn of_modifier(bits: u16) -> Self
        ensures { result ≡ modifier_qualifiers bits }
    {
        Qualifiers {
            is_const: bits & 1 != 0,
            is_volatile: bits & 2 != 0,
            is_unaligned: bits & 4 != 0,
            is_restrict: false,
        }
    }

    // Whether there is none.
    pub(crate) fn is_empty(self) -> bool
        ensures { result ≡ is_unqualified self }
    {
        !self.is_const && !self.is_volatile && !self.is_unaligned && !self.is_restrict
    }
}

/// What a pointer is: `CV_ptrmode_e` in `cvinfo.h`. A pointer to a member has the class of the member.
#[derive(Clone, Copy, Debug, Eq, PartialEq)]
pub enum PointerMode {
    /// A pointer.
    Pointer,
    /// An lvalue reference.
    LvalueReference,
    /// A pointer to a data member of this class.
    DataMember(TypeIndex),
    /// A pointer to a member function of this class.
    MemberFunction(TypeIndex),
    /// An rvalue reference.
    RvalueReference,
}

/// The attributes of a pointer: `lfPointerAttr` in `cvinfo.h`.
#[derive(Clone, Copy, Debug, Eq, PartialEq)]
pub struct PointerAttributes(pub u32);

impl PointerAttributes {
    /// The pointer's own qualifiers, as those of `char* const`.
    pub fn qualifiers(self) -> Qualifiers
        ensures { result ≡ pointer_qualifiers self.0 }
    {
        Qualifiers {
            is_const: self.0 & 0x400 != 0,
            is_volatile: self.0 & 0x200 != 0,
            is_unaligned: self.0 & 0x800 != 0,
            is_restrict: self.0 & 0x1000 != 0,
        }
    }

    /// Whether a member function whose `this` is this pointer takes an lvalue.
    pub fn is_lvalue_this(self) -> bool
        ensures { result ≡ has self.0 0x100000 }
    {
        self.0 & 0x10_0000 != 0
    }

    /// Whether a member function whose `this` is this pointer takes an rvalue.
    pub fn is_rvalue_this(self) -> bool
        ensures { result ≡ has self.0 0x200000 }
    {
        self.0 & 0x20_0000 != 0
    }

    // The size that the attributes have.
    fn stored_size(self) -> Option<u32>
        ensures { result ≡ stored_size self.0 }
    {
        match self.0 / 0x2000 % 64 {
            0 => None,
            size => Some(size),
        }
    }

    // The size by the pointer's kind.
    fn plain_size(self) -> Option<u32>
        ensures { result ≡ plain_pointer_size self.0 }
    {
        match self.0 % 32 {
            0 => Some(2),
            1 | 2 | 0xa => Some(4),
            0xb => Some(6),
            0xc => Some(8),
            _ => self.stored_size(),
        }
    }

    /// The size of the pointer in bytes; none where the attributes don't have it. The attributes of a reference may
    /// have the size of what it refers to; then its kind has its own.
    pub fn size(self) -> Option<u32>
        ensures { result ≡ pointer_size self.0 }
    {
        match self.0 / 32 % 8 {
            2 | 3 => self.stored_size(),
            _ => self.plain_size(),
        }
    }
}
