//! What members of types say.

ghost use Rattle.std.specs.Prelude.{◌≡◌, ◌==◌};
ghost use Rattle.pdb_types.specs.MemberSays.{access_number, is_introduced, method_number};

use pdb_base::{TypeIndex, Variant};

/// The attributes of a member: `CV_fldattr_t` in `cvinfo.h`.
#[derive(Clone, Copy, Debug, Eq, PartialEq)]
pub struct FieldAttributes(pub u16);

impl FieldAttributes {
    /// Who may use the member: 1 is private, 2 protected, 3 public. It is 0 where the file doesn't have it.
    pub fn access(self) -> u8
        ensures { result ≡ access_number self.0 }
    {
        (self.0 % 4) as u8
    }

    /// What a member function is: 1 is virtual, 2 static, 3 a friend, 4 virtual and in no base class, 5 pure, 6 pure
    /// and in no base class. It is 0 of every other function.
    pub fn method_properties(self) -> u8
        ensures { result ≡ method_number self.0 }
    {
        (self.0 / 4 % 8) as u8
    }

    /// Whether a member function is static.
    pub fn is_static(self) -> bool
        ensures { result ≡ (method_number self.0 == 2) }
    {
        self.method_properties() == 2
    }

    /// Whether a member function is virtual, isn't pure, and stands in a base class too.
    pub fn is_virtual(self) -> bool
        ensures { result ≡ (method_number self.0 == 1) }
    {
        self.method_properties() == 1
    }

    /// Whether a member function is pure and stands in a base class too.
    pub fn is_pure_virtual(self) -> bool
        ensures { result ≡ (method_number self.0 == 5) }
    {
        self.method_properties() == 5
    }

    /// Whether a member function is virtual, pure or not, and stands in no base class. Only then it has an offset in
    /// the table of virtual functions.
    pub fn is_intro_virtual(self) -> bool
        ensures { result ≡ is_introduced self.0 }
    {
        matches!(self.method_properties(), 4 | 6)
    }
}

/// A member of a class, a structure, a union or an enumeration. Offsets are in bytes from the start of the object. A
/// number behind the prefix `LF_CHAR` (0x8000) is `Variant::I8`.
#[derive(Clone, Copy, Debug, Eq, PartialEq)]
pub enum Member<'t> {
    /// A base class: `LF_BCLASS` (0x1400), `LF_BINTERFACE` (0x151a).
    BaseClass {
        /// Who may use the base class.
        attributes: FieldAttributes,
        /// The base class.
        base_type: TypeIndex,
        /// Where it stands.
        offset: Variant,
    },
    /// A virtual base class: `LF_VBCLASS` (0x1401), `LF_IVBCLASS` (0x1402).
    VirtualBaseClass {
        /// The type itself derives from the class, and not only a base class of it.
        direct: bool,
        /// Who may use the base class.
        attributes: FieldAttributes,
        /// The base class.
        base_type: TypeIndex,
        /// Where the pointer to the table of virtual base classes stands.
        base_pointer_offset: Variant,
        /// The entry of the base class in that table.
        base_offset: Variant,
    },
    /// A pointer to a table of virtual functions: `LF_VFUNCTAB` (0x1409).
    VirtualTablePointer {
        /// The type of the pointer.
        table: TypeIndex,
    },
    /// A pointer to a table of virtual functions at an offset: `LF_VFUNCOFF` (0x140c).
    VirtualTableOffset {
        /// The type of the pointer.
        table: TypeIndex,
        /// Where it stands.
        offset: i32,
    },
    /// A class that is a friend: `LF_FRIENDCLS` (0x140a).
    FriendClass {
        /// The class.
        class_type: TypeIndex,
    },
    /// A function that is a friend: `LF_FRIENDFCN` (0x150c).
    FriendFunction {
        /// The function's type.
        function: TypeIndex,
        /// The function's name.
        name: &'t [u8],
    },
    /// A value of an enumeration: `LF_ENUMERATE` (0x1502).
    Enumerate {
        /// Its attributes.
        attributes: FieldAttributes,
        /// The value as it is stored; `enumerator_value` has it as a number of the underlying type.
        value: Variant,
        /// Its name.
        name: &'t [u8],
    },
    /// A data member: `LF_MEMBER` (0x150d).
    Member {
        /// Who may use the member.
        attributes: FieldAttributes,
        /// Its type.
        field_type: TypeIndex,
        /// Where it stands.
        offset: Variant,
        /// Its name.
        name: &'t [u8],
    },
    /// A static data member: `LF_STMEMBER` (0x150e).
    StaticMember {
        /// Who may use the member.
        attributes: FieldAttributes,
        /// Its type.
        field_type: TypeIndex,
        /// Its name.
        name: &'t [u8],
    },
    /// Member functions of one name: `LF_METHOD` (0x150f).
    Method {
        /// How many functions have the name.
        count: u16,
        /// The list of the functions, which `OverloadIter` reads.
        method_list: TypeIndex,
        /// The name.
        name: &'t [u8],
    },
    /// A type that stands in this one: `LF_NESTTYPE` (0x1510), `LF_NESTTYPEEX` (0x1512).
    Nested {
        /// The type.
        nested_type: TypeIndex,
        /// Its name.
        name: &'t [u8],
    },
    /// A member function: `LF_ONEMETHOD` (0x1511).
    OneMethod {
        /// Who may use the function, and what it is.
        attributes: FieldAttributes,
        /// The function's type.
        method_type: TypeIndex,
        /// The function's offset in the table of virtual functions, where it is introduced.
        vtable_offset: Option<u32>,
        /// The function's name.
        name: &'t [u8],
    },
    /// More than 1,024 lists go on in one another: the members of the others aren't read. Nothing follows.
    More,
    /// An error of the file: the list of members continues in itself. It leads to a list that was read for these
    /// members already, which isn't read again. Nothing follows.
    Endless,
}
