//! Which kinds start a scope, and which end one.

ghost use Rattle.std.specs.Prelude.{◌≡◌};
ghost use Rattle.pdb_symbols.specs.Scopes.{older_starts, newer_starts, starts_of, ends_of};

#[inline]
fn older_starts_scope(kind: u16) -> bool
    ensures { result ≡ older_starts kind }
{
    matches!(
        kind,
        0x0104
            | 0x0105
            | 0x0106
            | 0x0107
            | 0x0108
            | 0x0206
            | 0x0207
            | 0x0208
            | 0x100a
            | 0x100b
            | 0x1010
            | 0x1011
            | 0x1015
            | 0x1016
            | 0x101a
            | 0x101b
    )
}

#[inline]
fn newer_starts_scope(kind: u16) -> bool
    ensures { result ≡ newer_starts kind }
{
    matches!(
        kind,
        0x1102
            | 0x1103
            | 0x1104
            | 0x110f
            | 0x1110
            | 0x1114
            | 0x1115
            | 0x1118
            | 0x1119
            | 0x112a
            | 0x112b
            | 0x1132
            | 0x1146
            | 0x1147
            | 0x1148
            | 0x1149
            | 0x114a
            | 0x114b
            | 0x114d
            | 0x1155
            | 0x1156
            | 0x115d
    )
}

// Whether a record of this kind starts a scope.
#[inline]
pub(crate) fn kind_starts_scope(kind: u16) -> bool
    ensures { result ≡ starts_of kind }
{
    if kind < 0x1100 {
        older_starts_scope(kind)
    } else {
        newer_starts_scope(kind)
    }
}

// Whether a record of this kind ends a scope.
#[inline]
pub(crate) fn kind_ends_scope(kind: u16) -> bool
    ensures { result ≡ ends_of kind }
{
    matches!(kind, 0x0006 | 0x114e | 0x114f)
}
