//! The kinds of limits that a file names.
ghost use Rattle.std.specs.Prelude.{◌≡◌};
ghost use Rattle.catalogue.specs.LimitTables.{kind_named};

/// The kinds of limits that a row may state.
#[derive(Clone, Copy, Debug, PartialEq, Eq)]
pub(crate) enum LimitKind {
    Total,
    Category,
    Requires,
    Shelf,
    Ladder,
}

/// The kind that a text names.
pub(crate) fn kind_named(text: &[u8]) -> Option<LimitKind>
    ensures { result ≡ kind_named text.now }
{
    if text == b"total".as_slice() {
        Some(LimitKind::Total)
    } else if text == b"category".as_slice() {
        Some(LimitKind::Category)
    } else if text == b"requires".as_slice() {
        Some(LimitKind::Requires)
    } else if text == b"shelf".as_slice() {
        Some(LimitKind::Shelf)
    } else if text == b"ladder".as_slice() {
        Some(LimitKind::Ladder)
    } else {
        None
    }
}
