//! What a name is.
ghost use Rattle.std.specs.Prelude.{◌≡◌, false, IsTrue, IfSome, IfNone};
ghost use Rattle.std.specs.List.{list_all};
ghost use Rattle.catalogue_rows.specs.Names.{is_name, is_name_byte};

/// The most bytes of a name.
pub const MOST_NAME: usize = 64;

fn is_name_byte(byte: u8) -> bool
    ensures { result ≡ is_name_byte byte }
{
    byte >= 32 && byte != 127
}

fn are_name_bytes(field: &[u8]) -> bool
    ensures { result ≡ list_all is_name_byte field.now }
{
    field.iter().all(|byte| is_name_byte(*byte))
}

/// The name that a field is, if it is one.
pub fn read_name(field: &[u8]) -> Option<&str>
    ensures name { IfSome result (λ name. (name.now ≡ field.now) × IsTrue (is_name field.now)) }
    ensures refused { IfNone result (is_name field.now ≡ false) }
{
    if field.is_empty() || field.len() > MOST_NAME || !are_name_bytes(field) {
        return None;
    }
    str::from_utf8(field).ok()
}
