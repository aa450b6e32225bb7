// The words of scopes: the names of Table 21 for notes, five words for links.
ghost use Rattle.std.specs.Prelude.{◌≡◌};
ghost use Rattle.octets.specs.Search.{any};
ghost use Rattle.metadata.specs.Rules.{is_note_scope, scope_of, is_other, wants_no_table, wants_no_column, wants_no_row};

use crate::Scope;
use octets::equal;

// The names of Table 21.
const NOTE_SCOPES: [&[u8]; 19] = [
    b"undefined",
    b"fieldSession",
    b"collectionSession",
    b"series",
    b"dataset",
    b"featureType",
    b"feature",
    b"attributeType",
    b"attribute",
    b"tile",
    b"model",
    b"catalog",
    b"schema",
    b"taxonomy",
    b"software",
    b"service",
    b"collectionHardware",
    b"nonGeographicDataset",
    b"dimensionGroup",
];

// A text is one of them.
pub fn has_note_scope(x: &[u8]) -> bool
    ensures { result ≡ any (is_note_scope x.now) 19 }
{
    NOTE_SCOPES.iter().any(|name| equal(x, name))
}

// By its word. A match on octets would have a goal for each octet of each word.
impl From<&[u8]> for Scope {
    ghost from_gives = { λ x s. s ≡ scope_of x.now };

    fn from(x: &[u8]) -> Scope {
        if equal(x, b"geopackage") {
            Scope::Geopackage
        } else if equal(x, b"table") {
            Scope::Table
        } else if equal(x, b"column") {
            Scope::Column
        } else if equal(x, b"row") {
            Scope::Row
        } else if equal(x, b"row/col") {
            Scope::RowColumn
        } else {
            Scope::Other
        }
    }
}

impl Scope {
    pub fn is_other(self) -> bool
        ensures { result ≡ is_other self }
    {
        matches!(self, Scope::Other)
    }

    // Whose table_name, column_name and row_id_value are to be NULL.
    pub fn wants_no_table(self) -> bool
        ensures { result ≡ wants_no_table self }
    {
        matches!(self, Scope::Geopackage)
    }

    pub fn wants_no_column(self) -> bool
        ensures { result ≡ wants_no_column self }
    {
        matches!(self, Scope::Geopackage | Scope::Table | Scope::Row)
    }

    pub fn wants_no_row(self) -> bool
        ensures { result ≡ wants_no_row self }
    {
        matches!(self, Scope::Geopackage | Scope::Table | Scope::Column)
    }
}
