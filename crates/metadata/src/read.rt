// The rows of the two tables: how each is read, field by field, where its octets stand, and what stands past the last one.
ghost use Rattle.std.specs.Prelude.{◌≡◌, refl};
ghost use Rattle.metadata.specs.Tables.{note_at, link_at, no_note, no_link};

use crate::{LinkRow, NoteRow};
use listing::{LinkTable, NoteTable};
use pack::Row;

impl Row for NoteRow {
    ghost size = { 16 };

    ghost read_as = { note_at };

    ghost blank = { no_note };

    ghost some = { refl };

    fn size() -> usize {
        NoteTable::ROW as usize
    }

    fn blank() -> Self {
        Self::default()
    }

    fn read(s: &[u8], at: usize) -> Self {
        NoteRow {
            id: octets::long(s, at),
            scope: octets::name_at(s, at + 8),
        }
    }
}

impl Row for LinkRow {
    ghost size = { 64 };

    ghost read_as = { link_at };

    ghost blank = { no_link };

    ghost some = { refl };

    fn size() -> usize {
        LinkTable::ROW as usize
    }

    fn blank() -> Self {
        Self::default()
    }

    fn read(s: &[u8], at: usize) -> Self {
        LinkRow {
            scope: octets::name_at(s, at),
            table: octets::text_at(s, at + 8),
            column: octets::text_at(s, at + 16),
            timestamp: octets::name_at(s, at + 24),
            row_id: octets::long(s, at + 32),
            file_id: octets::long(s, at + 40),
            parent_id: octets::long(s, at + 48),
            flags: octets::word(s, at + 56),
        }
    }
}
