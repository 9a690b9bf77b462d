//! The line of a damage.
ghost use Rattle.std.specs.Prelude.{◌≡◌, IfOk, string_bytes};
ghost use Rattle.pos_text.specs.Texts.{damage_line, field_name};

use pos_layout::{Damage, HeaderField};
use std::alloc::{AllocError, Global};

/// The line of a damage.
pub fn damage_line(alloc: Global, damage: &Damage) -> Result<String, AllocError>
    ensures { IfOk result (λ line. string_bytes line ≡ damage_line damage.now) }
{
    match damage {
        Damage::NotOpen { length, gate } => format!(in alloc; "damage not-open {length} {gate}\n"),
        Damage::Header { field } => {
            let name = field_name(field);
            format!(in alloc; "damage header {name}\n")
        }
        Damage::Length { said, found } => format!(in alloc; "damage length {said} {found}\n"),
        Damage::Directory { table, park } => format!(in alloc; "damage directory {table} {park}\n"),
        Damage::Digest { table, park } => format!(in alloc; "damage digest {table} {park}\n"),
        Damage::Form { table, park } => format!(in alloc; "damage form {table} {park}\n"),
        Damage::Pointer { table, at } => format!(in alloc; "damage pointer {table} {at}\n"),
        Damage::Order { table, at } => format!(in alloc; "damage order {table} {at}\n"),
        Damage::NotAProof { at } => format!(in alloc; "damage not-a-proof {at}\n"),
    }
}

// A field of the header, as a word.
fn field_name(field: &HeaderField) -> &'static str
    ensures { result.now ≡ field_name field.now }
{
    match field {
        HeaderField::Name => "name",
        HeaderField::Size => "size",
        HeaderField::Zeros => "zeros",
        HeaderField::Memo => "memo",
        HeaderField::Counts => "counts",
    }
}
