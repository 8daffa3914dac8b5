// Whether a field is bad.

ghost use Rattle.std.specs.Prelude.{◌≡◌};
ghost use Rattle.links.specs.Fields.{missing, foreign, first_field};

use line::{ImportRecordIdx, ModuleIdx, RecordRow};

// A number that names none of these rows.
pub(crate) fn missing<T>(rows: &[T], number: u16) -> bool
    ensures { result ≡ missing rows.now number }
{
    usize::from(number) >= rows.len()
}

// A record that is missing, or belongs to another module.
pub(crate) fn foreign(records: &[RecordRow], record: ImportRecordIdx, module: ModuleIdx) -> bool
    ensures { result ≡ foreign records.now «record» «module» }
{
    records
        .get(usize::from(record))
        .is_none_or(|row| row.module != module)
}

// The number of the first bad field, where each is told with whether it is bad.
pub(crate) fn first_field(fields: &[(u8, bool)]) -> Option<u8>
    ensures { result ≡ first_field fields.now }
{
    fields.iter().find(|field| field.1).map(|field| field.0)
}
