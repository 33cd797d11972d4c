//! Which columns a collection may have.

ghost use Rattle.std.specs.Prelude.{◌≡◌};
ghost use Rattle.std.specs.List.{list_any, list_all};
ghost use Rattle.std.specs.Str.{bytes_eq};
ghost use Rattle.coarse_lists.specs.Schemas.{taken_names, is_letter, is_name_byte, is_word, is_column_name, has_column, are_different, is_schema};

use row_types::{Kind, Text};

/// The most columns of a collection.
const MAX_COLUMNS: usize = 16;

/// The most bytes of a column's name.
const MAX_NAME: usize = 64;

/// Whether a collection may have these columns: at most 16, with names that are allowed and differ.
pub fn is_schema(columns: &[(Text, Kind)]) -> bool
    ensures { result ≡ is_schema columns.now }
{
    columns.len() <= MAX_COLUMNS && have_names(columns) && are_different(columns)
}

fn have_names(columns: &[(Text, Kind)]) -> bool
    ensures { result ≡ list_all (λ column. is_column_name column.0) columns.now }
{
    columns
        .iter()
        .all(|column| is_column_name(column.0.as_str()))
}

/// Whether a column may have this name: 1 to 64 bytes, a letter or `_`, then letters, digits or `_`,
/// and no word of the filter language.
pub fn is_column_name(name: &str) -> bool
    ensures { result ≡ is_column_name name.now }
{
    is_word(name.as_bytes()) && name.len() <= MAX_NAME && !is_taken(name)
}

fn is_taken(name: &str) -> bool
    ensures { result ≡ list_any (bytes_eq name.now) taken_names }
{
    matches!(name, "key" | "and" | "or" | "not" | "in" | "true" | "false")
}

fn is_letter(byte: u8) -> bool
    ensures { result ≡ is_letter byte }
{
    byte.is_ascii_alphabetic() || byte == b'_'
}

fn is_name_byte(byte: u8) -> bool
    ensures { result ≡ is_name_byte byte }
{
    is_letter(byte) || byte.is_ascii_digit()
}

fn are_name_bytes(bytes: &[u8]) -> bool
    ensures { result ≡ list_all is_name_byte bytes.now }
{
    bytes.iter().all(|b| is_name_byte(*b))
}

fn is_word(name: &[u8]) -> bool
    ensures { result ≡ is_word name.now }
{
    match name.split_first() {
        Some((first, others)) => is_letter(*first) && are_name_bytes(others),
        None => false,
    }
}

fn has_column(columns: &[(Text, Kind)], name: &str) -> bool
    ensures { result ≡ has_column columns.now name.now }
{
    columns.iter().any(|column| column.0.as_str() == name)
}

fn are_different(columns: &[(Text, Kind)]) -> bool
    ensures { result ≡ are_different columns.now }
{
    let mut rest = columns;
    while let Some((column, others)) = rest.split_first() {
        if has_column(others, column.0.as_str()) {
            return false;
        }
        rest = others;
    }
    true
}

#[cfg(test)]
mod tests {
    use super::*;
    use row_types::Memory;
    use std::alloc::Global;

    #[test]
    fn a_name_is_a_word_of_64_bytes_that_is_not_taken(rt: HostRuntime) {
        const LONGEST: &str = "a_name_of_64_bytes__________________________________________zzzz";
        for name in ["_", "lang", "Year2", "keys", LONGEST] {
            assert!(rt; is_column_name(name), "at {name}");
        }
        const LONGER: &str = "a_name_of_65_bytes___________________________________________zzzz";
        for name in [
            "",
            "2year",
            "a-b",
            "a b",
            "jahr\u{e4}",
            "key",
            "and",
            "or",
            "not",
            "in",
            "true",
            "false",
            LONGER,
        ] {
            assert!(rt; !is_column_name(name), "at {name}");
        }
    }

    fn columns(alloc: Global, names: &[&str]) -> Result<Vec<(Text, Kind)>, Memory> {
        let mut columns = Vec::new(alloc);
        for name in names {
            columns.push((Text::copied(alloc, *name)?, Kind::Bool))?;
        }
        Ok(columns)
    }

    #[test]
    fn a_collection_has_at_most_16_columns_of_different_names(
        rt: HostRuntime,
    ) -> Result<(), Memory> {
        let alloc = rt.alloc();
        let letters = [
            "a", "b", "c", "d", "e", "f", "g", "h", "i", "j", "k", "l", "m", "n", "o", "p", "q",
        ];
        assert!(rt; is_schema(&columns(alloc, &[])?));
        assert!(rt; is_schema(&columns(alloc, &letters[..16])?));
        assert!(rt; !is_schema(&columns(alloc, &letters)?));
        assert!(rt; !is_schema(&columns(alloc, &["a", "b", "a"])?));
        assert!(rt; !is_schema(&columns(alloc, &["a", "key"])?));
        Ok(())
    }
}
