//! Worked examples: texts that spell vectors and texts that spell none, and copies.

use crate::{BitVector, Field, Key, Kind, List, Memory, Row, Schema, Text, VectorError};
use std::alloc::Global;
use std::test::Fail;

#[test]
fn a_text_that_spells_no_vector_is_refused(rt: HostRuntime) -> Result<(), Fail> {
    let alloc = rt.alloc();
    for (text, want) in [
        ("0", VectorError::WrongLength { digits: 1 }),
        ("0g0", VectorError::WrongLength { digits: 3 }),
        ("0g", VectorError::NotHex { at: 1 }),
        ("g0", VectorError::NotHex { at: 0 }),
    ] {
        let text = Text::copied(alloc, text)?;
        let refusal = BitVector::from_hex(alloc, &text, 8).err();
        assert_eq!(rt; refusal, Some(want));
    }
    Ok(())
}

#[test]
fn a_vector_is_written_in_lower_case(rt: HostRuntime) -> Result<(), Fail> {
    let alloc = rt.alloc();
    for (text, want) in [("0F", "0f"), ("aB", "ab"), ("70", "70")] {
        let vector = BitVector::from_digits(alloc, text, 8)?;
        let copy = vector.copy(alloc)?;
        assert_eq!(rt; vector.to_hex(alloc)?.as_str(), want);
        assert_eq!(rt; copy.to_hex(alloc)?.as_str(), want);
    }
    Ok(())
}

#[test]
fn bytes_stand_in_words_the_first_lowest(rt: HostRuntime) -> Result<(), Fail> {
    let alloc = rt.alloc();
    let given = [1, 2, 0, 0, 0, 0, 0, 0x80, 0xff];
    let vector = BitVector::from_bytes(alloc, &given)?;
    assert_eq!(rt; vector.dim(), 72);
    assert_eq!(rt; vector.words(), [0x8000_0000_0000_0201, 0xff].as_slice());
    let mut bytes = Vec::new(alloc);
    bytes.push(7)?;
    vector.append_bytes(&mut bytes)?;
    assert_eq!(rt;
        bytes.as_slice(),
        [7, 1, 2, 0, 0, 0, 0, 0, 0x80, 0xff].as_slice()
    );
    Ok(())
}

fn a_row(alloc: Global) -> Result<Row, Memory> {
    let mut fields = Vec::new(alloc);
    fields.push(Field::Int(-3))?;
    fields.push(Field::Text(Text::copied(alloc, "0f")?))?;
    Ok(Row {
        key: Key(-7),
        vector: BitVector::from_bytes(alloc, &[0x0f])?,
        fields: List::of(fields),
    })
}

#[test]
fn a_copied_row_has_the_same_parts(rt: HostRuntime) -> Result<(), Fail> {
    let row = a_row(rt.alloc())?.copy(rt.alloc())?;
    assert_eq!(rt; row.key, Key(-7));
    assert_eq!(rt; row.vector.to_hex(rt.alloc())?.as_str(), "0f");
    let same = match row.fields.as_slice() {
        [Field::Int(number), Field::Text(text)] => *number == -3 && text.is("0f"),
        _ => false,
    };
    assert!(rt; same);
    Ok(())
}

#[test]
fn a_copied_text_is_the_same_text(rt: HostRuntime) -> Result<(), Fail> {
    let text = Text::copied(rt.alloc(), "0f")?;
    let copy = text.copy(rt.alloc())?;
    assert_eq!(rt; copy.as_str(), "0f");
    assert_eq!(rt; text.as_str(), "0f");
    Ok(())
}

#[test]
fn a_copied_field_has_the_same_value(rt: HostRuntime) -> Result<(), Fail> {
    let alloc = rt.alloc();
    let number = Field::Int(-3).copy(alloc)?;
    let truth = Field::Bool(true).copy(alloc)?;
    let text = Field::Text(Text::copied(alloc, "0f")?).copy(alloc)?;
    let same = match (&number, &truth, &text) {
        (Field::Int(number), Field::Bool(truth), Field::Text(text)) => {
            *number == -3 && *truth && text.is("0f")
        }
        _ => false,
    };
    assert!(rt; same);
    Ok(())
}

fn a_schema(alloc: Global) -> Result<Schema, Memory> {
    let mut columns = Vec::new(alloc);
    columns.push((Text::copied(alloc, "n")?, Kind::Bool))?;
    Ok(Schema {
        columns: List::of(columns),
    })
}

#[test]
fn a_copied_schema_has_the_same_columns(rt: HostRuntime) -> Result<(), Fail> {
    let schema = a_schema(rt.alloc())?.copy(rt.alloc())?;
    let same = match schema.columns.as_slice() {
        [(name, kind)] => name.is("n") && *kind == Kind::Bool,
        _ => false,
    };
    assert!(rt; same);
    Ok(())
}
