use crate::{FilterError, holds, parse, print};
use row_types::{
    BitVector, CompareOp, Field, Filter, Key, Kind, List, Memory, Operand, Row, Schema, Text,
};
use std::alloc::Global;

/// The columns `lang`, `year` and `live`, one of each kind.
fn schema(alloc: Global) -> Result<Schema, Memory> {
    let columns = vec![in alloc;
        (Text::copied(alloc, "lang")?, Kind::Text),
        (Text::copied(alloc, "year")?, Kind::Int),
        (Text::copied(alloc, "live")?, Kind::Bool),
    ]?;
    Ok(Schema {
        columns: List::of(columns),
    })
}

fn parsed(alloc: Global, text: &str) -> Result<Filter, FilterError> {
    let schema = schema(alloc)?;
    let text = Text::copied(alloc, text)?;
    parse(alloc, &text, &schema)
}

fn refusal(alloc: Global, text: &str) -> Option<FilterError> {
    parsed(alloc, text).err()
}

/// Whether a text is printed as `want`, and `want` as itself.
fn prints(alloc: Global, text: &str, want: &str) -> Result<bool, FilterError> {
    let schema = schema(alloc)?;
    let first = print(alloc, &parsed(alloc, text)?, &schema)?;
    let again = print(alloc, &parsed(alloc, first.as_str())?, &schema)?;
    Ok(first.is(want) && again.is(want))
}

#[test]
fn a_filter_is_printed_with_no_more_brackets_than_it_needs_and_read_back(rt: HostRuntime) {
    let cases = [
        ("!(key > 1 || key < 0)", "!(key > 1 || key < 0)"),
        ("live || live && live", "live || live && live"),
        ("(live || live) && live", "(live || live) && live"),
        ("live && (live && live)", "live && (live && live)"),
        ("live||(live or live)", "live || (live || live)"),
        ("((live))", "live"),
        ("not live and !!live", "!live && !!live"),
        ("year in [1,-2 , 03]", "year in [1, -2, 3]"),
        ("lang in []", "lang in []"),
        ("key<=-9223372036854775808", "key <= -9223372036854775808"),
        (
            "lang != \"a \\\"b\\\\ \u{e9}\"",
            "lang != \"a \\\"b\\\\ \u{e9}\"",
        ),
        ("live == false and key >= 5", "live == false && key >= 5"),
    ];
    for (text, want) in cases {
        let same = prints(rt.alloc(), text, want);
        assert_eq!(rt; same, Ok(true), "at {text}");
    }
}

#[test]
fn a_refusal_tells_the_first_place_outside_the_language(rt: HostRuntime) {
    let cases = [
        ("key == \"a\"", FilterError::KindMismatch { at: 7 }),
        ("nam", FilterError::UnknownField { at: 0 }),
        ("key ==", FilterError::Expected { at: 6 }),
        ("key # 1", FilterError::BadToken { at: 4 }),
        ("nam # 1", FilterError::BadToken { at: 4 }),
        (
            "key == 9223372036854775808",
            FilterError::BadToken { at: 7 },
        ),
        ("lang == \"ab", FilterError::BadToken { at: 8 }),
        ("lang == \"\\x\"", FilterError::BadToken { at: 8 }),
        ("live < true", FilterError::KindMismatch { at: 5 }),
        ("year && live", FilterError::KindMismatch { at: 0 }),
        ("year in [1, \"a\"]", FilterError::KindMismatch { at: 12 }),
        ("year in [1,]", FilterError::Expected { at: 11 }),
        ("live live", FilterError::Expected { at: 5 }),
        ("true == true", FilterError::Expected { at: 0 }),
        ("", FilterError::Expected { at: 0 }),
        (
            "!!!!!!!!!!!!!!!!!!!!!!!!!!!!!!!!!true == true",
            FilterError::TooDeep { at: 32 },
        ),
    ];
    for (text, want) in cases {
        assert_eq!(rt; refusal(rt.alloc(), text), Some(want), "at {text}");
    }
}

/// Whether a filter is `!(key > 1 || key < 0)`.
fn is_the_example(filter: &Filter) -> bool {
    let Filter::Not(inner) = filter else {
        return false;
    };
    let Filter::Any(members) = inner.get() else {
        return false;
    };
    matches!(
        members.as_slice(),
        [
            Filter::Compare {
                left: Operand::Key,
                op: CompareOp::Greater,
                right: Field::Int(1),
            },
            Filter::Compare {
                left: Operand::Key,
                op: CompareOp::Less,
                right: Field::Int(0),
            },
        ]
    )
}

#[test]
fn a_negated_choice_is_read_as_its_tree(rt: HostRuntime) {
    let filter = parsed(rt.alloc(), "!(key > 1 || key < 0)");
    assert!(rt; filter.is_ok_and(|filter| is_the_example(&filter)));
}

/// Whether a filter passes a row with the key 7 and the fields `en`, 2021 and false.
fn passes(alloc: Global, text: &str) -> Result<bool, FilterError> {
    let Ok(vector) = BitVector::from_hex(alloc, &Text::copied(alloc, "0f")?, 8) else {
        return Err(FilterError::Memory);
    };
    let fields = vec![in alloc;
        Field::Text(Text::copied(alloc, "en")?),
        Field::Int(2021),
        Field::Bool(false),
    ]?;
    let row = Row {
        key: Key(7),
        vector,
        fields: List::of(fields),
    };
    let filter = parsed(alloc, text)?;
    Ok(holds(&filter, &row))
}

#[test]
fn a_row_passes_by_the_order_of_numbers_and_of_bytes(rt: HostRuntime) {
    let cases = [
        ("lang == \"en\"", true),
        ("lang < \"eo\" && lang > \"e\"", true),
        ("lang < \"Z\"", false),
        ("year in [2020, 2021]", true),
        ("year in []", false),
        ("!(year in [])", true),
        ("live", false),
        ("live != true", true),
        ("key >= 7 && key <= 7", true),
        ("live || key < 7", false),
    ];
    for (text, want) in cases {
        assert_eq!(rt; passes(rt.alloc(), text), Ok(want), "at {text}");
    }
}
