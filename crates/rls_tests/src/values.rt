//! The texts of refusals and objects, names, truth, and the listing order, from the outside.

use crate::states::says;
use rls_value::{
    Cause, DefinedKind, GrantFault, Kind, Limit, Name, NameKind, Object, Refusal, Row, RowId, Tag,
    Text, Truth, TxnState, Value, Why, cmp_values,
};
use std::alloc::{AllocError, Global};
use std::cmp::Ordering;

/// A refusal of each kind without a name.
fn unnamed(number: u32) -> Refusal {
    match number {
        1 => Refusal::NoMemory,
        2 => Refusal::Syntax,
        3 => Refusal::Limit(Limit::Name),
        4 => Refusal::TxnState(TxnState::ReadOnly(Tag::CreateRole)),
        8 => Refusal::TypeFault,
        9 => Refusal::Unsupported,
        _ => Refusal::BadAudit(3),
    }
}

/// A refusal of each kind with a name, which is `t`.
fn named(number: u32, t: Name) -> Refusal {
    match number {
        5 => Refusal::NoLogin(Some(t)),
        6 => Refusal::Undefined(NameKind::Column, t),
        7 => Refusal::Duplicate(DefinedKind::Relation, t),
        10 => Refusal::Recursion(t),
        11 => Refusal::Denied(Why::NoPermissive(t, Kind::Insert)),
        12 => Refusal::GrantOp(GrantFault::Back(t)),
        13 => Refusal::Dependent(t),
        14 => Refusal::Range(t),
        15 => Refusal::NotNull(t),
        16 => Refusal::Unique(t),
        _ => Refusal::Serial(Cause::Written(Object::RowOf(t, RowId { txn: 10, n: 1 }), 17)),
    }
}

/// A refusal of each kind.
fn refusal(alloc: Global, number: u32) -> Result<Refusal, Refusal> {
    match number {
        1..=4 | 8 | 9 | 18 => Ok(unnamed(number)),
        _ => Ok(named(number, Name::new(alloc, "T")?)),
    }
}

/// The code and the text of each kind of refusal.
fn wanted(number: u32) -> &'static str {
    match number {
        1 => "53200 out of memory",
        2 => "42601 syntax error",
        3 => "42622 name too long",
        4 => "25006 cannot execute CREATE ROLE in a read-only transaction",
        5 => "28000 role \"t\" may not log in",
        6 => "42703 column \"t\" does not exist",
        7 => "42P07 relation \"t\" already exists",
        8 => "42804 types do not match",
        9 => "0A000 not supported",
        10 => "42P17 infinite recursion detected in policy for relation \"t\"",
        11 => {
            "42501 new row violates row-level security policy for table \"t\": no permissive INSERT policy passes"
        }
        12 => "0LP01 grant options cannot be granted back to the grantor",
        13 => "2BP01 dependent privileges exist",
        14 => "22003 value out of range for column \"t\"",
        15 => "23502 null value in column \"t\" violates not-null constraint",
        16 => "23505 duplicate key value violates the primary key of table \"t\"",
        17 => "40001 could not serialize access: row 10.1 of t was written by 17",
        _ => " bad audit line 3",
    }
}

/// Each kind of refusal once, with its code and its text.
#[test]
fn refusals_have_their_texts(rt: HostRuntime) {
    for number in 1..19 {
        let is = reads_as(rt.alloc(), number, wanted(number));
        assert!(rt; says(is, true), "{number}");
    }
}

/// Whether a copy of the refusal has the code and the text.
fn reads_as(alloc: Global, number: u32, want: &str) -> Result<bool, Refusal> {
    let refusal = refusal(alloc, number)?;
    let copied = refusal.copy(alloc);
    drop(refusal);
    let copy = copied?;
    let is = is_told(alloc, &copy, want);
    drop(copy);
    Ok(is?)
}

fn is_told(alloc: Global, refusal: &Refusal, want: &str) -> Result<bool, AllocError> {
    let code = refusal.code();
    let printed = format!(in alloc; "{code} {refusal}")?;
    let is = printed.as_str() == want;
    drop(printed);
    Ok(is)
}

/// The values of a key.
fn key_values(alloc: Global) -> Result<Vec<Value>, AllocError> {
    let text = Text::new(alloc, "it's")?;
    Ok(vec![in alloc; Value::Text(text), Value::Int(-7), Value::Null]?)
}

fn key(alloc: Global) -> Result<Object, AllocError> {
    let row = Row::new(key_values(alloc)?)?;
    match Name::postgres(alloc) {
        Ok(table) => Ok(Object::Key(table, row)),
        Err(refused) => {
            drop(row);
            Err(refused)
        }
    }
}

/// Whether a copy of the object has the text.
fn is_written(alloc: Global, object: &Object, text: &str) -> Result<bool, AllocError> {
    let copy = object.copy(alloc)?;
    let printed = copy.to_string(alloc);
    drop(copy);
    let printed = printed?;
    let is = printed.as_str() == text;
    drop(printed);
    Ok(is)
}

/// Whether a key has the text, with its values as literals.
fn key_reads_as(alloc: Global, text: &str) -> Result<bool, Refusal> {
    let key = key(alloc)?;
    let is = is_written(alloc, &key, text);
    drop(key);
    Ok(is?)
}

/// The text of a key, with its values as literals.
#[test]
fn keys_have_their_text(rt: HostRuntime) {
    let is = key_reads_as(rt.alloc(), "key ('it''s', -7, NULL) of postgres");
    assert!(rt; says(is, true));
}

/// Whether the second value of the key's row is the number.
fn second_is(alloc: Global, number: i64) -> Result<bool, Refusal> {
    let row = Row::new(key_values(alloc)?)?;
    let second = row.value(1);
    drop(row);
    let second = second?;
    let equal = second.equals(&Value::Int(number));
    drop(second);
    Ok(equal.is_true())
}

#[test]
fn row_gives_its_values(rt: HostRuntime) {
    assert!(rt; says(second_is(rt.alloc(), -7), true));
}

/// A text of over 63 bytes is too long whatever it is; other texts that are no names are syntax errors.
#[test]
fn names_are_folded_or_refused(rt: HostRuntime) {
    let rows = [
        ("Users_1", "users_1"),
        ("", "42601"),
        ("1a", "42601"),
        ("a b", "42601"),
        ("Select", "42601"),
        (
            "1234567890123456789012345678901234567890123456789012345678901234",
            "42622",
        ),
    ];
    for (text, want) in rows {
        assert!(rt; is_named(rt.alloc(), text, want), "{text}");
    }
}

/// Whether the text is that name, or is refused with that code.
fn is_named(alloc: Global, text: &str, want: &str) -> bool {
    let named = Name::new(alloc, text);
    let is = match &named {
        Ok(name) => name.as_str() == want,
        Err(refusal) => refusal.code() == want,
    };
    drop(named);
    is
}

/// AND and OR of Kleene's logic, from the SQL standard.
#[test]
fn truth_tables(rt: HostRuntime) {
    let rows = [
        (Truth::True, Truth::Unknown, Truth::Unknown, Truth::True),
        (Truth::False, Truth::Unknown, Truth::False, Truth::Unknown),
        (
            Truth::Unknown,
            Truth::Unknown,
            Truth::Unknown,
            Truth::Unknown,
        ),
        (Truth::True, Truth::False, Truth::False, Truth::True),
    ];
    for (left, right, both, either) in rows {
        assert!(rt; left.and(right) == both, "{left:?} and {right:?}");
        assert!(rt; right.or(left) == either, "{right:?} or {left:?}");
    }
}

fn comes_before(first: &Value, second: &Value) -> bool {
    cmp_values(first, second) == Ordering::Less
}

/// Null last, false before true, numbers by size.
#[test]
fn values_are_listed(rt: HostRuntime) {
    assert!(rt; comes_before(&Value::Int(-1), &Value::Int(2)), "-1 and 2");
    assert!(rt; comes_before(&Value::Int(9), &Value::Null), "9 and NULL");
    assert!(rt;
        comes_before(&Value::Bool(false), &Value::Bool(true)),
        "FALSE and TRUE"
    );
}
