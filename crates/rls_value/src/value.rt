//! Values of columns: how they compare, in which order they are listed, which column types they fit.

ghost use Rattle.std.specs.Prelude.{◌≡◌, IfOk, ◌∷◌, ◌++◌, []};
ghost use Rattle.std.specs.{Fmt.WritesOnOk, List.flat_map, Str.chars, Cmp.IsTotalOrder};
ghost use Rattle.rls_value.specs.Values as spec;
ghost use Rattle.rls_value.specs.Values.{listed, fits_type, equal_values, less_values, truth_in};

use crate::text::Text;
use crate::truth::Truth;
use std::alloc::AllocError;
use std::cmp::Ordering;
use std::fmt;
use std::fmt::Write;

/// The value of a column, or null.
#[derive(Drop)]
pub enum Value {
    Null,
    /// A whole number of 64 bits.
    Int(i64),
    Text(Text),
    Bool(bool),
}

/// The type of a column (PostgreSQL manual, 8.1, 8.3, 8.6).
#[derive(Clone, Copy, PartialEq, Eq)]
pub enum ColType {
    /// A whole number of 32 bits with its sign.
    Integer,
    /// A whole number of 64 bits with its sign.
    BigInt,
    Text,
    Boolean,
}

impl Value {
    /// The truth value of a boolean: unknown for null. What is no boolean is false; no checked expression asks that.
    pub fn truth(&self) -> Truth
        ensures { result ≡ truth_in self.now }
    {
        match self {
            Value::Bool(flag) => Truth::from_bool(*flag),
            Value::Null => Truth::Unknown,
            Value::Int(_) | Value::Text(_) => Truth::False,
        }
    }

    pub fn copy(&self) -> Result<Value, AllocError>
        ensures { IfOk result (λ value. value ≡ self.now) }
    {
        match self {
            Value::Null => Ok(Value::Null),
            Value::Int(number) => Ok(Value::Int(*number)),
            Value::Text(text) => Ok(Value::Text(text.copy()?)),
            Value::Bool(flag) => Ok(Value::Bool(*flag)),
        }
    }

    pub fn is_null(&self) -> bool
        ensures { result ≡ spec.is_null self.now }
    {
        matches!(self, Value::Null)
    }

    /// SQL's `=`: unknown where either side is null (PostgreSQL manual, 9.2).
    pub fn equals(&self, other: &Value) -> Truth
        ensures { result ≡ equal_values self.now other.now }
    {
        match (self, other) {
            (Value::Int(left), Value::Int(right)) => Truth::from_bool(*left == *right),
            (Value::Text(left), Value::Text(right)) => Truth::from_bool(left.is(right)),
            (Value::Bool(left), Value::Bool(right)) => Truth::from_bool(*left == *right),
            (_, _) => Truth::Unknown,
        }
    }

    /// SQL's `<`: unknown where either side is null.
    pub fn is_less(&self, other: &Value) -> Truth
        ensures { result ≡ less_values self.now other.now }
    {
        match (self, other) {
            (Value::Int(left), Value::Int(right)) => Truth::from_bool(*left < *right),
            (Value::Text(left), Value::Text(right)) => {
                Truth::from_bool(left.compare(right) == Ordering::Less)
            }
            (Value::Bool(left), Value::Bool(right)) => Truth::from_bool(!*left && *right),
            (_, _) => Truth::Unknown,
        }
    }
}

/// The order in which rows are listed: null last, false before true, numbers by size, texts by bytes.
/// Between values of different types, which no column has, numbers come first, then texts, then booleans.
#[inline(always)]
#[tactic(auto, using(crate::specs::Listing::listed_total))]
pub fn cmp_values(left: &Value, right: &Value) -> Ordering
    ensures order { result ≡ listed left.now right.now }
    ensures total { IsTotalOrder listed }
{
    match (left, right) {
        (Value::Int(left), Value::Int(right)) => left.cmp(right),
        (Value::Text(left), Value::Text(right)) => left.compare(right),
        (Value::Bool(left), Value::Bool(right)) => left.cmp(right),
        (_, _) => rank(left).cmp(&rank(right)),
    }
}

fn rank(value: &Value) -> u8
    ensures { result ≡ spec.rank_of value.now }
{
    match value {
        Value::Int(_) => 0,
        Value::Text(_) => 1,
        Value::Bool(_) => 2,
        Value::Null => 3,
    }
}

/// Whether the value may stand in a column of that type: it is null, or of the type and within its range.
pub fn fits(value: &Value, column: ColType) -> bool
    ensures { result ≡ fits_type value.now column }
{
    match (value, column) {
        (Value::Null, _) => true,
        (Value::Int(number), ColType::Integer) => -2147483648 <= *number && *number <= 2147483647,
        (Value::Int(number), ColType::BigInt) => i64::MIN <= *number && *number <= i64::MAX,
        (Value::Text(_), ColType::Text) => true,
        (Value::Bool(_), ColType::Boolean) => true,
        (_, _) => false,
    }
}

/// As a literal of SQL: `NULL`, `-7`, `'it''s'`, `TRUE`.
impl fmt::Display for Value {
    ghost use Rattle.std.specs.Prelude.{Some};
    ghost use Rattle.rls_value.specs.Values.{literal_text};

    ghost output = { λ value. Some (literal_text value) };

    fn fmt<W: fmt::Write>(&self, f: &mut fmt::Formatter<W>) -> fmt::Result {
        match self {
            Value::Null => f.write_str("NULL"),
            Value::Int(number) => write!(f, "{number}"),
            Value::Text(text) => write_quoted(f, text.as_str()),
            Value::Bool(true) => f.write_str("TRUE"),
            Value::Bool(false) => f.write_str("FALSE"),
        }
    }
}

fn write_quoted<W: fmt::Write>(f: &mut fmt::Formatter<W>, text: &str) -> fmt::Result
    ensures { WritesOnOk W.write_str_gives f.old result (39 ∷ flat_map spec.within_quotes (chars text.now) ++ 39 ∷ []) f.new }
{
    f.write_char('\'')?;
    write_content(f, text)?;
    f.write_char('\'')
}

fn write_content<W: fmt::Write>(f: &mut fmt::Formatter<W>, text: &str) -> fmt::Result
    ensures { WritesOnOk W.write_str_gives f.old result (flat_map spec.within_quotes (chars text.now)) f.new }
{
    for c in text.chars() {
        write_within_quotes(f, c)?;
    }
    Ok(())
}

fn write_within_quotes<W: fmt::Write>(f: &mut fmt::Formatter<W>, c: char) -> fmt::Result
    ensures { WritesOnOk W.write_str_gives f.old result (spec.within_quotes c) f.new }
{
    if c == '\'' {
        f.write_str("''")
    } else {
        f.write_char(c)
    }
}
