//! The values of a list, to be asked whether one of them is equal to another.

ghost use Rattle.std.specs.Prelude.{◌≡◌, ◌||◌, List, IfOk, OnOk, []};
ghost use Rattle.rls_value.specs.{declared.value.Value.Value as SqlValue, Values.listed, Values.rank_of};
ghost use Rattle.rls_evaluation.specs.{Items.any_equal, Items.is_some, Scoping.datum_value, Wides.wide_value};
ghost use Rattle.rls_value.specs.declared.value.Value.TheVariants as v;
ghost use Rattle.rls_evaluation.specs.ValueSets.{IsSetOf, IsSetWith, finds, is_flag, is_number, is_text, lets_open, three};

use crate::datum::Datum;
use rls_value::{Items, Name, Text, Truth, Value};
use std::alloc::{AllocError, Global};
use std::cmp::Ordering;
use std::collections::BTreeSet;
use std::marker::Model;

/// A value whose number has room for sums.
#[derive(Drop)]
pub enum Wide {
    Null,
    Int(i128),
    Text(Text),
    Bool(bool),
}

/// A value in the order of listing, seen as the value.
#[derive(Drop)]
pub struct Listed {
    value: Wide,
}

impl Model for Listed {
    ghost use Rattle.rls_value.specs.declared.value.Value.{Value as SqlValue};
    ghost use Rattle.rls_evaluation.specs.Wides.{wide_value};

    ghost Value = { SqlValue };

    ghost view = { λ it. wide_value it.value };
}

impl Ord for Listed {
    ghost use Rattle.std.proofs.Common.{rules};
    ghost use Rattle.std.specs.Cmp.Rules.{comparing};
    ghost use Rattle.rls_value.specs.Values.{listed};
    ghost use Rattle.rls_value.specs.Listing.{listed_total};

    ghost cmp = { listed };

    ghost total = { listed_total };

    ghost matches_partial_cmp = { Prim.search (comparing, rules) };

    ghost matches_eq = { Prim.search (comparing, rules) };

    fn cmp(&self, other: &Listed) -> Ordering {
        cmp_wide(&self.value, &other.value)
    }
}

impl PartialOrd for Listed {
    ghost use Rattle.std.specs.Ordering.{as_partial_cmp};
    ghost use Rattle.std.proofs.Common.{rules};
    ghost use Rattle.std.specs.Cmp.{partial_order_from_own_ties};
    ghost use Rattle.std.specs.Cmp.Rules.{comparing};
    ghost use Rattle.rls_value.specs.Values.{listed};
    ghost use Rattle.rls_value.specs.Listing.{listed_total};

    ghost partial_cmp = { as_partial_cmp listed };

    ghost laws = { partial_order_from_own_ties (Prim.search (comparing, rules, listed_total)) (Prim.search (comparing, rules)) };

    fn partial_cmp(&self, other: &Listed) -> Option<Ordering> {
        Some(self.cmp(other))
    }
}

impl PartialEq for Listed {
    ghost use Rattle.std.specs.Ordering.{eq_by_cmp};
    ghost use Rattle.std.proofs.lemmas.Cmp.{eq_by_cmp_equiv};
    ghost use Rattle.std.proofs.Common.{rules};
    ghost use Rattle.std.specs.Cmp.Rules.{comparing};
    ghost use Rattle.rls_value.specs.Values.{listed};
    ghost use Rattle.rls_value.specs.Listing.{listed_total};

    ghost eq = { eq_by_cmp listed };

    ghost laws = { Prim.search (comparing, rules, eq_by_cmp_equiv listed_total) };

    fn eq(&self, other: &Listed) -> bool {
        cmp_wide(&self.value, &other.value) == Ordering::Equal
    }
}

impl Eq for Listed {
    ghost use Rattle.std.proofs.lemmas.Cmp.{eq_by_cmp_equiv};
    ghost use Rattle.rls_value.specs.Listing.{listed_total};

    ghost laws = { eq_by_cmp_equiv listed_total };
}

/// The values of a list, each once, and whether there are others than those of a type: with these a comparison is unknown.
#[derive(Drop)]
pub struct ValueSet {
    pub values: BTreeSet<Listed>,
    pub is_some: bool,
    pub not_numbers: bool,
    pub not_texts: bool,
    pub not_flags: bool,
}

impl ValueSet {
    /// The set of these values.
    pub fn of(alloc: Global, values: Items<Value>) -> Result<ValueSet, AllocError>
        ensures { IfOk result (λ set. IsSetOf set values) }
    {
        let mut set = ValueSet::new(alloc);
        for value in values.into_vec() {
            set.add(value)?;
        }
        Ok(set)
    }

    fn new(alloc: Global) -> ValueSet
        ensures { IsSetOf result [] }
    {
        ValueSet {
            values: BTreeSet::new(alloc),
            is_some: false,
            not_numbers: false,
            not_texts: false,
            not_flags: false,
        }
    }

    fn add(&mut self, value: Value) -> Result<(), AllocError>
        ensures { OnOk result (IsSetWith self.old self.new value) }
    {
        self.is_some = true;
        self.not_numbers = either(self.not_numbers, !is_number(&value));
        self.not_texts = either(self.not_texts, !is_text(&value));
        self.not_flags = either(self.not_flags, !is_flag(&value));
        self.values.insert(Listed {
            value: wide_of(value),
        })?;
        Ok(())
    }

    /// How many different values there are.
    pub fn len(&self) -> usize {
        self.values.len()
    }

    /// Whether one of the values is equal to it. No memory is taken but for the current role's name.
    pub fn equals_any(&self, alloc: Global, datum: &Datum) -> Result<Truth, AllocError>
        ensures { (items : List SqlValue) → IsSetOf self.now items → IfOk result (λ truth. truth ≡ any_equal (datum_value datum.now) items) }
    {
        match wide_datum(alloc, datum) {
            Ok(value) => Ok(self.truth(value, datum)),
            Err(refused) => Err(refused),
        }
    }

    fn truth(&self, value: Wide, datum: &Datum) -> Truth
        ensures { (items : List SqlValue) → IsSetOf self.now items → wide_value value ≡ datum_value datum.now → result ≡ any_equal (datum_value datum.now) items }
    {
        three(self.finds(value), self.lets_open(datum))
    }

    /// Whether a value is there that isn't null.
    fn finds(&self, value: Wide) -> bool
        ensures { result ≡ finds self.now (wide_value value) }
    {
        if let Wide::Null = &value {
            return false;
        }
        self.values.contains(&Listed { value })
    }

    /// Whether a value that is equal to none of these may be equal to one that isn't known.
    fn lets_open(&self, datum: &Datum) -> bool
        ensures { result ≡ lets_open self.now (datum_value datum.now) }
    {
        match datum {
            Datum::Null => self.is_some,
            Datum::Int(_) => self.not_numbers,
            Datum::Text(_) | Datum::Own(_) | Datum::Name(_) => self.not_texts,
            Datum::Bool(_) => self.not_flags,
        }
    }
}

/// The value in the order of listing, which shares its text.
pub fn listed_datum(alloc: Global, datum: &Datum) -> Result<Listed, AllocError>
    ensures { IfOk result (λ listed. listed ≡ datum_value datum.now) }
{
    match wide_datum(alloc, datum) {
        Ok(value) => Ok(Listed { value }),
        Err(refused) => Err(refused),
    }
}

fn wide_of(value: Value) -> Wide
    ensures { wide_value result ≡ value }
{
    match value {
        Value::Null => Wide::Null,
        Value::Int(number) => Wide::Int(i128::from(number)),
        Value::Text(text) => Wide::Text(text),
        Value::Bool(flag) => Wide::Bool(flag),
    }
}

fn wide_datum(alloc: Global, datum: &Datum) -> Result<Wide, AllocError>
    ensures { IfOk result (λ value. wide_value value ≡ datum_value datum.now) }
{
    match datum {
        Datum::Null => Ok(Wide::Null),
        Datum::Int(number) => Ok(Wide::Int(*number)),
        Datum::Text(text) => wide_text(*text),
        Datum::Own(text) => wide_text(text),
        Datum::Name(name) => wide_name(alloc, *name),
        Datum::Bool(flag) => Ok(Wide::Bool(*flag)),
    }
}

fn wide_text(text: &Text) -> Result<Wide, AllocError>
    ensures { IfOk result (λ value. wide_value value ≡ v.Text text.now) }
{
    match text.copy() {
        Ok(text) => Ok(Wide::Text(text)),
        Err(refused) => Err(refused),
    }
}

fn wide_name(alloc: Global, name: &Name) -> Result<Wide, AllocError>
    ensures { IfOk result (λ value. wide_value value ≡ v.Text name.now) }
{
    match Text::new(alloc, name.as_str()) {
        Ok(text) => Ok(Wide::Text(text)),
        Err(refused) => Err(refused),
    }
}

/// The order of listing, as `cmp_values` has it.
fn cmp_wide(left: &Wide, right: &Wide) -> Ordering
    ensures { result ≡ listed (wide_value left.now) (wide_value right.now) }
{
    match (left, right) {
        (Wide::Int(left), Wide::Int(right)) => left.cmp(right),
        (Wide::Text(left), Wide::Text(right)) => left.compare(right),
        (Wide::Bool(left), Wide::Bool(right)) => left.cmp(right),
        (_, _) => rank(left).cmp(&rank(right)),
    }
}

fn rank(value: &Wide) -> u8
    ensures { result ≡ rank_of (wide_value value.now) }
{
    match value {
        Wide::Int(_) => 0,
        Wide::Text(_) => 1,
        Wide::Bool(_) => 2,
        Wide::Null => 3,
    }
}

/// True where one is equal, else unknown where a comparison is.
fn three(is_equal: bool, is_open: bool) -> Truth
    ensures { result ≡ three is_equal is_open }
{
    if is_equal {
        return Truth::True;
    }
    if is_open {
        Truth::Unknown
    } else {
        Truth::False
    }
}

fn either(one: bool, other: bool) -> bool
    ensures { result ≡ (one || other) }
{
    one || other
}

fn is_number(value: &Value) -> bool
    ensures { result ≡ is_number value.now }
{
    match value {
        Value::Int(_) => true,
        Value::Null | Value::Text(_) | Value::Bool(_) => false,
    }
}

fn is_text(value: &Value) -> bool
    ensures { result ≡ is_text value.now }
{
    match value {
        Value::Text(_) => true,
        Value::Null | Value::Int(_) | Value::Bool(_) => false,
    }
}

fn is_flag(value: &Value) -> bool
    ensures { result ≡ is_flag value.now }
{
    match value {
        Value::Bool(_) => true,
        Value::Null | Value::Int(_) | Value::Text(_) => false,
    }
}
