//! What is versioned: the objects that statements read and changes write.

ghost use Rattle.std.specs.Prelude.{◌≡◌, IfOk, ◌++◌, codes};
ghost use Rattle.std.specs.Cmp.Lexicographic.{slice_cmp};
ghost use Rattle.std.specs.Fmt.{WritesOnOk};
ghost use Rattle.std.specs.Ordering.{nat_cmp, ordering_then};
ghost use Rattle.rls_value.specs.Values.{literals_text, further_text};
ghost use Rattle.rls_value.specs.Objects as spec;

use crate::name::Name;
use crate::row::{Row, RowId, cmp_rows};
use crate::value::Value;
use std::alloc::{AllocError, Global};
use std::cmp::Ordering;
use std::fmt;

/// A versioned object of the database.
#[derive(Drop)]
pub enum Object {
    Role(Name),
    /// The memberships that the role has.
    Members(Name),
    Table(Name),
    /// The grants on the table.
    Grants(Name),
    /// The policies of the table.
    Policies(Name),
    /// All rows of the table.
    Rows(Name),
    /// The rows of the table that have the key.
    Key(Name, Row),
    /// One row of the table.
    RowOf(Name, RowId),
}

impl Object {
    pub fn copy(&self, alloc: Global) -> Result<Object, AllocError>
        ensures { IfOk result (λ object. object ≡ self.now) }
    {
        let name = name_of(self).copy()?;
        match self {
            Object::Role(_) => Ok(Object::Role(name)),
            Object::Members(_) => Ok(Object::Members(name)),
            Object::Table(_) => Ok(Object::Table(name)),
            Object::Grants(_) => Ok(Object::Grants(name)),
            Object::Policies(_) => Ok(Object::Policies(name)),
            Object::Rows(_) => Ok(Object::Rows(name)),
            Object::Key(_, key) => of_key(alloc, name, key),
            Object::RowOf(_, id) => Ok(Object::RowOf(name, *id)),
        }
    }
}

fn of_key(alloc: Global, table: Name, key: &Row) -> Result<Object, AllocError>
    ensures { IfOk result (λ object. object ≡ Object.Key table key.now) }
{
    match key.copy(alloc) {
        Ok(key) => Ok(Object::Key(table, key)),
        Err(refused) => {
            drop(table);
            Err(refused)
        }
    }
}

/// Objects are ordered as `cmp_objects` says.
impl Ord for Object {
    ghost use Rattle.std.proofs.Common.{rules};
    ghost use Rattle.std.specs.Cmp.Rules.{comparing};
    ghost use Rattle.rls_value.specs.Objects.{object_order};
    ghost use Rattle.rls_value.specs.ObjectOrder.{objects_total};

    ghost cmp = { object_order };

    ghost total = { objects_total };

    ghost matches_partial_cmp = { Prim.search (comparing, rules) };

    ghost matches_eq = { Prim.search (comparing, rules) };

    fn cmp(&self, other: &Object) -> Ordering {
        cmp_objects(self, other)
    }
}

impl PartialOrd for Object {
    ghost use Rattle.std.specs.Ordering.{as_partial_cmp};
    ghost use Rattle.std.proofs.Common.{rules};
    ghost use Rattle.std.specs.Cmp.{partial_order_from_own_ties};
    ghost use Rattle.std.specs.Cmp.Rules.{comparing};
    ghost use Rattle.rls_value.specs.Objects.{object_order};
    ghost use Rattle.rls_value.specs.ObjectOrder.{objects_total};

    ghost partial_cmp = { as_partial_cmp object_order };

    ghost laws = { partial_order_from_own_ties (Prim.search (comparing, rules, objects_total)) (Prim.search (comparing, rules)) };

    fn partial_cmp(&self, other: &Object) -> Option<Ordering> {
        Some(self.cmp(other))
    }
}

impl PartialEq for Object {
    ghost use Rattle.std.specs.Ordering.{eq_by_cmp};
    ghost use Rattle.std.proofs.lemmas.Cmp.{eq_by_cmp_equiv};
    ghost use Rattle.std.proofs.Common.{rules};
    ghost use Rattle.std.specs.Cmp.Rules.{comparing};
    ghost use Rattle.rls_value.specs.Objects.{object_order};
    ghost use Rattle.rls_value.specs.ObjectOrder.{objects_total};

    ghost eq = { eq_by_cmp object_order };

    ghost laws = { Prim.search (comparing, rules, eq_by_cmp_equiv objects_total) };

    fn eq(&self, other: &Object) -> bool {
        cmp_objects(self, other) == Ordering::Equal
    }
}

impl Eq for Object {
    ghost use Rattle.std.proofs.lemmas.Cmp.{eq_by_cmp_equiv};
    ghost use Rattle.rls_value.specs.ObjectOrder.{objects_total};

    ghost laws = { eq_by_cmp_equiv objects_total };
}

/// The order of objects: by kind as they stand in `Object`, then by the name of the role or table, then by the values of
/// the key or the number of the row.
pub fn cmp_objects(left: &Object, right: &Object) -> Ordering
    ensures { result ≡ spec.object_order left.now right.now }
{
    match cmp_names(left, right) {
        Ordering::Equal => cmp_parts(left, right),
        order => order,
    }
}

/// By kind, then by name.
fn cmp_names(left: &Object, right: &Object) -> Ordering
    ensures { result ≡ ordering_then (nat_cmp (spec.kind_of left.now) (spec.kind_of right.now)) (slice_cmp nat_cmp (spec.name_of left.now) (spec.name_of right.now)) }
{
    match kind_of(left).cmp(&kind_of(right)) {
        Ordering::Equal => name_of(left).cmp(name_of(right)),
        order => order,
    }
}

fn kind_of(object: &Object) -> u8
    ensures { result ≡ spec.kind_of object.now }
{
    match object {
        Object::Role(_) => 0,
        Object::Members(_) => 1,
        Object::Table(_) => 2,
        Object::Grants(_) => 3,
        Object::Policies(_) => 4,
        Object::Rows(_) => 5,
        Object::Key(_, _) => 6,
        Object::RowOf(_, _) => 7,
    }
}

fn name_of(object: &Object) -> &Name
    ensures { result.now ≡ spec.name_of object.now }
{
    match object {
        Object::Role(name) | Object::Members(name) | Object::Table(name) | Object::Grants(name) =>
            name,
        Object::Policies(name) | Object::Rows(name) => name,
        Object::Key(name, _) => name,
        Object::RowOf(name, _) => name,
    }
}

fn cmp_parts(left: &Object, right: &Object) -> Ordering
    ensures { result ≡ spec.part_order left.now right.now }
{
    match (left, right) {
        (Object::Key(_, left), Object::Key(_, right)) => cmp_rows(left, right),
        (Object::RowOf(_, left), Object::RowOf(_, right)) => {
            left.txn.cmp(&right.txn).then(left.n.cmp(&right.n))
        }
        (_, _) => Ordering::Equal,
    }
}

/// As `grants on t` or `key ('a', 1) of t`.
impl fmt::Display for Object {
    ghost use Rattle.std.specs.Prelude.{Some};
    ghost use Rattle.rls_value.specs.Objects.{object_text};

    ghost output = { λ object. Some (object_text object) };

    fn fmt<W: fmt::Write>(&self, f: &mut fmt::Formatter<W>) -> fmt::Result {
        match self {
            Object::Role(role) => write_named(f, "role ", role),
            Object::Members(member) => write_named(f, "members of ", member),
            Object::Table(table) => write_named(f, "table ", table),
            Object::Grants(table) => write_named(f, "grants on ", table),
            Object::Policies(table) => write_named(f, "policies on ", table),
            Object::Rows(table) => write_named(f, "rows of ", table),
            Object::Key(table, key) => write_key(f, table, key.as_slice()),
            Object::RowOf(table, id) => write_row_of(f, table, *id),
        }
    }
}

fn write_named<W: fmt::Write>(f: &mut fmt::Formatter<W>, before: &str, name: &Name) -> fmt::Result
    ensures { WritesOnOk W.write_str_gives f.old result (before.now ++ name.now) f.new }
{
    f.write_str(before)?;
    f.write_str(name.as_str())
}

fn write_key<W: fmt::Write>(f: &mut fmt::Formatter<W>, table: &Name, key: &[Value]) -> fmt::Result
    ensures { WritesOnOk W.write_str_gives f.old result (codes "key (" ++ (literals_text key.now ++ (codes ") of " ++ table.now))) f.new }
{
    f.write_str("key (")?;
    write_values(f, key)?;
    write_named(f, ") of ", table)
}

fn write_row_of<W: fmt::Write>(f: &mut fmt::Formatter<W>, table: &Name, id: RowId) -> fmt::Result
    ensures { WritesOnOk W.write_str_gives f.old result (codes "row " ++ (spec.row_id_text id ++ (codes " of " ++ table.now))) f.new }
{
    write!(f, "row {id} of {table}")
}

fn write_values<W: fmt::Write>(f: &mut fmt::Formatter<W>, values: &[Value]) -> fmt::Result
    ensures { WritesOnOk W.write_str_gives f.old result (literals_text values.now) f.new }
{
    match values {
        [] => Ok(()),
        [first, rest @ ..] => {
            write!(f, "{first}")?;
            write_further(f, rest)
        }
    }
}

fn write_further<W: fmt::Write>(f: &mut fmt::Formatter<W>, values: &[Value]) -> fmt::Result
    ensures { WritesOnOk W.write_str_gives f.old result (further_text values.now) f.new }
{
    for value in values {
        write!(f, ", {value}")?;
    }
    Ok(())
}
