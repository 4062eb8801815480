//! The refusals of the database, with their codes and texts.

ghost use Rattle.std.specs.Prelude.{◌≡◌, IfOk, ◌++◌, codes};
ghost use Rattle.std.specs.Fmt.{WritesOnOk, decimal};
ghost use Rattle.rls_value.specs.Objects.{object_text};
ghost use Rattle.rls_value.specs.Refusals as spec;

use crate::name::Name;
use crate::object::Object;
use crate::tag::Tag;
use crate::verb::{Kind, Privilege};
use std::alloc::{AllocError, AllocFailed, Global};
use std::fmt;
use std::fmt::{Display, Write};

/// Why something was refused. The codes are SQLSTATEs (PostgreSQL manual, Appendix A), the texts this project's.
#[derive(Drop)]
pub enum Refusal {
    NoMemory,
    Syntax,
    Limit(Limit),
    TxnState(TxnState),
    /// The role may not log in; without one, the label isn't connected.
    NoLogin(Option<Name>),
    Undefined(NameKind, Name),
    /// One of that name is there already.
    Duplicate(DefinedKind, Name),
    TypeFault,
    Unsupported,
    /// A policy of the table reads the table again.
    Recursion(Name),
    Denied(Why),
    GrantOp(GrantFault),
    /// Privileges on the table depend on what would be revoked.
    Dependent(Name),
    /// The value doesn't fit the column.
    Range(Name),
    /// The column takes no null.
    NotNull(Name),
    /// Two rows of the table would have one key.
    Unique(Name),
    /// Serialization failure.
    Serial(Cause),
    /// A value of another engine; never printed.
    Foreign,
    /// The line of an audit, from 1, that has not its form.
    BadAudit(u64),
}

/// Which limit was passed.
#[derive(Clone, Copy, PartialEq, Eq)]
pub enum Limit {
    Line,
    Columns,
    Nesting,
    Subqueries,
    Parentheses,
    Policies,
    Inserts,
    Transactions,
    Sessions,
    Numbers,
    /// A name of over 63 bytes, which has a code and a text of its own.
    Name,
}

/// A statement that the transaction's state doesn't allow.
#[derive(Clone, Copy, PartialEq, Eq)]
pub enum TxnState {
    AlreadyInProgress,
    NoneInProgress,
    Over,
    /// The command writes, and the transaction only reads.
    ReadOnly(Tag),
}

/// What a name is the name of.
#[derive(Clone, Copy, PartialEq, Eq)]
pub enum NameKind {
    Relation,
    Column,
    Role,
    Policy,
}

/// What statements define under a name.
#[derive(Clone, Copy, PartialEq, Eq)]
pub enum DefinedKind {
    Relation,
    Role,
    Policy,
}

impl DefinedKind {
    /// The kind of its name.
    pub fn name_kind(self) -> NameKind
        ensures { result ≡ spec.name_kind_of self }
    {
        match self {
            DefinedKind::Relation => NameKind::Relation,
            DefinedKind::Role => NameKind::Role,
            DefinedKind::Policy => NameKind::Policy,
        }
    }
}

/// What is missing where something is denied.
#[derive(Drop)]
pub enum Why {
    /// The privilege on the table.
    Privilege(Privilege, Name),
    /// The privilege on a column, where others are granted: first the table, then the column.
    Column(Privilege, Name, Name),
    /// To own the table.
    Owner(Name),
    /// To manage the role.
    Admin(Name),
    /// To set the role.
    SetRole(Name),
    /// The grant option for the privilege on the table.
    GrantOption(Privilege, Name),
    /// A permissive policy of the table that passes for the type of command.
    NoPermissive(Name, Kind),
    /// That the restrictive policy passes: first the policy, then its table.
    Restrictive(Name, Name),
}

/// A grant that may not be.
#[derive(Drop)]
pub enum GrantFault {
    /// The first role is a member of the second already.
    Cycle(Name, Name),
    PublicOption,
    /// The grantee's option is what the grantor's rests on.
    Back(Name),
}

/// Why a transaction can't be serialized (Ports and Grittner, VLDB 2012, 3.2).
#[derive(Drop)]
pub enum Cause {
    /// The object that both wrote, and the other transaction.
    Written(Object, u64),
    /// Two rw-antidependencies in a row: `first` read an object that `pivot` wrote, which read one that `last` wrote.
    Structure {
        first: u64,
        read_by_first: Object,
        pivot: u64,
        read_by_pivot: Object,
        last: u64,
    },
}

impl From<AllocError> for Refusal {
    ghost use Rattle.rls_value.specs.declared.refusal.Refusal.TheVariants.{NoMemory};

    ghost from_gives = { λ _ refusal. refusal ≡ NoMemory };

    fn from(_fault: AllocError) -> Refusal {
        Refusal::NoMemory
    }
}

impl<T: Drop> From<AllocFailed<T>> for Refusal {
    ghost use Rattle.rls_value.specs.declared.refusal.Refusal.TheVariants.{NoMemory};

    ghost from_gives = { λ _ refusal. refusal ≡ NoMemory };

    fn from(_fault: AllocFailed<T>) -> Refusal {
        Refusal::NoMemory
    }
}

impl Refusal {
    /// The SQLSTATE that is printed; empty for the two that are never printed with one.
    pub fn code(&self) -> &'static str
        ensures { result.now ≡ spec.code_of self.now }
    {
        match self {
            Refusal::NoMemory => "53200",
            Refusal::Syntax => "42601",
            Refusal::Limit(limit) => limit_code(*limit),
            Refusal::TxnState(state) => txn_code(*state),
            Refusal::NoLogin(_) => "28000",
            Refusal::Undefined(kind, _) => undefined_code(*kind),
            Refusal::Duplicate(kind, _) => duplicate_code(*kind),
            Refusal::TypeFault => "42804",
            Refusal::Unsupported => "0A000",
            Refusal::Recursion(_) => "42P17",
            Refusal::Denied(_) => "42501",
            Refusal::GrantOp(_) => "0LP01",
            Refusal::Dependent(_) => "2BP01",
            Refusal::Range(_) => "22003",
            Refusal::NotNull(_) => "23502",
            Refusal::Unique(_) => "23505",
            Refusal::Serial(_) => "40001",
            Refusal::Foreign | Refusal::BadAudit(_) => "",
        }
    }

    pub fn copy(&self, alloc: Global) -> Result<Refusal, AllocError>
        ensures { IfOk result (λ refusal. refusal ≡ self.now) }
    {
        match self {
            Refusal::NoMemory => Ok(Refusal::NoMemory),
            Refusal::Syntax => Ok(Refusal::Syntax),
            Refusal::Limit(limit) => Ok(Refusal::Limit(*limit)),
            Refusal::TxnState(state) => Ok(Refusal::TxnState(*state)),
            Refusal::NoLogin(None) => Ok(Refusal::NoLogin(None)),
            Refusal::NoLogin(Some(role)) => Ok(Refusal::NoLogin(Some(role.copy()?))),
            Refusal::Undefined(kind, name) => Ok(Refusal::Undefined(*kind, name.copy()?)),
            Refusal::Duplicate(kind, name) => Ok(Refusal::Duplicate(*kind, name.copy()?)),
            Refusal::TypeFault => Ok(Refusal::TypeFault),
            Refusal::Unsupported => Ok(Refusal::Unsupported),
            Refusal::Recursion(table) => Ok(Refusal::Recursion(table.copy()?)),
            Refusal::Denied(why) => Ok(Refusal::Denied(why.copy()?)),
            Refusal::GrantOp(fault) => Ok(Refusal::GrantOp(fault.copy()?)),
            Refusal::Dependent(table) => Ok(Refusal::Dependent(table.copy()?)),
            Refusal::Range(column) => Ok(Refusal::Range(column.copy()?)),
            Refusal::NotNull(column) => Ok(Refusal::NotNull(column.copy()?)),
            Refusal::Unique(table) => Ok(Refusal::Unique(table.copy()?)),
            Refusal::Serial(cause) => Ok(Refusal::Serial(cause.copy(alloc)?)),
            Refusal::Foreign => Ok(Refusal::Foreign),
            Refusal::BadAudit(line) => Ok(Refusal::BadAudit(*line)),
        }
    }
}

fn limit_code(limit: Limit) -> &'static str
    ensures { result.now ≡ spec.limit_code limit }
{
    match limit {
        Limit::Name => "42622",
        _ => "54000",
    }
}

fn txn_code(state: TxnState) -> &'static str
    ensures { result.now ≡ spec.txn_code state }
{
    match state {
        TxnState::AlreadyInProgress => "25001",
        TxnState::NoneInProgress => "25P01",
        TxnState::Over => "25P02",
        TxnState::ReadOnly(_) => "25006",
    }
}

fn undefined_code(kind: NameKind) -> &'static str
    ensures { result.now ≡ spec.undefined_code kind }
{
    match kind {
        NameKind::Relation => "42P01",
        NameKind::Column => "42703",
        NameKind::Role | NameKind::Policy => "42704",
    }
}

fn duplicate_code(kind: DefinedKind) -> &'static str
    ensures { result.now ≡ spec.duplicate_code kind }
{
    match kind {
        DefinedKind::Relation => "42P07",
        DefinedKind::Role | DefinedKind::Policy => "42710",
    }
}

impl Why {
    pub fn copy(&self) -> Result<Why, AllocError>
        ensures { IfOk result (λ why. why ≡ self.now) }
    {
        match self {
            Why::Privilege(privilege, table) => Ok(Why::Privilege(*privilege, table.copy()?)),
            Why::Column(privilege, table, column) => {
                Ok(Why::Column(*privilege, table.copy()?, column.copy()?))
            }
            Why::Owner(table) => Ok(Why::Owner(table.copy()?)),
            Why::Admin(role) => Ok(Why::Admin(role.copy()?)),
            Why::SetRole(role) => Ok(Why::SetRole(role.copy()?)),
            Why::GrantOption(privilege, table) => Ok(Why::GrantOption(*privilege, table.copy()?)),
            Why::NoPermissive(table, kind) => Ok(Why::NoPermissive(table.copy()?, *kind)),
            Why::Restrictive(policy, table) => Ok(Why::Restrictive(policy.copy()?, table.copy()?)),
        }
    }
}

impl GrantFault {
    pub fn copy(&self) -> Result<GrantFault, AllocError>
        ensures { IfOk result (λ fault. fault ≡ self.now) }
    {
        match self {
            GrantFault::Cycle(member, role) => Ok(GrantFault::Cycle(member.copy()?, role.copy()?)),
            GrantFault::PublicOption => Ok(GrantFault::PublicOption),
            GrantFault::Back(grantee) => Ok(GrantFault::Back(grantee.copy()?)),
        }
    }
}

impl Cause {
    pub fn copy(&self, alloc: Global) -> Result<Cause, AllocError>
        ensures { IfOk result (λ cause. cause ≡ self.now) }
    {
        match self {
            Cause::Written(object, other) => match object.copy(alloc) {
                Ok(object) => Ok(Cause::Written(object, *other)),
                Err(refused) => Err(refused),
            },
            Cause::Structure {
                first,
                read_by_first,
                pivot,
                read_by_pivot,
                last,
            } => match copy_both(alloc, read_by_first, read_by_pivot) {
                Ok((read_by_first, read_by_pivot)) => Ok(Cause::Structure {
                    first: *first,
                    read_by_first,
                    pivot: *pivot,
                    read_by_pivot,
                    last: *last,
                }),
                Err(refused) => Err(refused),
            },
        }
    }
}

fn copy_both(alloc: Global, one: &Object, other: &Object) -> Result<(Object, Object), AllocError>
    ensures one { IfOk result (λ both. both.0 ≡ one.now) }
    ensures other { IfOk result (λ both. both.1 ≡ other.now) }
{
    let one = one.copy(alloc)?;
    match other.copy(alloc) {
        Ok(other) => Ok((one, other)),
        Err(refused) => {
            drop(one);
            Err(refused)
        }
    }
}

/// The text that is printed behind the code.
impl fmt::Display for Refusal {
    ghost use Rattle.std.specs.Prelude.{Some};
    ghost use Rattle.rls_value.specs.Refusals.{refusal_text};

    ghost output = { λ refusal. Some (refusal_text refusal) };

    fn fmt<W: fmt::Write>(&self, f: &mut fmt::Formatter<W>) -> fmt::Result {
        match self {
            Refusal::NoMemory => f.write_str("out of memory"),
            Refusal::Syntax => f.write_str("syntax error"),
            Refusal::Limit(limit) => limit.fmt(f),
            Refusal::TxnState(state) => state.fmt(f),
            Refusal::NoLogin(None) => f.write_str("not connected"),
            Refusal::NoLogin(Some(role)) => {
                write_around(f, "role \"", role, "\" may not log in")
            }
            Refusal::Undefined(kind, name) => write_kind(f, *kind, name, "\" does not exist"),
            Refusal::Duplicate(kind, name) => {
                write_kind(f, kind.name_kind(), name, "\" already exists")
            }
            Refusal::TypeFault => f.write_str("types do not match"),
            Refusal::Unsupported => f.write_str("not supported"),
            Refusal::Recursion(table) => write_around(
                f,
                "infinite recursion detected in policy for relation \"",
                table,
                "\"",
            ),
            Refusal::Denied(why) => why.fmt(f),
            Refusal::GrantOp(fault) => fault.fmt(f),
            Refusal::Dependent(_) => f.write_str("dependent privileges exist"),
            Refusal::Range(column) => {
                write_around(f, "value out of range for column \"", column, "\"")
            }
            Refusal::NotNull(column) => write_around(
                f,
                "null value in column \"",
                column,
                "\" violates not-null constraint",
            ),
            Refusal::Unique(table) => write_around(
                f,
                "duplicate key value violates the primary key of table \"",
                table,
                "\"",
            ),
            Refusal::Serial(cause) => write!(f, "could not serialize access: {cause}"),
            Refusal::Foreign => f.write_str("not of this engine"),
            Refusal::BadAudit(line) => write!(f, "bad audit line {line}"),
        }
    }
}

fn write_around<W: fmt::Write>(
    f: &mut fmt::Formatter<W>,
    before: &str,
    name: &Name,
    after: &str,
) -> fmt::Result
    ensures { WritesOnOk W.write_str_gives f.old result (before.now ++ (name.now ++ after.now)) f.new }
{
    write!(f, "{before}{name}{after}")
}

fn write_kind<W: fmt::Write>(
    f: &mut fmt::Formatter<W>,
    kind: NameKind,
    name: &Name,
    after: &str,
) -> fmt::Result
    ensures { WritesOnOk W.write_str_gives f.old result (spec.name_kind_text kind ++ (codes " \"" ++ (name.now ++ after.now))) f.new }
{
    write!(f, "{kind} \"{name}{after}")
}

impl fmt::Display for Limit {
    ghost use Rattle.std.specs.Prelude.{Some};
    ghost use Rattle.rls_value.specs.Refusals.{limit_text};

    ghost output = { λ limit. Some (limit_text limit) };

    fn fmt<W: fmt::Write>(&self, f: &mut fmt::Formatter<W>) -> fmt::Result {
        f.write_str(limit_text(*self))
    }
}

fn limit_text(limit: Limit) -> &'static str
    ensures { result.now ≡ spec.limit_text limit }
{
    match limit {
        Limit::Line => "limit exceeded: line",
        Limit::Columns => "limit exceeded: columns",
        Limit::Nesting => "limit exceeded: nesting",
        Limit::Subqueries => "limit exceeded: subqueries",
        Limit::Parentheses => "limit exceeded: parentheses",
        Limit::Policies => "limit exceeded: policies",
        Limit::Inserts => "limit exceeded: inserts",
        Limit::Transactions => "limit exceeded: transactions",
        Limit::Sessions => "limit exceeded: sessions",
        Limit::Numbers => "limit exceeded: numbers",
        Limit::Name => "name too long",
    }
}

impl fmt::Display for TxnState {
    ghost use Rattle.std.specs.Prelude.{Some};
    ghost use Rattle.rls_value.specs.Refusals.{txn_text};

    ghost output = { λ state. Some (txn_text state) };

    fn fmt<W: fmt::Write>(&self, f: &mut fmt::Formatter<W>) -> fmt::Result {
        match self {
            TxnState::AlreadyInProgress => {
                f.write_str("there is already a transaction in progress")
            }
            TxnState::NoneInProgress => f.write_str("there is no transaction in progress"),
            TxnState::Over => f.write_str(
                "transaction is over, commands are ignored until COMMIT or ROLLBACK",
            ),
            TxnState::ReadOnly(tag) => write!(f, "cannot execute {tag} in a read-only transaction"),
        }
    }
}

impl fmt::Display for NameKind {
    ghost use Rattle.std.specs.Prelude.{Some};
    ghost use Rattle.rls_value.specs.Refusals.{name_kind_text};

    ghost output = { λ kind. Some (name_kind_text kind) };

    fn fmt<W: fmt::Write>(&self, f: &mut fmt::Formatter<W>) -> fmt::Result {
        f.write_str(name_kind_text(*self))
    }
}

fn name_kind_text(kind: NameKind) -> &'static str
    ensures { result.now ≡ spec.name_kind_text kind }
{
    match kind {
        NameKind::Relation => "relation",
        NameKind::Column => "column",
        NameKind::Role => "role",
        NameKind::Policy => "policy",
    }
}

impl fmt::Display for Why {
    ghost use Rattle.std.specs.Prelude.{Some};
    ghost use Rattle.rls_value.specs.Refusals.{why_text};

    ghost output = { λ why. Some (why_text why) };

    fn fmt<W: fmt::Write>(&self, f: &mut fmt::Formatter<W>) -> fmt::Result {
        match self {
            Why::Privilege(privilege, table) => write_missing(f, *privilege, table),
            Why::Column(privilege, table, column) => {
                write_missing_on(f, *privilege, table, column)
            }
            Why::Owner(table) => write_around(f, "must be owner of table ", table, ""),
            Why::Admin(role) => {
                write_around(f, "permission denied to manage role \"", role, "\"")
            }
            Why::SetRole(role) => write_around(f, "permission denied to set role \"", role, "\""),
            Why::GrantOption(privilege, table) => write_no_option(f, *privilege, table),
            Why::NoPermissive(table, kind) => write_no_permissive(f, table, *kind),
            Why::Restrictive(policy, table) => write_restrictive(f, policy, table),
        }
    }
}

fn write_missing<W: fmt::Write>(
    f: &mut fmt::Formatter<W>,
    privilege: Privilege,
    table: &Name,
) -> fmt::Result
    ensures { WritesOnOk W.write_str_gives f.old result (spec.why_text (Why.Privilege privilege table.now)) f.new }
{
    write!(
        f,
        "permission denied for table {table}: {privilege} is missing"
    )
}

fn write_missing_on<W: fmt::Write>(
    f: &mut fmt::Formatter<W>,
    privilege: Privilege,
    table: &Name,
    column: &Name,
) -> fmt::Result
    ensures { WritesOnOk W.write_str_gives f.old result (spec.why_text (Why.Column privilege table.now column.now)) f.new }
{
    write!(
        f,
        "permission denied for table {table}: {privilege} is missing on column \"{column}\""
    )
}

fn write_no_option<W: fmt::Write>(
    f: &mut fmt::Formatter<W>,
    privilege: Privilege,
    table: &Name,
) -> fmt::Result
    ensures { WritesOnOk W.write_str_gives f.old result (spec.why_text (Why.GrantOption privilege table.now)) f.new }
{
    write!(
        f,
        "permission denied for table {table}: no grant option for {privilege}"
    )
}

fn write_no_permissive<W: fmt::Write>(
    f: &mut fmt::Formatter<W>,
    table: &Name,
    kind: Kind,
) -> fmt::Result
    ensures { WritesOnOk W.write_str_gives f.old result (spec.why_text (Why.NoPermissive table.now kind)) f.new }
{
    write!(
        f,
        "new row violates row-level security policy for table \"{table}\": no permissive {kind} policy passes"
    )
}

fn write_restrictive<W: fmt::Write>(
    f: &mut fmt::Formatter<W>,
    policy: &Name,
    table: &Name,
) -> fmt::Result
    ensures { WritesOnOk W.write_str_gives f.old result (spec.why_text (Why.Restrictive policy.now table.now)) f.new }
{
    write!(
        f,
        "new row violates row-level security policy \"{policy}\" for table \"{table}\""
    )
}

impl fmt::Display for GrantFault {
    ghost use Rattle.std.specs.Prelude.{Some};
    ghost use Rattle.rls_value.specs.Refusals.{grant_fault_text};

    ghost output = { λ fault. Some (grant_fault_text fault) };

    fn fmt<W: fmt::Write>(&self, f: &mut fmt::Formatter<W>) -> fmt::Result {
        match self {
            GrantFault::Cycle(member, role) => write_cycle(f, member, role),
            GrantFault::PublicOption => f.write_str("grant options cannot be granted to PUBLIC"),
            GrantFault::Back(_) => {
                f.write_str("grant options cannot be granted back to the grantor")
            }
        }
    }
}

fn write_cycle<W: fmt::Write>(f: &mut fmt::Formatter<W>, member: &Name, role: &Name) -> fmt::Result
    ensures { WritesOnOk W.write_str_gives f.old result (spec.grant_fault_text (GrantFault.Cycle member.now role.now)) f.new }
{
    write!(f, "role \"{member}\" is a member of role \"{role}\"")
}

impl fmt::Display for Cause {
    ghost use Rattle.std.specs.Prelude.{Some};
    ghost use Rattle.rls_value.specs.Refusals.{cause_text};

    ghost output = { λ cause. Some (cause_text cause) };

    fn fmt<W: fmt::Write>(&self, f: &mut fmt::Formatter<W>) -> fmt::Result {
        match self {
            Cause::Written(object, other) => write_written(f, object, *other),
            Cause::Structure {
                first,
                read_by_first,
                pivot,
                read_by_pivot,
                last,
            } => write_structure(f, *first, read_by_first, *pivot, read_by_pivot, *last),
        }
    }
}

fn write_written<W: fmt::Write>(
    f: &mut fmt::Formatter<W>,
    object: &Object,
    other: u64,
) -> fmt::Result
    ensures { WritesOnOk W.write_str_gives f.old result (spec.cause_text (Cause.Written object.now other)) f.new }
{
    write!(f, "{object} was written by {other}")
}

// Who read what, the pivot that wrote the one and read the other, and who wrote that.
fn write_structure<W: fmt::Write>(
    f: &mut fmt::Formatter<W>,
    first: u64,
    read_by_first: &Object,
    pivot: u64,
    read_by_pivot: &Object,
    last: u64,
) -> fmt::Result
    ensures { WritesOnOk W.write_str_gives f.old result ((decimal first ++ (codes " read " ++ (object_text read_by_first.now ++ (codes ", " ++ (decimal pivot ++ codes " wrote it; "))))) ++ (decimal pivot ++ (codes " read " ++ (object_text read_by_pivot.now ++ (codes ", " ++ (decimal last ++ codes " wrote it")))))) f.new }
{
    write!(f, "{first} read {read_by_first}, {pivot} wrote it; ")?;
    write!(f, "{pivot} read {read_by_pivot}, {last} wrote it")
}
