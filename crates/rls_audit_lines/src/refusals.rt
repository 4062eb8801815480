//! Refusals as JSON: their number, and what is said of them.

ghost use Rattle.std.specs.Prelude.{◌≡◌, false, codes, IfOk, OnOk, option_map};
ghost use Rattle.rls_audit_lines.specs.RefusalCodecs as codec;
ghost use Rattle.rls_audit_lines.specs.Unshown.{Gives};
ghost use Rattle.rls_audit_lines.specs.RefusalCodecs.{IsAudited, column_behind, why_behind, fault_behind, state_behind, name_item, empty_item};
ghost use Rattle.rls_codec.specs.Arrays.{part, no_more};
ghost use Rattle.rls_codec.specs.Looking.{by_number, is_head};
ghost use Rattle.rls_codec.specs.Reading.{Reads};
ghost use Rattle.serde_json.specs.Data.{array, item as then_items, no_items, number as number_data, string, unsigned};
ghost use Rattle.serde_json.specs.Find.{at};
ghost use Rattle.serde_json.specs.View.{view};
ghost use Rattle.rls_value.specs.Names.{IsName};
ghost use Rattle.rls_value.specs.declared.refusal.Why.TheVariants.{Column};

use crate::format::{Audit, Format};
use crate::unshown::Unshown;
use rls_codec::{Coded, Unread, is_number, is_word, item, json_of, require_length};
use rls_value::{GrantFault, Name, Privilege, Refusal, TxnState, Why};
use serde_json::{Value, json};
use std::alloc::{AllocError, Global};
use std::marker::Model;

/// A refusal that may be in an audit: none of a text that is no statement, of a login or of a commit.
#[derive(Drop)]
pub struct Audited {
    refusal: Refusal,
}

impl Model for Audited {
    ghost use Rattle.rls_value.specs.declared.refusal.Refusal.{Refusal as Refused};
    ghost use Rattle.rls_value.specs.contracts.refusal.Refusal as refused;
    ghost use Rattle.rls_audit_lines.specs.RefusalCodecs.{IsAudited};

    ghost Value = { Refused };

    ghost coded = { refused.the_row.coded };

    ghost view = { λ it. it.refusal };

    ghost invariant = { λ it. IsAudited it.refusal };
}

impl Audited {
    /// A copy of the refusal, if an audit may have it.
    pub fn copy_of(alloc: Global, refusal: &Refusal) -> Result<Audited, Unshown>
        ensures { Gives result (IsAudited refusal.now) (λ audited. audited ≡ refusal.now) }
    {
        match refusal {
            Refusal::NoMemory | Refusal::Syntax | Refusal::NoLogin(_) => Err(Unshown::Never),
            Refusal::Serial(_) | Refusal::Foreign | Refusal::BadAudit(_) => Err(Unshown::Never),
            Refusal::Limit(_) | Refusal::TxnState(_) | Refusal::Undefined(_, _) => {
                copied(alloc, refusal)
            }
            Refusal::Duplicate(_, _) | Refusal::TypeFault | Refusal::Unsupported => {
                copied(alloc, refusal)
            }
            Refusal::Recursion(_) | Refusal::Denied(_) | Refusal::GrantOp(_) => {
                copied(alloc, refusal)
            }
            Refusal::Dependent(_) | Refusal::Range(_) | Refusal::NotNull(_) => {
                copied(alloc, refusal)
            }
            Refusal::Unique(_) => copied(alloc, refusal),
        }
    }

    pub fn get(&self) -> &Refusal
        ensures { result.now ≡ self.now }
    {
        &self.refusal
    }
}

fn copied(alloc: Global, refusal: &Refusal) -> Result<Audited, Unshown>
    requires { IsAudited refusal.now }
    ensures { Gives result (IsAudited refusal.now) (λ audited. audited ≡ refusal.now) }
{
    Ok(Audited {
        refusal: refusal.copy(alloc)?,
    })
}

impl<F: Format> Coded<Audit<F>> for Audited {
    ghost codec = { codec.refusal F.second };

    fn to_json(&self, alloc: Global) -> Result<Value, AllocError> {
        match &self.refusal {
            Refusal::Limit(limit) => json!(in alloc; [3u64, json_of::<Audit<F>, _>(alloc, limit)?]),
            Refusal::TxnState(state) => write_state::<F>(alloc, *state),
            Refusal::Undefined(kind, name) => json!(in alloc; [
                6u64,
                json_of::<Audit<F>, _>(alloc, kind)?,
                json_of::<Audit<F>, _>(alloc, name)?
            ]),
            Refusal::Duplicate(kind, name) => json!(in alloc; [
                7u64,
                json_of::<Audit<F>, _>(alloc, kind)?,
                json_of::<Audit<F>, _>(alloc, name)?
            ]),
            Refusal::TypeFault => json!(in alloc; [8u64]),
            Refusal::Unsupported => json!(in alloc; [9u64]),
            Refusal::Recursion(table) => write_named::<F>(alloc, 10, table),
            Refusal::Denied(why) => write_why::<F>(alloc, why),
            Refusal::GrantOp(fault) => write_fault::<F>(alloc, fault),
            Refusal::Dependent(table) => write_named::<F>(alloc, 13, table),
            Refusal::Range(column) => write_named::<F>(alloc, 14, column),
            Refusal::NotNull(column) => write_named::<F>(alloc, 15, column),
            Refusal::Unique(table) => write_named::<F>(alloc, 16, table),
            Refusal::NoMemory | Refusal::Syntax | Refusal::NoLogin(_) => unreachable!(),
            Refusal::Serial(_) | Refusal::Foreign | Refusal::BadAudit(_) => unreachable!(),
        }
    }

    fn from_json(alloc: Global, json: &Value) -> Result<Audited, Unread> {
        Ok(Audited {
            refusal: read_refusal::<F>(alloc, json)?,
        })
    }
}

/// The number, and the name.
fn write_named<F: Format>(alloc: Global, number: u64, name: &Name) -> Result<Value, AllocError>
    ensures json { IfOk result (λ json. view json ≡ array (then_items (number_data (unsigned number)) (then_items (string name.now) no_items))) }
    ensures fits { OnOk result (IsName name.now) }
{
    json!(in alloc; [number, json_of::<Audit<F>, _>(alloc, name)?])
}

/// The number of what the transaction's state doesn't allow, the code, and the tag.
fn write_state<F: Format>(alloc: Global, state: TxnState) -> Result<Value, AllocError>
    ensures json { IfOk result (λ json. view json ≡ array (then_items (number_data (unsigned 4)) (state_behind.written state))) }
    ensures fits { OnOk result (state_behind.Fits state) }
{
    match state {
        TxnState::AlreadyInProgress => json!(in alloc; [4u64, "25001", ""]),
        TxnState::NoneInProgress => json!(in alloc; [4u64, "25P01", ""]),
        TxnState::Over => json!(in alloc; [4u64, "25P02", ""]),
        TxnState::ReadOnly(tag) =>
            json!(in alloc; [4u64, "25006", json_of::<Audit<F>, _>(alloc, &tag)?]),
    }
}

/// The number of what is denied, and what is missing.
fn write_why<F: Format>(alloc: Global, why: &Why) -> Result<Value, AllocError>
    ensures json { IfOk result (λ json. view json ≡ array (then_items (number_data (unsigned 11)) ((why_behind F.second).written why.now))) }
    ensures fits { OnOk result ((why_behind F.second).Fits why.now) }
{
    match why {
        Why::Privilege(privilege, table) => write_two::<F, _, _>(
            alloc,
            "Privilege",
            privilege,
            table,
        ),
        Why::Owner(table) => write_one::<F>(alloc, 11, "Owner", table),
        Why::Admin(role) => write_one::<F>(alloc, 11, "Admin", role),
        Why::SetRole(role) => write_one::<F>(alloc, 11, "SetRole", role),
        Why::GrantOption(privilege, table) => write_two::<F, _, _>(
            alloc,
            "GrantOption",
            privilege,
            table,
        ),
        Why::NoPermissive(table, kind) => write_two::<F, _, _>(alloc, "NoPermissive", table, kind),
        Why::Restrictive(policy, table) => write_two::<F, _, _>(
            alloc,
            "Restrictive",
            policy,
            table,
        ),
        Why::Column(privilege, table, column) => {
            write_column::<F>(alloc, *privilege, table, column)
        }
    }
}

/// The number of what is denied, and the privilege that is missing on a column; it has no form in the first format, which nobody
/// writes.
fn write_column<F: Format>(
    alloc: Global,
    privilege: Privilege,
    table: &Name,
    column: &Name,
) -> Result<Value, AllocError>
    ensures json { IfOk result (λ json. view json ≡ array (then_items (number_data (unsigned 11)) (then_items (string (codes "Column")) ((column_behind F.second).written (privilege, (table.now, (column.now, tt))))))) }
    ensures fits { OnOk result ((column_behind F.second).Fits (privilege, (table.now, (column.now, tt)))) }
{
    if !F::is_second() {
        return Err(AllocError);
    }
    json!(in alloc; [
        11u64,
        "Column",
        json_of::<Audit<F>, _>(alloc, &privilege)?,
        json_of::<Audit<F>, _>(alloc, table)?,
        json_of::<Audit<F>, _>(alloc, column)?
    ])
}

/// The number, the word, and the name.
fn write_one<F: Format>(
    alloc: Global,
    number: u64,
    word: &str,
    name: &Name,
) -> Result<Value, AllocError>
    ensures json { IfOk result (λ json. view json ≡ array (then_items (number_data (unsigned number)) (then_items (string word.now) (then_items (string name.now) no_items)))) }
    ensures fits { OnOk result (IsName name.now) }
{
    json!(in alloc; [number, word, json_of::<Audit<F>, _>(alloc, name)?])
}

/// The number of what is denied, the word, and two that belong to it.
fn write_two<F: Format, A: Coded<Audit<F>>, B: Coded<Audit<F>>>(
    alloc: Global,
    word: &str,
    first: &A,
    second: &B,
) -> Result<Value, AllocError>
    ensures json { IfOk result (λ json. view json ≡ array (then_items (number_data (unsigned 11)) (then_items (string word.now) (then_items (A.codec.written first.now) (then_items (B.codec.written second.now) no_items))))) }
    ensures first_fits { OnOk result (A.codec.Fits first.now) }
    ensures second_fits { OnOk result (B.codec.Fits second.now) }
{
    json!(in alloc; [
        11u64,
        word,
        json_of::<Audit<F>, _>(alloc, first)?,
        json_of::<Audit<F>, _>(alloc, second)?
    ])
}

/// The number of a grant that may not be, and the fault.
fn write_fault<F: Format>(alloc: Global, fault: &GrantFault) -> Result<Value, AllocError>
    ensures json { IfOk result (λ json. view json ≡ array (then_items (number_data (unsigned 12)) (fault_behind.written fault.now))) }
    ensures fits { OnOk result (fault_behind.Fits fault.now) }
{
    match fault {
        GrantFault::Cycle(member, role) => json!(in alloc; [
            12u64,
            "Cycle",
            json_of::<Audit<F>, _>(alloc, member)?,
            json_of::<Audit<F>, _>(alloc, role)?
        ]),
        GrantFault::PublicOption => json!(in alloc; [12u64, "PublicOption"]),
        GrantFault::Back(grantee) => write_one::<F>(alloc, 12, "Back", grantee),
    }
}

fn read_refusal<F: Format>(alloc: Global, json: &Value) -> Result<Refusal, Unread>
    ensures found { Reads result ((codec.refusal F.second).found (view json.now)) }
    ensures audited { IfOk result IsAudited }
{
    if is_number(json, 0, 3) {
        let limit = item::<Audit<F>, _>(alloc, json, 1)?;
        require_length(json, 2)?;
        return Ok(Refusal::Limit(limit));
    }
    if is_number(json, 0, 4) {
        return Ok(Refusal::TxnState(read_state::<F>(alloc, json)?));
    }
    if is_number(json, 0, 6) {
        let kind = item::<Audit<F>, _>(alloc, json, 1)?;
        let name = item::<Audit<F>, _>(alloc, json, 2)?;
        require_length(json, 3)?;
        return Ok(Refusal::Undefined(kind, name));
    }
    if is_number(json, 0, 7) {
        let kind = item::<Audit<F>, _>(alloc, json, 1)?;
        let name = item::<Audit<F>, _>(alloc, json, 2)?;
        require_length(json, 3)?;
        return Ok(Refusal::Duplicate(kind, name));
    }
    if is_number(json, 0, 11) {
        return Ok(Refusal::Denied(read_why::<F>(alloc, json)?));
    }
    if is_number(json, 0, 12) {
        return Ok(Refusal::GrantOp(read_fault::<F>(alloc, json)?));
    }
    read_plain::<F>(alloc, json)
}

/// One of those of which a name is said at most.
fn read_plain<F: Format>(alloc: Global, json: &Value) -> Result<Refusal, Unread>
    requires limit { is_head (by_number 3) (at 0 (view json.now)) ≡ false }
    requires state { is_head (by_number 4) (at 0 (view json.now)) ≡ false }
    requires undefined { is_head (by_number 6) (at 0 (view json.now)) ≡ false }
    requires duplicate { is_head (by_number 7) (at 0 (view json.now)) ≡ false }
    requires denied { is_head (by_number 11) (at 0 (view json.now)) ≡ false }
    requires fault { is_head (by_number 12) (at 0 (view json.now)) ≡ false }
    ensures found { Reads result ((codec.refusal F.second).found (view json.now)) }
    ensures audited { IfOk result IsAudited }
{
    if is_number(json, 0, 8) {
        require_length(json, 1)?;
        return Ok(Refusal::TypeFault);
    }
    if is_number(json, 0, 9) {
        require_length(json, 1)?;
        return Ok(Refusal::Unsupported);
    }
    if is_number(json, 0, 10) {
        return Ok(Refusal::Recursion(read_named::<F>(alloc, json)?));
    }
    if is_number(json, 0, 13) {
        return Ok(Refusal::Dependent(read_named::<F>(alloc, json)?));
    }
    if is_number(json, 0, 14) {
        return Ok(Refusal::Range(read_named::<F>(alloc, json)?));
    }
    if is_number(json, 0, 15) {
        return Ok(Refusal::NotNull(read_named::<F>(alloc, json)?));
    }
    if is_number(json, 0, 16) {
        return Ok(Refusal::Unique(read_named::<F>(alloc, json)?));
    }
    Err(Unread::Bad)
}

/// The name behind the number.
fn read_named<F: Format>(alloc: Global, json: &Value) -> Result<Name, Unread>
    ensures { Reads result (option_map (λ p. p.0) (name_item.found 1 (view json.now))) }
{
    let name = item::<Audit<F>, _>(alloc, json, 1)?;
    require_length(json, 2)?;
    Ok(name)
}

/// What the transaction's state doesn't allow, behind the number.
fn read_state<F: Format>(alloc: Global, json: &Value) -> Result<TxnState, Unread>
    ensures { Reads result (state_behind.found 1 (view json.now)) }
{
    if is_word(json, 1, "25001") {
        require_empty(json)?;
        return Ok(TxnState::AlreadyInProgress);
    }
    if is_word(json, 1, "25P01") {
        require_empty(json)?;
        return Ok(TxnState::NoneInProgress);
    }
    if is_word(json, 1, "25P02") {
        require_empty(json)?;
        return Ok(TxnState::Over);
    }
    if is_word(json, 1, "25006") {
        let tag = item::<Audit<F>, _>(alloc, json, 2)?;
        require_length(json, 3)?;
        return Ok(TxnState::ReadOnly(tag));
    }
    Err(Unread::Bad)
}

/// Passes an empty text as the last item, where the tag would stand.
fn require_empty(json: &Value) -> Result<(), Unread>
    ensures { Reads result (option_map (λ p. p.0) (empty_item.found 2 (view json.now))) }
{
    if !is_word(json, 2, "") {
        return Err(Unread::Bad);
    }
    require_length(json, 3)
}

/// What is missing, behind the number.
fn read_why<F: Format>(alloc: Global, json: &Value) -> Result<Why, Unread>
    ensures { Reads result ((why_behind F.second).found 1 (view json.now)) }
{
    if is_word(json, 1, "Privilege") {
        let (privilege, table) = read_two::<F, _, _>(alloc, json)?;
        return Ok(Why::Privilege(privilege, table));
    }
    if is_word(json, 1, "Owner") {
        return Ok(Why::Owner(read_last::<F>(alloc, json)?));
    }
    if is_word(json, 1, "Admin") {
        return Ok(Why::Admin(read_last::<F>(alloc, json)?));
    }
    if is_word(json, 1, "SetRole") {
        return Ok(Why::SetRole(read_last::<F>(alloc, json)?));
    }
    if is_word(json, 1, "GrantOption") {
        let (privilege, table) = read_two::<F, _, _>(alloc, json)?;
        return Ok(Why::GrantOption(privilege, table));
    }
    if is_word(json, 1, "NoPermissive") {
        let (table, kind) = read_two::<F, _, _>(alloc, json)?;
        return Ok(Why::NoPermissive(table, kind));
    }
    if is_word(json, 1, "Restrictive") {
        let (policy, table) = read_two::<F, _, _>(alloc, json)?;
        return Ok(Why::Restrictive(policy, table));
    }
    if is_word(json, 1, "Column") {
        return read_column::<F>(alloc, json);
    }
    Err(Unread::Bad)
}

/// The privilege that is missing, the table and the column behind the number and a word; the first format has none.
fn read_column<F: Format>(alloc: Global, json: &Value) -> Result<Why, Unread>
    ensures { Reads result (option_map (λ p. Column p.0 p.1.0 p.1.1.0) ((column_behind F.second).found 2 (view json.now))) }
{
    if !F::is_second() {
        return Err(Unread::Bad);
    }
    let privilege = item::<Audit<F>, _>(alloc, json, 2)?;
    let table = item::<Audit<F>, _>(alloc, json, 3)?;
    let column = item::<Audit<F>, _>(alloc, json, 4)?;
    require_length(json, 5)?;
    Ok(Why::Column(privilege, table, column))
}

/// The name behind the number and a word.
fn read_last<F: Format>(alloc: Global, json: &Value) -> Result<Name, Unread>
    ensures { Reads result (option_map (λ p. p.0) (name_item.found 2 (view json.now))) }
{
    let name = item::<Audit<F>, _>(alloc, json, 2)?;
    require_length(json, 3)?;
    Ok(name)
}

/// The two behind the number and a word.
fn read_two<F: Format, A: Coded<Audit<F>> + Drop, B: Coded<Audit<F>> + Drop>(
    alloc: Global,
    json: &Value,
) -> Result<(A, B), Unread>
    ensures { Reads result (option_map (λ p. (p.0, p.1.0)) ((part A.codec (part B.codec no_more)).found 2 (view json.now))) }
{
    let first = item::<Audit<F>, _>(alloc, json, 2)?;
    let second = item::<Audit<F>, _>(alloc, json, 3)?;
    require_length(json, 4)?;
    Ok((first, second))
}

/// The fault, behind the number.
fn read_fault<F: Format>(alloc: Global, json: &Value) -> Result<GrantFault, Unread>
    ensures { Reads result (fault_behind.found 1 (view json.now)) }
{
    if is_word(json, 1, "Cycle") {
        let (member, role) = read_two::<F, _, _>(alloc, json)?;
        return Ok(GrantFault::Cycle(member, role));
    }
    if is_word(json, 1, "PublicOption") {
        require_length(json, 2)?;
        return Ok(GrantFault::PublicOption);
    }
    if is_word(json, 1, "Back") {
        return Ok(GrantFault::Back(read_last::<F>(alloc, json)?));
    }
    Err(Unread::Bad)
}
