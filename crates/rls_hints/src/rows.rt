//! What may stand for each phrase.

ghost use Rattle.std.specs.Prelude.{◌≡◌, map};
ghost use Rattle.rls_hints.specs.Rows.{alternatives};

use crate::grammar::Item::{self, Name, Number, Part, Sign, Text, Word};
use crate::grammar::Phrase;
use crate::keyword::Keyword;
use crate::token::Mark;

/// The rows of what may stand for the phrase.
#[tactic(auto, unfolding(crate::specs::Rows::alternatives))]
pub fn rows_of(phrase: Phrase) -> &'static [&'static [Item]]
    ensures { map (λ row. row.now) result.now ≡ alternatives phrase }
{
    match phrase {
        Phrase::Command => COMMAND,
        Phrase::Semicolon => SEMICOLON,
        Phrase::MoreNames => MORE_NAMES,
        Phrase::Item => ITEM,
        Phrase::Minus => MINUS,
        Phrase::Column => COLUMN,
        Phrase::Qualified => QUALIFIED,
        Phrase::MoreItems => MORE_ITEMS,
        Phrase::Select => SELECT,
        Phrase::Selected => SELECTED,
        Phrase::Alias => ALIAS,
        Phrase::As => AS,
        Phrase::Where => WHERE,
        Phrase::Returning => RETURNING,
        Phrase::Returned => RETURNED,
        Phrase::Expression => EXPRESSION,
        Phrase::MoreOr => MORE_OR,
        Phrase::Conjunction => CONJUNCTION,
        Phrase::MoreAnd => MORE_AND,
        Phrase::Test => TEST,
        Phrase::Nots => NOTS,
        Phrase::NullTests => NULL_TESTS,
        Phrase::Not => NOT,
        Phrase::Compared => COMPARED,
        Phrase::Comparison => COMPARISON,
        Phrase::Member => MEMBER,
        Phrase::In => IN,
        Phrase::Choices => CHOICES,
        Phrase::MoreExpressions => MORE_EXPRESSIONS,
        Phrase::Sum => SUM,
        Phrase::MoreOperands => MORE_OPERANDS,
        Phrase::PartSign => PART_SIGN,
        Phrase::Operand => OPERAND,
        Phrase::Enclosed => ENCLOSED,
        Phrase::ColumnsMaybe => COLUMNS_MAYBE,
        Phrase::Tuple => TUPLE,
        Phrase::MoreTuples => MORE_TUPLES,
        Phrase::Assigned => ASSIGNED,
        Phrase::MoreAssigned => MORE_ASSIGNED,
        Phrase::Created => CREATED,
        Phrase::Altered => ALTERED,
        Phrase::Attributes => ATTRIBUTES,
        Phrase::With => WITH,
        Phrase::Attribute => ATTRIBUTE,
        Phrase::MoreAttributes => MORE_ATTRIBUTES,
        Phrase::Definition => DEFINITION,
        Phrase::ColumnType => COLUMN_TYPE,
        Phrase::Marks => MARKS,
        Phrase::Mark => MARK,
        Phrase::MoreColumns => MORE_COLUMNS,
        Phrase::Key => KEY,
        Phrase::RowChange => ROW_CHANGE,
        Phrase::Permissive => PERMISSIVE,
        Phrase::PermissiveWord => PERMISSIVE_WORD,
        Phrase::For => FOR,
        Phrase::PolicyKind => POLICY_KIND,
        Phrase::To => TO,
        Phrase::Grantee => GRANTEE,
        Phrase::MoreGrantees => MORE_GRANTEES,
        Phrase::Using => USING,
        Phrase::Check => CHECK,
        Phrase::Granted => GRANTED,
        Phrase::Revoked => REVOKED,
        Phrase::Privileges => PRIVILEGES,
        Phrase::PrivilegesWord => PRIVILEGES_WORD,
        Phrase::Privilege => PRIVILEGE,
        Phrase::ColumnPrivilege => COLUMN_PRIVILEGE,
        Phrase::MorePrivileges => MORE_PRIVILEGES,
        Phrase::Table => TABLE,
        Phrase::GrantOption => GRANT_OPTION,
        Phrase::GrantOptionFor => GRANT_OPTION_FOR,
        Phrase::Cascade => CASCADE,
        Phrase::CascadeWord => CASCADE_WORD,
        Phrase::MembershipOption => MEMBERSHIP_OPTION,
        Phrase::Flag => FLAG,
        Phrase::Settings => SETTINGS,
        Phrase::MoreSettings => MORE_SETTINGS,
        Phrase::ChosenRole => CHOSEN_ROLE,
        Phrase::CommitWord => COMMIT_WORD,
        Phrase::RollbackWord => ROLLBACK_WORD,
        Phrase::Work => WORK,
        Phrase::WorkWord => WORK_WORD,
        Phrase::Modes => MODES,
        Phrase::Mode => MODE,
        Phrase::Access => ACCESS,
        Phrase::MoreModes => MORE_MODES,
        Phrase::Comma => COMMA,
    }
}

// what a line asks for

const COMMAND: &[&[Item]] = &[
    &[Part(Phrase::Select)],
    &[
        Word(Keyword::Insert),
        Word(Keyword::Into),
        Name,
        Part(Phrase::ColumnsMaybe),
        Word(Keyword::Values),
        Part(Phrase::Tuple),
        Part(Phrase::MoreTuples),
        Part(Phrase::Returning),
    ],
    &[
        Word(Keyword::Update),
        Name,
        Word(Keyword::Set),
        Part(Phrase::Assigned),
        Part(Phrase::MoreAssigned),
        Part(Phrase::Where),
        Part(Phrase::Returning),
    ],
    &[
        Word(Keyword::Delete),
        Word(Keyword::From),
        Name,
        Part(Phrase::Where),
        Part(Phrase::Returning),
    ],
    &[Word(Keyword::Create), Part(Phrase::Created)],
    &[Word(Keyword::Alter), Part(Phrase::Altered)],
    &[
        Word(Keyword::Drop),
        Word(Keyword::Policy),
        Name,
        Word(Keyword::On),
        Name,
    ],
    &[Word(Keyword::Grant), Part(Phrase::Granted)],
    &[Word(Keyword::Revoke), Part(Phrase::Revoked)],
    &[
        Word(Keyword::Set),
        Word(Keyword::Role),
        Part(Phrase::ChosenRole),
    ],
    &[Word(Keyword::Reset), Word(Keyword::Role)],
    &[
        Word(Keyword::Begin),
        Part(Phrase::Work),
        Part(Phrase::Modes),
    ],
    &[
        Word(Keyword::Start),
        Word(Keyword::Transaction),
        Part(Phrase::Modes),
    ],
    &[Part(Phrase::CommitWord), Part(Phrase::Work)],
    &[Part(Phrase::RollbackWord), Part(Phrase::Work)],
];

const SEMICOLON: &[&[Item]] = &[&[], &[Sign(Mark::Semicolon)]];

// names and items

const MORE_NAMES: &[&[Item]] = &[&[], &[Sign(Mark::Comma), Name, Part(Phrase::MoreNames)]];

const ITEM: &[&[Item]] = &[
    &[Word(Keyword::True)],
    &[Word(Keyword::False)],
    &[Word(Keyword::Null)],
    &[Text],
    &[Part(Phrase::Minus), Number],
    &[Part(Phrase::Column)],
    &[Word(Keyword::CurrentUser)],
];

const MINUS: &[&[Item]] = &[&[], &[Sign(Mark::Minus)]];

const COLUMN: &[&[Item]] = &[&[Name, Part(Phrase::Qualified)]];

const QUALIFIED: &[&[Item]] = &[&[], &[Sign(Mark::Dot), Name]];

const MORE_ITEMS: &[&[Item]] = &[
    &[],
    &[
        Sign(Mark::Comma),
        Part(Phrase::Item),
        Part(Phrase::MoreItems),
    ],
];

// SELECT

const SELECT: &[&[Item]] = &[&[
    Word(Keyword::Select),
    Part(Phrase::Selected),
    Word(Keyword::From),
    Name,
    Part(Phrase::Alias),
    Part(Phrase::Where),
]];

const SELECTED: &[&[Item]] = &[
    &[Sign(Mark::Star)],
    &[
        Word(Keyword::Count),
        Sign(Mark::Open),
        Sign(Mark::Star),
        Sign(Mark::Close),
    ],
    &[Part(Phrase::Item), Part(Phrase::MoreItems)],
];

const ALIAS: &[&[Item]] = &[&[], &[Part(Phrase::As), Name]];

const AS: &[&[Item]] = &[&[], &[Word(Keyword::As)]];

const WHERE: &[&[Item]] = &[&[], &[Word(Keyword::Where), Part(Phrase::Expression)]];

const RETURNING: &[&[Item]] = &[&[], &[Word(Keyword::Returning), Part(Phrase::Returned)]];

const RETURNED: &[&[Item]] = &[
    &[Sign(Mark::Star)],
    &[Part(Phrase::Item), Part(Phrase::MoreItems)],
];

// expressions

const EXPRESSION: &[&[Item]] = &[&[Part(Phrase::Conjunction), Part(Phrase::MoreOr)]];

const MORE_OR: &[&[Item]] = &[
    &[],
    &[
        Word(Keyword::Or),
        Part(Phrase::Conjunction),
        Part(Phrase::MoreOr),
    ],
];

const CONJUNCTION: &[&[Item]] = &[&[Part(Phrase::Test), Part(Phrase::MoreAnd)]];

const MORE_AND: &[&[Item]] = &[
    &[],
    &[
        Word(Keyword::And),
        Part(Phrase::Test),
        Part(Phrase::MoreAnd),
    ],
];

const TEST: &[&[Item]] = &[&[
    Part(Phrase::Nots),
    Part(Phrase::Member),
    Part(Phrase::Compared),
    Part(Phrase::NullTests),
]];

const NOTS: &[&[Item]] = &[&[], &[Word(Keyword::Not), Part(Phrase::Nots)]];

const NULL_TESTS: &[&[Item]] = &[
    &[],
    &[
        Word(Keyword::Is),
        Part(Phrase::Not),
        Word(Keyword::Null),
        Part(Phrase::NullTests),
    ],
];

const NOT: &[&[Item]] = &[&[], &[Word(Keyword::Not)]];

const COMPARED: &[&[Item]] = &[&[], &[Part(Phrase::Comparison), Part(Phrase::Member)]];

const COMPARISON: &[&[Item]] = &[
    &[Sign(Mark::Equal)],
    &[Sign(Mark::NotEqual)],
    &[Sign(Mark::Less)],
    &[Sign(Mark::LessOrEqual)],
    &[Sign(Mark::Greater)],
    &[Sign(Mark::GreaterOrEqual)],
];

const MEMBER: &[&[Item]] = &[&[Part(Phrase::Sum), Part(Phrase::In)]];

const IN: &[&[Item]] = &[
    &[],
    &[
        Part(Phrase::Not),
        Word(Keyword::In),
        Sign(Mark::Open),
        Part(Phrase::Choices),
        Sign(Mark::Close),
    ],
];

const CHOICES: &[&[Item]] = &[
    &[Part(Phrase::Select)],
    &[Part(Phrase::Expression), Part(Phrase::MoreExpressions)],
];

const MORE_EXPRESSIONS: &[&[Item]] = &[
    &[],
    &[
        Sign(Mark::Comma),
        Part(Phrase::Expression),
        Part(Phrase::MoreExpressions),
    ],
];

const SUM: &[&[Item]] = &[&[Part(Phrase::Operand), Part(Phrase::MoreOperands)]];

const MORE_OPERANDS: &[&[Item]] = &[
    &[],
    &[
        Part(Phrase::PartSign),
        Part(Phrase::Operand),
        Part(Phrase::MoreOperands),
    ],
];

const PART_SIGN: &[&[Item]] = &[&[Sign(Mark::Plus)], &[Sign(Mark::Minus)]];

const OPERAND: &[&[Item]] = &[
    &[Part(Phrase::Item)],
    &[
        Word(Keyword::Exists),
        Sign(Mark::Open),
        Part(Phrase::Select),
        Sign(Mark::Close),
    ],
    &[Sign(Mark::Open), Part(Phrase::Enclosed), Sign(Mark::Close)],
];

const ENCLOSED: &[&[Item]] = &[&[Part(Phrase::Select)], &[Part(Phrase::Expression)]];

// INSERT and UPDATE

const COLUMNS_MAYBE: &[&[Item]] = &[
    &[],
    &[
        Sign(Mark::Open),
        Name,
        Part(Phrase::MoreNames),
        Sign(Mark::Close),
    ],
];

const TUPLE: &[&[Item]] = &[&[
    Sign(Mark::Open),
    Part(Phrase::Expression),
    Part(Phrase::MoreExpressions),
    Sign(Mark::Close),
]];

const MORE_TUPLES: &[&[Item]] = &[
    &[],
    &[
        Sign(Mark::Comma),
        Part(Phrase::Tuple),
        Part(Phrase::MoreTuples),
    ],
];

const ASSIGNED: &[&[Item]] = &[&[Name, Sign(Mark::Equal), Part(Phrase::Expression)]];

const MORE_ASSIGNED: &[&[Item]] = &[
    &[],
    &[
        Sign(Mark::Comma),
        Part(Phrase::Assigned),
        Part(Phrase::MoreAssigned),
    ],
];

// CREATE and ALTER

const CREATED: &[&[Item]] = &[
    &[Word(Keyword::Role), Name, Part(Phrase::Attributes)],
    &[Word(Keyword::User), Name, Part(Phrase::Attributes)],
    &[
        Word(Keyword::Table),
        Name,
        Sign(Mark::Open),
        Part(Phrase::Definition),
        Part(Phrase::MoreColumns),
        Part(Phrase::Key),
        Sign(Mark::Close),
    ],
    &[
        Word(Keyword::Policy),
        Name,
        Word(Keyword::On),
        Name,
        Part(Phrase::Permissive),
        Part(Phrase::For),
        Part(Phrase::To),
        Part(Phrase::Using),
        Part(Phrase::Check),
    ],
];

const ALTERED: &[&[Item]] = &[
    &[
        Word(Keyword::Role),
        Name,
        Part(Phrase::With),
        Part(Phrase::Attribute),
        Part(Phrase::MoreAttributes),
    ],
    &[
        Word(Keyword::Table),
        Name,
        Part(Phrase::RowChange),
        Word(Keyword::Row),
        Word(Keyword::Level),
        Word(Keyword::Security),
    ],
    &[
        Word(Keyword::Policy),
        Name,
        Word(Keyword::On),
        Name,
        Part(Phrase::To),
        Part(Phrase::Using),
        Part(Phrase::Check),
    ],
];

const ATTRIBUTES: &[&[Item]] = &[
    &[],
    &[
        Part(Phrase::With),
        Part(Phrase::Attribute),
        Part(Phrase::MoreAttributes),
    ],
];

const WITH: &[&[Item]] = &[&[], &[Word(Keyword::With)]];

const ATTRIBUTE: &[&[Item]] = &[
    &[Word(Keyword::Superuser)],
    &[Word(Keyword::Nosuperuser)],
    &[Word(Keyword::Login)],
    &[Word(Keyword::Nologin)],
    &[Word(Keyword::Bypassrls)],
    &[Word(Keyword::Nobypassrls)],
];

const MORE_ATTRIBUTES: &[&[Item]] = &[
    &[],
    &[Part(Phrase::Attribute), Part(Phrase::MoreAttributes)],
];

const DEFINITION: &[&[Item]] = &[&[Name, Part(Phrase::ColumnType), Part(Phrase::Marks)]];

const COLUMN_TYPE: &[&[Item]] = &[
    &[Word(Keyword::Integer)],
    &[Word(Keyword::Int)],
    &[Word(Keyword::Bigint)],
    &[Word(Keyword::Text)],
    &[Word(Keyword::Boolean)],
    &[Word(Keyword::Bool)],
];

const MARKS: &[&[Item]] = &[&[], &[Part(Phrase::Mark), Part(Phrase::Marks)]];

const MARK: &[&[Item]] = &[
    &[Word(Keyword::Not), Word(Keyword::Null)],
    &[Word(Keyword::Primary), Word(Keyword::Key)],
];

const MORE_COLUMNS: &[&[Item]] = &[
    &[],
    &[
        Sign(Mark::Comma),
        Part(Phrase::Definition),
        Part(Phrase::MoreColumns),
    ],
];

const KEY: &[&[Item]] = &[
    &[],
    &[
        Sign(Mark::Comma),
        Word(Keyword::Primary),
        Word(Keyword::Key),
        Sign(Mark::Open),
        Name,
        Part(Phrase::MoreNames),
        Sign(Mark::Close),
    ],
];

const ROW_CHANGE: &[&[Item]] = &[
    &[Word(Keyword::Enable)],
    &[Word(Keyword::Disable)],
    &[Word(Keyword::Force)],
    &[Word(Keyword::No), Word(Keyword::Force)],
];

const PERMISSIVE: &[&[Item]] = &[&[], &[Word(Keyword::As), Part(Phrase::PermissiveWord)]];

const PERMISSIVE_WORD: &[&[Item]] = &[&[Word(Keyword::Permissive)], &[Word(Keyword::Restrictive)]];

const FOR: &[&[Item]] = &[&[], &[Word(Keyword::For), Part(Phrase::PolicyKind)]];

const POLICY_KIND: &[&[Item]] = &[
    &[Word(Keyword::All)],
    &[Word(Keyword::Select)],
    &[Word(Keyword::Insert)],
    &[Word(Keyword::Update)],
    &[Word(Keyword::Delete)],
];

const TO: &[&[Item]] = &[
    &[],
    &[
        Word(Keyword::To),
        Part(Phrase::Grantee),
        Part(Phrase::MoreGrantees),
    ],
];

const GRANTEE: &[&[Item]] = &[&[Word(Keyword::Public)], &[Name]];

const MORE_GRANTEES: &[&[Item]] = &[
    &[],
    &[
        Sign(Mark::Comma),
        Part(Phrase::Grantee),
        Part(Phrase::MoreGrantees),
    ],
];

const USING: &[&[Item]] = &[
    &[],
    &[
        Word(Keyword::Using),
        Sign(Mark::Open),
        Part(Phrase::Expression),
        Sign(Mark::Close),
    ],
];

const CHECK: &[&[Item]] = &[
    &[],
    &[
        Word(Keyword::With),
        Word(Keyword::Check),
        Sign(Mark::Open),
        Part(Phrase::Expression),
        Sign(Mark::Close),
    ],
];

// GRANT and REVOKE

const GRANTED: &[&[Item]] = &[
    &[
        Part(Phrase::Privileges),
        Word(Keyword::On),
        Part(Phrase::Table),
        Name,
        Word(Keyword::To),
        Part(Phrase::Grantee),
        Part(Phrase::MoreGrantees),
        Part(Phrase::GrantOption),
    ],
    &[
        Name,
        Part(Phrase::MoreNames),
        Word(Keyword::To),
        Name,
        Part(Phrase::MoreNames),
        Part(Phrase::Settings),
    ],
];

const REVOKED: &[&[Item]] = &[
    &[
        Part(Phrase::GrantOptionFor),
        Part(Phrase::Privileges),
        Word(Keyword::On),
        Part(Phrase::Table),
        Name,
        Word(Keyword::From),
        Part(Phrase::Grantee),
        Part(Phrase::MoreGrantees),
        Part(Phrase::Cascade),
    ],
    &[
        Part(Phrase::MembershipOption),
        Word(Keyword::Option),
        Word(Keyword::For),
        Name,
        Part(Phrase::MoreNames),
        Word(Keyword::From),
        Name,
        Part(Phrase::MoreNames),
        Part(Phrase::Cascade),
    ],
    &[
        Name,
        Part(Phrase::MoreNames),
        Word(Keyword::From),
        Name,
        Part(Phrase::MoreNames),
        Part(Phrase::Cascade),
    ],
];

const PRIVILEGES: &[&[Item]] = &[
    &[
        Word(Keyword::All),
        Part(Phrase::PrivilegesWord),
        Part(Phrase::ColumnsMaybe),
    ],
    &[Part(Phrase::Privilege), Part(Phrase::MorePrivileges)],
];

const PRIVILEGES_WORD: &[&[Item]] = &[&[], &[Word(Keyword::Privileges)]];

const PRIVILEGE: &[&[Item]] = &[
    &[Part(Phrase::ColumnPrivilege), Part(Phrase::ColumnsMaybe)],
    &[Word(Keyword::Delete)],
];

const COLUMN_PRIVILEGE: &[&[Item]] = &[
    &[Word(Keyword::Select)],
    &[Word(Keyword::Insert)],
    &[Word(Keyword::Update)],
];

const MORE_PRIVILEGES: &[&[Item]] = &[
    &[],
    &[
        Sign(Mark::Comma),
        Part(Phrase::Privilege),
        Part(Phrase::MorePrivileges),
    ],
];

const TABLE: &[&[Item]] = &[&[], &[Word(Keyword::Table)]];

const GRANT_OPTION: &[&[Item]] = &[
    &[],
    &[
        Word(Keyword::With),
        Word(Keyword::Grant),
        Word(Keyword::Option),
    ],
];

const GRANT_OPTION_FOR: &[&[Item]] = &[
    &[],
    &[
        Word(Keyword::Grant),
        Word(Keyword::Option),
        Word(Keyword::For),
    ],
];

const CASCADE: &[&[Item]] = &[&[], &[Part(Phrase::CascadeWord)]];

const CASCADE_WORD: &[&[Item]] = &[&[Word(Keyword::Cascade)], &[Word(Keyword::Restrict)]];

const MEMBERSHIP_OPTION: &[&[Item]] = &[
    &[Word(Keyword::Admin)],
    &[Word(Keyword::Inherit)],
    &[Word(Keyword::Set)],
];

const FLAG: &[&[Item]] = &[
    &[Word(Keyword::True)],
    &[Word(Keyword::Option)],
    &[Word(Keyword::False)],
];

const SETTINGS: &[&[Item]] = &[
    &[],
    &[
        Word(Keyword::With),
        Part(Phrase::MembershipOption),
        Part(Phrase::Flag),
        Part(Phrase::MoreSettings),
    ],
];

const MORE_SETTINGS: &[&[Item]] = &[
    &[],
    &[
        Sign(Mark::Comma),
        Part(Phrase::MembershipOption),
        Part(Phrase::Flag),
        Part(Phrase::MoreSettings),
    ],
];

const CHOSEN_ROLE: &[&[Item]] = &[&[Word(Keyword::None)], &[Name]];

// blocks

const COMMIT_WORD: &[&[Item]] = &[&[Word(Keyword::Commit)], &[Word(Keyword::End)]];

const ROLLBACK_WORD: &[&[Item]] = &[&[Word(Keyword::Rollback)], &[Word(Keyword::Abort)]];

const WORK: &[&[Item]] = &[&[], &[Part(Phrase::WorkWord)]];

const WORK_WORD: &[&[Item]] = &[&[Word(Keyword::Work)], &[Word(Keyword::Transaction)]];

const MODES: &[&[Item]] = &[&[], &[Part(Phrase::Mode), Part(Phrase::MoreModes)]];

const MODE: &[&[Item]] = &[
    &[
        Word(Keyword::Isolation),
        Word(Keyword::Level),
        Word(Keyword::Serializable),
    ],
    &[Word(Keyword::Read), Part(Phrase::Access)],
];

const ACCESS: &[&[Item]] = &[&[Word(Keyword::Only)], &[Word(Keyword::Write)]];

const MORE_MODES: &[&[Item]] = &[
    &[],
    &[
        Part(Phrase::Comma),
        Part(Phrase::Mode),
        Part(Phrase::MoreModes),
    ],
];

const COMMA: &[&[Item]] = &[&[], &[Sign(Mark::Comma)]];
