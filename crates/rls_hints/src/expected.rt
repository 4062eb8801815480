//! What could stand in a place, in words.

ghost use Rattle.std.specs.Prelude.{◌≡◌};
ghost use Rattle.std.specs.List.{list_any};
ghost use Rattle.rls_hints.specs.Expected as spec;

use crate::grammar::Item;
use crate::grammar::Item::{Name, Number, Sign, Text, Word};
use crate::keyword::{Keyword, keyword_str};
use crate::nearest::Nearest;
use crate::token::Mark;
use crate::walking::is_any_ended;
use rls_value::Items;
use std::alloc::{AllocError, Global};

/// All that may stand on top, in the order in which it is named: keywords by their bytes, then signs by theirs.
const ORDER: [Item; 100] = [
    Name,
    Text,
    Number,
    Word(Keyword::Abort),
    Word(Keyword::Admin),
    Word(Keyword::All),
    Word(Keyword::Alter),
    Word(Keyword::And),
    Word(Keyword::As),
    Word(Keyword::Begin),
    Word(Keyword::Bigint),
    Word(Keyword::Bool),
    Word(Keyword::Boolean),
    Word(Keyword::Bypassrls),
    Word(Keyword::Cascade),
    Word(Keyword::Check),
    Word(Keyword::Commit),
    Word(Keyword::Count),
    Word(Keyword::Create),
    Word(Keyword::CurrentUser),
    Word(Keyword::Delete),
    Word(Keyword::Disable),
    Word(Keyword::Drop),
    Word(Keyword::Enable),
    Word(Keyword::End),
    Word(Keyword::Exists),
    Word(Keyword::False),
    Word(Keyword::For),
    Word(Keyword::Force),
    Word(Keyword::From),
    Word(Keyword::Grant),
    Word(Keyword::In),
    Word(Keyword::Inherit),
    Word(Keyword::Insert),
    Word(Keyword::Int),
    Word(Keyword::Integer),
    Word(Keyword::Into),
    Word(Keyword::Is),
    Word(Keyword::Isolation),
    Word(Keyword::Key),
    Word(Keyword::Level),
    Word(Keyword::Login),
    Word(Keyword::No),
    Word(Keyword::Nobypassrls),
    Word(Keyword::Nologin),
    Word(Keyword::None),
    Word(Keyword::Nosuperuser),
    Word(Keyword::Not),
    Word(Keyword::Null),
    Word(Keyword::On),
    Word(Keyword::Only),
    Word(Keyword::Option),
    Word(Keyword::Or),
    Word(Keyword::Permissive),
    Word(Keyword::Policy),
    Word(Keyword::Primary),
    Word(Keyword::Privileges),
    Word(Keyword::Public),
    Word(Keyword::Read),
    Word(Keyword::Reset),
    Word(Keyword::Restrict),
    Word(Keyword::Restrictive),
    Word(Keyword::Returning),
    Word(Keyword::Revoke),
    Word(Keyword::Role),
    Word(Keyword::Rollback),
    Word(Keyword::Row),
    Word(Keyword::Security),
    Word(Keyword::Select),
    Word(Keyword::Serializable),
    Word(Keyword::Set),
    Word(Keyword::Start),
    Word(Keyword::Superuser),
    Word(Keyword::Table),
    Word(Keyword::Text),
    Word(Keyword::To),
    Word(Keyword::Transaction),
    Word(Keyword::True),
    Word(Keyword::Update),
    Word(Keyword::User),
    Word(Keyword::Using),
    Word(Keyword::Values),
    Word(Keyword::Where),
    Word(Keyword::With),
    Word(Keyword::Work),
    Word(Keyword::Write),
    Sign(Mark::Open),
    Sign(Mark::Close),
    Sign(Mark::Star),
    Sign(Mark::Plus),
    Sign(Mark::Comma),
    Sign(Mark::Minus),
    Sign(Mark::Dot),
    Sign(Mark::Semicolon),
    Sign(Mark::Less),
    Sign(Mark::LessOrEqual),
    Sign(Mark::NotEqual),
    Sign(Mark::Equal),
    Sign(Mark::Greater),
    Sign(Mark::GreaterOrEqual),
];

/// Writes what could stand there: `a name`, keywords in upper case, signs in backquotes, `the end`.
pub fn push_expected(out: &mut String, ready: &[Items<Item>]) -> Result<(), AllocError> {
    let mut is_first = true;
    for item in ORDER.iter() {
        if is_expected(ready, *item) {
            push_comma(out, is_first)?;
            push_item(out, *item)?;
            is_first = false;
        }
    }
    if is_any_ended(ready) {
        push_comma(out, is_first)?;
        out.push_str("the end")?;
    }
    Ok(())
}

fn push_comma(out: &mut String, is_first: bool) -> Result<(), AllocError> {
    if is_first { Ok(()) } else { out.push_str(", ") }
}

/// The keyword that is nearest to the word, of those that could stand there.
pub fn nearest_keyword(
    alloc: Global,
    ready: &[Items<Item>],
    word: &str,
) -> Result<Option<&'static str>, AllocError> {
    let mut nearest = Nearest::new(word);
    for item in ORDER.iter() {
        if let Word(keyword) = *item {
            if is_expected(ready, *item) {
                nearest.offer(alloc, keyword_str(keyword))?;
            }
        }
    }
    Ok(nearest.found())
}

/// Whether the item stands on top of one of the stacks.
pub fn is_expected(ready: &[Items<Item>], item: Item) -> bool
    ensures { result ≡ list_any (spec.has_on_top item) ready.now }
{
    ready.iter().any(|stack| has_on_top(stack.as_slice(), item))
}

fn has_on_top(stack: &[Item], item: Item) -> bool
    ensures { result ≡ spec.has_on_top item stack.now }
{
    match stack {
        [first, ..] => are_same(item, *first),
        [] => false,
    }
}

fn are_same(item: Item, other: Item) -> bool
    ensures { result ≡ spec.are_same item other }
{
    match (item, other) {
        (Word(keyword), Word(second)) => keyword == second,
        (Sign(mark), Sign(second)) => mark == second,
        (Name, Name) | (Number, Number) | (Text, Text) => true,
        _ => false,
    }
}

fn push_item(out: &mut String, item: Item) -> Result<(), AllocError> {
    match item {
        Name => out.push_str("a name"),
        Number => out.push_str("a number"),
        Text => out.push_str("a text"),
        Word(keyword) => push_upper(out, keyword_str(keyword)),
        Sign(mark) => {
            out.push('`')?;
            out.push_str(text_of(mark))?;
            out.push('`')
        }
        Item::Part(_) | Item::Any => Ok(()),
    }
}

/// Writes the keyword in upper case.
pub fn push_upper(out: &mut String, keyword: &str) -> Result<(), AllocError> {
    for letter in keyword.chars() {
        out.push(letter.to_ascii_uppercase())?;
    }
    Ok(())
}

fn text_of(mark: Mark) -> &'static str {
    match mark {
        Mark::Open => "(",
        Mark::Close => ")",
        Mark::Star => "*",
        Mark::Plus => "+",
        Mark::Comma => ",",
        Mark::Minus => "-",
        Mark::Dot => ".",
        Mark::Semicolon => ";",
        Mark::Less => "<",
        Mark::LessOrEqual => "<=",
        Mark::NotEqual => "<>",
        Mark::Equal => "=",
        Mark::Greater => ">",
        Mark::GreaterOrEqual => ">=",
    }
}
