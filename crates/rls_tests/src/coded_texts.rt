//! What no contract says: texts from outside, and that calls succeed.

use crate::coded_lines::Line;
use crate::coded_words::Audit;
use rls_codec::{Unread, read_line, write_line};
use std::alloc::{AllocError, Global};
use std::test::Fail;

/// The text of the line that the text is, or none where it is bad.
fn again(alloc: Global, text: &str) -> Result<Option<String>, Fail> {
    match read_line::<Audit, Line>(alloc, text) {
        Ok(line) => Ok(Some(write_line::<Audit, Line>(alloc, &line)?)),
        Err(Unread::Bad) => Ok(None),
        Err(Unread::NoMemory) => Err(Fail::from(AllocError)),
    }
}

/// Whether the text is read, and written as the other.
fn is_read_as(alloc: Global, text: &str, wanted: &str) -> Result<bool, Fail> {
    Ok(again(alloc, text)?.is_some_and(|written| written.as_str() == wanted))
}

/// Lines that are written as they stand: each combinator both ways.
#[test]
fn lines_are_read_and_written(rt: HostRuntime) -> Result<(), Fail> {
    let lines = [
        "{\"end\":18446744073709551615}",
        "{\"changes\":[[\"row 1.0 of t\",[null,-9223372036854775808,\"\\u0000\\\"\",true]],[\"row 1.1 of t\",null]],\"grants\":[[\"SELECT\",\"PUBLIC\",false]],\"statements\":[],\"txn\":4294967295}",
        "{\"changes\":[],\"grants\":[],\"statements\":[{\"reply\":[\"done\"],\"text\":\"CREATE ROLE x\"},{\"reply\":[\"rows\",[[3]]],\"text\":\"\"},{\"reply\":[\"count\",3],\"text\":\"\"}],\"txn\":2}",
        "{\"changes\":[],\"grants\":[],\"statements\":[{\"reply\":[\"refused\",[8]],\"text\":\"\"},{\"reply\":[\"refused\",[11,\"Privilege\",\"SELECT\",\"t\"]],\"text\":\"\"},{\"reply\":[\"refused\",[11,\"Owner\",\"t\"]],\"text\":\"\"},{\"reply\":[\"refused\",[15,\"c\"]],\"text\":\"\"}],\"txn\":2}",
    ];
    for line in lines {
        assert!(rt; is_read_as(rt.alloc(), line, line)?, "{line}");
    }
    Ok(())
}

/// Another layout and order, an escape in a key, and a key that stands twice: the last counts.
#[test]
fn layout_is_free(rt: HostRuntime) -> Result<(), Fail> {
    let texts = [
        " { \"txn\" : 5, \"grants\":[] , \"statements\":[],\t\"txn\":1,\"changes\":[]} ",
        "{\"tx\\u006e\":1,\"statements\":[],\"grants\":[],\"changes\":[]}",
    ];
    for text in texts {
        assert!(rt;
            is_read_as(
                rt.alloc(),
                text,
                "{\"changes\":[],\"grants\":[],\"statements\":[],\"txn\":1}"
            )?,
            "{text}"
        );
    }
    Ok(())
}

/// What is absent, unknown, ill-typed or out of range is bad.
#[test]
fn other_forms_are_bad(rt: HostRuntime) -> Result<(), Fail> {
    let texts = [
        "",
        "[]",
        "null",
        "{\"end\":1} {}",
        "{\"end\":1,\"more\":1}",
        "{\"ends\":1}",
        "{\"end\":\"1\"}",
        "{\"end\":1.0}",
        "{\"end\":1e0}",
        "{\"end\":-0}",
        "{\"end\":-1}",
        "{\"end\":18446744073709551616}",
        "{\"changes\":[],\"grants\":[],\"statements\":[],\"txn\":4294967296}",
        "{\"changes\":[[\"t\"]],\"grants\":[],\"statements\":[],\"txn\":1}",
        "{\"changes\":[[\"t\",[9223372036854775808]]],\"grants\":[],\"statements\":[],\"txn\":1}",
        "{\"changes\":[],\"grants\":[[\"SELECT\",\"a\"]],\"statements\":[],\"txn\":1}",
        "{\"changes\":[],\"grants\":[[\"SELECT\",\"a\",true,null]],\"statements\":[],\"txn\":1}",
        "{\"changes\":[],\"grants\":[],\"statements\":[{\"reply\":[\"count\"],\"text\":\"\"}],\"txn\":1}",
        "{\"changes\":[],\"grants\":[],\"statements\":[{\"reply\":[\"did\"],\"text\":\"\"}],\"txn\":1}",
        "{\"changes\":[],\"grants\":[],\"statements\":[{\"reply\":[\"refused\",[12]],\"text\":\"\"}],\"txn\":1}",
        "{\"changes\":[],\"grants\":[],\"statements\":[{\"reply\":[\"refused\",[11,\"Role\",\"r\"]],\"text\":\"\"}],\"txn\":1}",
    ];
    for text in texts {
        assert!(rt; again(rt.alloc(), text)?.is_none(), "{text}");
    }
    Ok(())
}
