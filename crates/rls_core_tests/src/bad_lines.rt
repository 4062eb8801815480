//! Lines that are bad.

use crate::again::{is_bad, is_read_as};
use rls_audit::Second;
use std::alloc::{AllocError, Global};

/// The members of a transaction's line.
const MEMBERS: [&str; 8] = [
    "\"changes\":[]",
    "\"commit\":1",
    "\"login\":\"p\"",
    "\"mode\":\"write\"",
    "\"role\":\"p\"",
    "\"snap\":0",
    "\"statements\":[]",
    "\"txn\":2",
];

/// An object of these members but one, and of another one.
fn object(alloc: Global, left_out: usize, other: &str) -> Result<String, AllocError> {
    let mut text = "{".to_string(alloc)?;
    for (place, member) in MEMBERS.iter().enumerate() {
        if place != left_out {
            text.push_str(member)?;
            text.push_str(",")?;
        }
    }
    text.push_str(other)?;
    text.push_str("}")?;
    Ok(text)
}

/// Whether the text that was made is a bad line.
fn is_bad_text(alloc: Global, made: Result<String, AllocError>) -> bool {
    match made {
        Ok(text) => is_bad::<Second>(alloc, text.as_str()),
        Err(_) => false,
    }
}

/// Whether the text that was made is read, and written as the other.
fn is_text_read_as(alloc: Global, made: Result<String, AllocError>, wanted: &str) -> bool {
    match made {
        Ok(text) => is_read_as::<Second>(alloc, text.as_str(), wanted),
        Err(_) => false,
    }
}

/// Each member in turn is left out, behind the others a member that is there, or one that is unknown.
#[test]
fn members_are_all_there(rt: HostRuntime) {
    let alloc = rt.alloc();
    for place in 0..8usize {
        assert!(rt;
            place == 7 || is_bad_text(alloc, object(alloc, place, "\"txn\":2")),
            "{place}"
        );
        assert!(rt;
            is_bad_text(alloc, object(alloc, place, "\"more\":0")),
            "{place}"
        );
    }
    let wanted =
        "{\"changes\":[],\"commit\":1,\"login\":\"p\",\"mode\":\"write\",\"role\":\"p\",\"snap\":0,\"statements\":[],\"txn\":2}";
    assert!(rt; is_text_read_as(alloc, object(alloc, 8, "\"txn\":2"), wanted));
    assert!(rt; is_bad_text(alloc, object(alloc, 8, "\"more\":0")));
}

/// Numbers out of range or of another form, objects and policies that a change can't have, texts that are no statements.
#[test]
fn other_lines_are_bad(rt: HostRuntime) {
    let texts = [
        "",
        "{}",
        "[]",
        "{\"format\":3}",
        "{\"end\":0}",
        "{\"order\":[]}",
        "{\"end\":0,\"orders\":[]}",
        "{\"end\":18446744073709551616,\"order\":[]}",
        "{\"end\":-1,\"order\":[]}",
        "{\"end\":-0,\"order\":[]}",
        "{\"end\":1.0,\"order\":[]}",
        "{\"changes\":[[\"rows of t\",[]]],\"commit\":1,\"login\":\"p\",\"mode\":\"write\",\"role\":\"p\",\"snap\":0,\"statements\":[],\"txn\":2}",
        "{\"changes\":[[\"key (1) of t\",[]]],\"commit\":1,\"login\":\"p\",\"mode\":\"write\",\"role\":\"p\",\"snap\":0,\"statements\":[],\"txn\":2}",
        "{\"changes\":[[\"row 1.4294967296 of t\",[]]],\"commit\":1,\"login\":\"p\",\"mode\":\"write\",\"role\":\"p\",\"snap\":0,\"statements\":[],\"txn\":2}",
        "{\"changes\":[[\"row 1.0 of t\",[9223372036854775808]]],\"commit\":1,\"login\":\"p\",\"mode\":\"write\",\"role\":\"p\",\"snap\":0,\"statements\":[],\"txn\":2}",
        "{\"changes\":[[\"grants on t\",[[\"SELECT\",\"r\",\"p\",false,1]]]],\"commit\":1,\"login\":\"p\",\"mode\":\"write\",\"role\":\"p\",\"snap\":0,\"statements\":[],\"txn\":2}",
        "{\"changes\":[[\"policies on u\",[\"CREATE POLICY p ON t AS PERMISSIVE FOR SELECT TO PUBLIC USING (a = 1)\"]]],\"commit\":1,\"login\":\"p\",\"mode\":\"write\",\"role\":\"p\",\"snap\":0,\"statements\":[],\"txn\":2}",
        "{\"changes\":[[\"policies on t\",[\"SELECT a FROM t\"]]],\"commit\":1,\"login\":\"p\",\"mode\":\"write\",\"role\":\"p\",\"snap\":0,\"statements\":[],\"txn\":2}",
        "{\"changes\":[],\"commit\":1,\"login\":\"p\",\"mode\":\"write\",\"role\":\"p\",\"snap\":0,\"statements\":[{\"decisions\":[],\"reply\":[\"done\"],\"text\":\"CREATE\"}],\"txn\":2}",
        "{\"changes\":[],\"commit\":1,\"login\":\"p\",\"mode\":\"write\",\"role\":\"p\",\"snap\":0,\"statements\":[{\"decisions\":[],\"reply\":[\"done\"]}],\"txn\":2}",
        "{\"changes\":[],\"commit\":1,\"login\":\"p\",\"mode\":\"write\",\"role\":\"p\",\"snap\":0,\"statements\":[{\"decisions\":[],\"reply\":[\"refused\",[2]],\"text\":\"CREATE ROLE x\"}],\"txn\":2}",
        "{\"changes\":[],\"commit\":1,\"login\":\"p\",\"mode\":\"write\",\"role\":\"p\",\"snap\":0,\"statements\":[{\"decisions\":[],\"reply\":[\"refused\",[17]],\"text\":\"CREATE ROLE x\"}],\"txn\":2}",
    ];
    for text in texts {
        assert!(rt; is_bad::<Second>(rt.alloc(), text), "{text}");
    }
}

/// A key that stands twice, the first time with an array of such a depth: it reads as long as no more than 127 are open.
fn nested(alloc: Global, depth: usize) -> Result<String, AllocError> {
    let mut text = "{\"end\":".to_string(alloc)?;
    for _ in 0..depth {
        text.push_str("[")?;
    }
    for _ in 0..depth {
        text.push_str("]")?;
    }
    text.push_str(",\"end\":0,\"order\":[]}")?;
    Ok(text)
}

/// Of 127 that are open at one time the object is one.
#[test]
fn depth_is_limited(rt: HostRuntime) {
    let alloc = rt.alloc();
    let wanted = "{\"end\":0,\"order\":[]}";
    assert!(rt; is_text_read_as(alloc, nested(alloc, 126), wanted));
    assert!(rt; is_bad_text(alloc, nested(alloc, 127)));
}
