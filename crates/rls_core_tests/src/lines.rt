//! Lines that are written as they stand.

use crate::again::{is_bad, is_read_as};
use rls_audit::{First, Second};

/// Those of two audits that are told, and one of each other part of a line.
#[test]
fn lines_are_read_and_written(rt: HostRuntime) {
    let lines = [
        "{\"format\":2}",
        "{\"changes\":[[\"role x\",[false,false,false]]],\"commit\":1,\"login\":\"postgres\",\"mode\":\"write\",\"role\":\"postgres\",\"snap\":0,\"statements\":[{\"decisions\":[],\"reply\":[\"done\"],\"text\":\"CREATE ROLE x\"}],\"txn\":2}",
        "{\"end\":1,\"order\":[2]}",
        "{\"end\":0,\"order\":[]}",
        "{\"changes\":[[\"members of b\",[[\"a\",false,true,true]]],[\"table t\",[\"postgres\",true,false,[[\"k\",\"INTEGER\",true],[\"n\",\"TEXT\",false]],[\"k\"]]],[\"grants on t\",[[\"SELECT\",\"PUBLIC\",\"postgres\",false,null]]],[\"policies on t\",[\"CREATE POLICY p ON t AS PERMISSIVE FOR SELECT TO PUBLIC USING (a = 1)\"]],[\"row 6.1 of t\",[-9223372036854775808,\"b\",null,true]],[\"row 6.2 of t\",null]],\"commit\":4,\"login\":\"postgres\",\"mode\":\"read\",\"role\":\"b\",\"snap\":3,\"statements\":[],\"txn\":18446744073709551615}",
        "{\"changes\":[],\"commit\":4,\"login\":\"a\",\"mode\":\"write\",\"role\":\"a\",\"snap\":3,\"statements\":[{\"decisions\":[[\"6.1\",\"old\",\"SELECT\",[\"by\",\"p\"]],[\"6.2\",\"new\",\"INSERT\",[\"exempt\"]],[\"6.3\",\"old\",\"UPDATE\",[\"nopermissive\"]],[\"6.4\",\"old\",\"DELETE\",[\"restrictive\",\"q\"]]],\"reply\":[\"refused\",[11,\"NoPermissive\",\"u\",\"INSERT\"]],\"text\":\"SELECT a FROM u\"},{\"decisions\":[],\"reply\":[\"refused\",[4,\"25006\",\"INSERT\"]],\"text\":\"SELECT a FROM u\"},{\"decisions\":[],\"reply\":[\"refused\",[12,\"Cycle\",\"a\",\"b\"]],\"text\":\"GRANT a TO b\"},{\"decisions\":[],\"reply\":[\"refused\",[3,\"policies\"]],\"text\":\"SELECT a FROM u\"},{\"decisions\":[],\"reply\":[\"count\",3],\"text\":\"DELETE FROM u\"},{\"decisions\":[],\"reply\":[\"rows\",[[3]]],\"text\":\"SELECT COUNT(*) FROM u\"}],\"txn\":5}",
    ];
    for line in lines {
        assert!(rt; is_read_as::<Second>(rt.alloc(), line, line), "{line}");
    }
}

/// A grant of the first format is written with the column that it hasn't; each format has its own grants and its own head.
#[test]
fn first_format_is_read(rt: HostRuntime) {
    let old =
        "{\"changes\":[[\"grants on t\",[[\"SELECT\",\"r\",\"postgres\",false]]]],\"commit\":1,\"login\":\"p\",\"mode\":\"write\",\"role\":\"p\",\"snap\":0,\"statements\":[],\"txn\":2}";
    let new =
        "{\"changes\":[[\"grants on t\",[[\"SELECT\",\"r\",\"postgres\",false,null]]]],\"commit\":1,\"login\":\"p\",\"mode\":\"write\",\"role\":\"p\",\"snap\":0,\"statements\":[],\"txn\":2}";
    let of_column =
        "{\"changes\":[[\"grants on t\",[[\"SELECT\",\"r\",\"postgres\",false,\"c\"]]]],\"commit\":1,\"login\":\"p\",\"mode\":\"write\",\"role\":\"p\",\"snap\":0,\"statements\":[],\"txn\":2}";
    assert!(rt; is_read_as::<First>(rt.alloc(), old, new));
    assert!(rt; is_read_as::<First>(rt.alloc(), "{\"format\":1}", "{\"format\":2}"));
    assert!(rt; is_bad::<First>(rt.alloc(), new));
    assert!(rt; is_bad::<Second>(rt.alloc(), old));
    assert!(rt; is_bad::<Second>(rt.alloc(), "{\"format\":1}"));
    assert!(rt; is_read_as::<Second>(rt.alloc(), of_column, of_column));
    assert!(rt; is_bad::<First>(rt.alloc(), of_column));
}

/// A denial for a column is one of the second format alone; it has a privilege, a table and a column, and nothing else.
#[test]
fn denial_for_a_column_is_read(rt: HostRuntime) {
    let denial =
        "{\"changes\":[],\"commit\":1,\"login\":\"p\",\"mode\":\"write\",\"role\":\"p\",\"snap\":0,\"statements\":[{\"decisions\":[],\"reply\":[\"refused\",[11,\"Column\",\"SELECT\",\"t\",\"c\"]],\"text\":\"SELECT c FROM t\"}],\"txn\":2}";
    let shorter =
        "{\"changes\":[],\"commit\":1,\"login\":\"p\",\"mode\":\"write\",\"role\":\"p\",\"snap\":0,\"statements\":[{\"decisions\":[],\"reply\":[\"refused\",[11,\"Column\",\"SELECT\",\"t\"]],\"text\":\"SELECT c FROM t\"}],\"txn\":2}";
    assert!(rt; is_read_as::<Second>(rt.alloc(), denial, denial));
    assert!(rt; is_bad::<First>(rt.alloc(), denial));
    assert!(rt; is_bad::<Second>(rt.alloc(), shorter));
}

/// Another layout and order of keys; of a key twice the last counts; a text that isn't as printed is none the worse.
#[test]
fn layout_is_free(rt: HostRuntime) {
    let text =
        " {\"txn\":9, \"statements\":[{\"text\":\"create role x;\",\"reply\":[\"done\"],\"decisions\":[]}],\t\"snap\":0,\"role\":\"p\",\"mode\":\"write\",\"login\":\"p\",\"commit\":1,\"txn\":2,\"changes\":[]} ";
    let wanted =
        "{\"changes\":[],\"commit\":1,\"login\":\"p\",\"mode\":\"write\",\"role\":\"p\",\"snap\":0,\"statements\":[{\"decisions\":[],\"reply\":[\"done\"],\"text\":\"create role x;\"}],\"txn\":2}";
    assert!(rt; is_read_as::<Second>(rt.alloc(), text, wanted));
}
