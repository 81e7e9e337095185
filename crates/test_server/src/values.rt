use crate::made::converses_as;
use crate::server::converses;
use std::test::Fail;
use test_basics::NET;

/// Sets are merged and in ascending order, a set of one is its atom, and identifiers are in lower case. The rows are deleted
/// before the commit, since what they refer to does not exist.
const WRITTEN: &str =
    r#">{"id":1,"method":"transact","params":["Net",{"op":"insert","table":"Port","row":{"name":"p1","peer":["set",[["uuid","00000000-0000-4000-8000-0000000000AB"]]],"tag":["set",[7,7]]}},{"op":"select","table":"Port","where":[],"columns":["name","peer","tag"]},{"op":"delete","table":"Port","where":[]}]}
<{"error":null,"id":1,"result":[{"uuid":["uuid","00000000-0000-4000-8000-000000000002"]},{"rows":[{"name":"p1","peer":["uuid","00000000-0000-4000-8000-0000000000ab"],"tag":7}]},{"count":1}]}
>{"id":2,"method":"transact","params":["Net",{"op":"insert","table":"Switch","row":{"load":-9223372036854775808,"ports":["set",[["uuid","00000000-0000-4000-8000-0000000000AB"],["uuid","00000000-0000-4000-8000-000000000001"]]]}},{"op":"select","table":"Switch","where":[],"columns":["load","ports"]},{"op":"delete","table":"Switch","where":[]}]}
<{"error":null,"id":2,"result":[{"uuid":["uuid","00000000-0000-4000-8000-000000000004"]},{"rows":[{"load":-9223372036854775808,"ports":["set",[["uuid","00000000-0000-4000-8000-000000000001"],["uuid","00000000-0000-4000-8000-0000000000ab"]]]}]},{"count":1}]}"#;

/// The largest integer is accepted. Each of the other values is a syntax error, except a real, which no request may contain.
const UNREAD: &str =
    r#">{"id":1,"method":"transact","params":["Net",{"op":"insert","table":"Switch","row":{"load":9223372036854775807}}]}
<{"error":null,"id":1,"result":[{"uuid":["uuid","00000000-0000-4000-8000-000000000002"]}]}
>{"id":2,"method":"transact","params":["Net",{"op":"insert","table":"Switch","row":{"load":9223372036854775808}}]}
<{"error":"reals not supported","id":2,"result":null}
>{"id":3,"method":"transact","params":["Net",{"op":"insert","table":"Switch","row":{"load":-0}}]}
<{"error":"reals not supported","id":3,"result":null}
>{"id":4,"method":"transact","params":["Net",{"op":"insert","table":"Switch","row":{"name":"a\u0000"}}]}
<{"error":null,"id":4,"result":[{"error":"syntax error"}]}
>{"id":5,"method":"transact","params":["Net",{"op":"insert","table":"Switch","row":{"main":["uuid","000000000000400080000000000000ab"]}}]}
<{"error":null,"id":5,"result":[{"error":"syntax error"}]}
>{"id":6,"method":"transact","params":["Net",{"op":"insert","table":"Switch","row":{"main":["named-uuid","a"]}}]}
<{"error":null,"id":6,"result":[{"error":"syntax error"}]}
>{"id":7,"method":"transact","params":["Net",{"op":"insert","table":"Switch","row":{"load":true}}]}
<{"error":null,"id":7,"result":[{"error":"syntax error"}]}"#;

/// The only param is the name of the database.
const NOT_TOLD: &str = r#">{"id":1,"method":"get_schema","params":["Nat"]}
<{"error":"unknown database","id":1,"result":null}
>{"id":2,"method":"get_schema","params":[]}
<{"error":"syntax error","id":2,"result":null}
>{"id":3,"method":"get_schema","params":[null]}
<{"error":"syntax error","id":3,"result":null}
>{"id":4,"method":"get_schema","params":["Net","Net"]}
<{"error":"syntax error","id":4,"result":null}"#;

/// Malformed requests are answered if they have an id, and the session goes on.
const BUILT_WRONG: &str = r#">{"id":1,"method":"echo","params":[1.5]}
<{"error":"reals not supported","id":1,"result":null}
>{"id":2,"method":"echo"}
<{"error":"syntax error","id":2,"result":null}
>{"id":3,"result":true}
<
>{"id":4,"method":"echo","params":[]}
<{"error":null,"id":4,"result":[]}"#;

#[test]
fn values_are_written_in_one_form(rt: HostRuntime) -> Result<(), Fail> {
    converses(rt.alloc(), WRITTEN)
}

#[test]
fn values_that_do_not_read(rt: HostRuntime) -> Result<(), Fail> {
    converses(rt.alloc(), UNREAD)
}

#[test]
fn other_schemas_are_not_told(rt: HostRuntime) -> Result<(), Fail> {
    converses(rt.alloc(), NOT_TOLD)
}

#[test]
fn requests_that_are_built_wrong(rt: HostRuntime) -> Result<(), Fail> {
    converses(rt.alloc(), BUILT_WRONG)
}

/// The schema is sent as it was read.
#[test]
fn the_schema_is_told(rt: HostRuntime) -> Result<(), Fail> {
    let conversation = format!(in rt.alloc();
        ">{{\"id\":1,\"method\":\"get_schema\",\"params\":[\"Net\"]}}
<{{\"error\":null,\"id\":1,\"result\":{NET}}}"
    );
    converses_as(rt.alloc(), conversation)
}
