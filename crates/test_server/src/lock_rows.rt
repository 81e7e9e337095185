//! Locks and `assert`, call by call (RFC 7047, 4.1.8 to 4.1.10 and 5.2.10).

use crate::callers::calls;
use crate::made::calls_as;
use std::alloc::{AllocError, Global};
use std::test::Fail;

/// The first session that asks becomes the owner. The second waits, and can neither assert that it owns the lock nor steal
/// it.
const OWNED: &str = r#"open 2 -> 1;2;
call 1 1 lock ["L"] -> {"error":null,"id":1,"result":{"locked":true}}
call 2 1 lock ["L"] -> {"error":null,"id":1,"result":{"locked":false}}
call 1 2 transact ["Net",{"op":"assert","lock":"L"}] -> {"error":null,"id":2,"result":[{}]}
call 2 2 transact ["Net",{"op":"assert","lock":"L"}] -> {"error":null,"id":2,"result":[{"error":"not owner"}]}
call 2 3 steal ["L"] -> {"error":"lock already requested","id":3,"result":null}"#;

#[test]
fn lock_has_one_owner(rt: HostRuntime) -> Result<(), Fail> {
    calls(rt.alloc(), OWNED)
}

/// Then a third session steals the lock and ends: the former owner is notified of both. The session that waited gives up
/// waiting.
const STOLEN: &str = r#"open 1 -> 3;
call 3 1 steal ["L"] -> {"error":null,"id":1,"result":{"locked":true}}
got 1 -> {"id":null,"method":"stolen","params":["L"]}
got 2
call 1 3 transact ["Net",{"op":"assert","lock":"L"},{"op":"insert","table":"Switch","row":{"name":"s1"}}] -> {"error":null,"id":3,"result":[{"error":"not owner"},null]}
end 3
got 1 -> {"id":null,"method":"locked","params":["L"]}
got 2
call 1 4 transact ["Net",{"op":"assert","lock":"L"},{"op":"insert","table":"Switch","row":{"name":"s1"}}] -> {"error":null,"id":4,"result":[{},{"uuid":["uuid","00000000-0000-4000-8000-000000000006"]}]}
call 2 4 unlock ["L"] -> {"error":null,"id":4,"result":{}}
call 2 5 unlock ["L"] -> {"error":"lock not held","id":5,"result":null}
got 1
got 3"#;

#[test]
fn stolen_and_given_back(rt: HostRuntime) -> Result<(), Fail> {
    calls_as(rt.alloc(), format!(in rt.alloc(); "{OWNED}\n{STOLEN}"))
}

/// A session that ends passes its locks on in ascending order of their names, whatever the order in which it asked for them.
const BY_NAME: &str = r#"open 2 -> 1;2;
call 1 1 lock ["B"] -> {"error":null,"id":1,"result":{"locked":true}}
call 1 2 lock ["A"] -> {"error":null,"id":2,"result":{"locked":true}}
call 2 1 lock ["B"] -> {"error":null,"id":1,"result":{"locked":false}}
call 2 2 lock ["A"] -> {"error":null,"id":2,"result":{"locked":false}}
end 1
got 2 -> {"id":null,"method":"locked","params":["A"]}{"id":null,"method":"locked","params":["B"]}
call 2 3 transact ["Net",{"op":"assert","lock":"B"},{"op":"assert","lock":"A"}] -> {"error":null,"id":3,"result":[{},{}]}"#;

#[test]
fn locks_are_given_on_by_name(rt: HostRuntime) -> Result<(), Fail> {
    calls(rt.alloc(), BY_NAME)
}

/// A waiting session that ends is skipped, and nobody is notified. A session that is closed for another reason passes its
/// locks on too.
const CLOSED: &str = r#"open 3 -> 1;2;3;
call 1 1 lock ["L"] -> {"error":null,"id":1,"result":{"locked":true}}
call 2 1 lock ["L"] -> {"error":null,"id":1,"result":{"locked":false}}
call 3 1 lock ["L"] -> {"error":null,"id":1,"result":{"locked":false}}
end 2
got 1
got 3
close 1 -> true
got 3 -> {"id":null,"method":"locked","params":["L"]}
got 1
open 1 -> 4;
call 4 1 lock ["L"] -> {"error":null,"id":1,"result":{"locked":false}}
call 3 2 unlock ["L"] -> {"error":null,"id":2,"result":{}}
got 4 -> {"id":null,"method":"locked","params":["L"]}
close 4 -> true
open 1 -> 5;
call 5 1 lock ["L"] -> {"error":null,"id":1,"result":{"locked":true}}"#;

#[test]
fn a_closed_session_asks_for_nothing(rt: HostRuntime) -> Result<(), Fail> {
    calls(rt.alloc(), CLOSED)
}

/// A session that has asked for a lock may ask again only after giving it up: whether it owns the lock, waits for it, stole
/// it, or had it stolen.
const AGAIN: &str = r#"open 3 -> 1;2;3;
call 1 1 lock ["L"] -> {"error":null,"id":1,"result":{"locked":true}}
call 1 2 lock ["L"] -> {"error":"lock already requested","id":2,"result":null}
call 1 3 steal ["L"] -> {"error":"lock already requested","id":3,"result":null}
call 2 1 lock ["L"] -> {"error":null,"id":1,"result":{"locked":false}}
call 2 2 lock ["L"] -> {"error":"lock already requested","id":2,"result":null}
call 2 3 steal ["L"] -> {"error":"lock already requested","id":3,"result":null}
call 3 1 steal ["L"] -> {"error":null,"id":1,"result":{"locked":true}}
got 1 -> {"id":null,"method":"stolen","params":["L"]}
call 3 2 steal ["L"] -> {"error":"lock already requested","id":2,"result":null}
call 3 3 lock ["L"] -> {"error":"lock already requested","id":3,"result":null}
call 1 4 lock ["L"] -> {"error":"lock already requested","id":4,"result":null}
call 1 5 steal ["L"] -> {"error":"lock already requested","id":5,"result":null}
call 1 6 unlock ["L"] -> {"error":null,"id":6,"result":{}}
got 2
got 3
call 1 7 steal ["L"] -> {"error":null,"id":7,"result":{"locked":true}}
got 3 -> {"id":null,"method":"stolen","params":["L"]}
got 2"#;

#[test]
fn a_lock_is_asked_for_once(rt: HostRuntime) -> Result<(), Fail> {
    calls(rt.alloc(), AGAIN)
}

/// A session that gives up waiting causes no notification. The owner passes the lock to the next session.
const GIVES_UP: &str = r#"open 3 -> 1;2;3;
call 1 1 lock ["L"] -> {"error":null,"id":1,"result":{"locked":true}}
call 2 1 lock ["L"] -> {"error":null,"id":1,"result":{"locked":false}}
call 3 1 lock ["L"] -> {"error":null,"id":1,"result":{"locked":false}}
call 2 2 unlock ["L"] -> {"error":null,"id":2,"result":{}}
got 1
got 3
call 1 2 unlock ["L"] -> {"error":null,"id":2,"result":{}}
got 2
got 3 -> {"id":null,"method":"locked","params":["L"]}
call 2 3 lock ["L"] -> {"error":null,"id":3,"result":{"locked":false}}
call 3 2 unlock ["L"] -> {"error":null,"id":2,"result":{}}
got 2 -> {"id":null,"method":"locked","params":["L"]}
got 1
got 3"#;

#[test]
fn one_that_waits_gives_up(rt: HostRuntime) -> Result<(), Fail> {
    calls(rt.alloc(), GIVES_UP)
}

/// The last thief returns the lock to the thief before, and that one to the owner that it stole it from. A lock that nobody
/// owns is stolen from nobody.
const TWICE: &str = r#"open 4 -> 1;2;3;4;
call 1 1 lock ["L"] -> {"error":null,"id":1,"result":{"locked":true}}
call 2 1 lock ["L"] -> {"error":null,"id":1,"result":{"locked":false}}
call 3 1 steal ["L"] -> {"error":null,"id":1,"result":{"locked":true}}
got 1 -> {"id":null,"method":"stolen","params":["L"]}
call 4 1 steal ["L"] -> {"error":null,"id":1,"result":{"locked":true}}
got 3 -> {"id":null,"method":"stolen","params":["L"]}
got 1
got 2
call 3 2 transact ["Net",{"op":"assert","lock":"L"}] -> {"error":null,"id":2,"result":[{"error":"not owner"}]}
call 4 2 transact ["Net",{"op":"assert","lock":"L"}] -> {"error":null,"id":2,"result":[{}]}
end 4
got 3 -> {"id":null,"method":"locked","params":["L"]}
got 1
got 2
call 3 3 unlock ["L"] -> {"error":null,"id":3,"result":{}}
got 1 -> {"id":null,"method":"locked","params":["L"]}
got 2
got 3
call 1 2 unlock ["L"] -> {"error":null,"id":2,"result":{}}
got 2 -> {"id":null,"method":"locked","params":["L"]}
got 1
call 2 2 unlock ["L"] -> {"error":null,"id":2,"result":{}}
call 3 4 steal ["L"] -> {"error":null,"id":4,"result":{"locked":true}}
got 1
got 2"#;

#[test]
fn a_lock_is_stolen_twice(rt: HostRuntime) -> Result<(), Fail> {
    calls(rt.alloc(), TWICE)
}

/// A session can give up only what it asked for, and only once. Lock names are case-sensitive.
const NOT_HELD: &str = r#"open 2 -> 1;2;
call 1 1 unlock ["L"] -> {"error":"lock not held","id":1,"result":null}
call 1 2 lock ["L"] -> {"error":null,"id":2,"result":{"locked":true}}
call 2 1 unlock ["L"] -> {"error":"lock not held","id":1,"result":null}
call 1 3 unlock ["l"] -> {"error":"lock not held","id":3,"result":null}
call 2 2 lock ["l"] -> {"error":null,"id":2,"result":{"locked":true}}
call 1 4 unlock ["L"] -> {"error":null,"id":4,"result":{}}
call 1 5 unlock ["L"] -> {"error":"lock not held","id":5,"result":null}
call 2 3 lock ["L"] -> {"error":null,"id":3,"result":{"locked":true}}
call 1 6 unlock ["L"] -> {"error":"lock not held","id":6,"result":null}"#;

#[test]
fn what_is_not_held_is_not_given_up(rt: HostRuntime) -> Result<(), Fail> {
    calls(rt.alloc(), NOT_HELD)
}

/// Requests beyond what a session may hold. That it has already asked for a lock is reported first.
const TOO_MANY: &str =
    r#"call 1 257 lock ["M"] -> {"error":"resources exhausted","id":257,"result":null}
call 1 258 steal ["M"] -> {"error":"resources exhausted","id":258,"result":null}
call 1 259 lock ["L7"] -> {"error":"lock already requested","id":259,"result":null}
call 1 260 unlock ["M"] -> {"error":"lock not held","id":260,"result":null}
call 2 2 lock ["M"] -> {"error":null,"id":2,"result":{"locked":true}}
call 1 261 unlock ["L256"] -> {"error":null,"id":261,"result":{}}
call 1 262 lock ["M"] -> {"error":null,"id":262,"result":{"locked":false}}
call 1 263 lock ["N"] -> {"error":"resources exhausted","id":263,"result":null}
call 2 3 unlock ["M"] -> {"error":null,"id":3,"result":{}}
got 1 -> {"id":null,"method":"locked","params":["M"]}
end 1
call 2 4 lock ["M"] -> {"error":null,"id":4,"result":{"locked":true}}
call 2 5 lock ["L7"] -> {"error":null,"id":5,"result":{"locked":true}}"#;

/// The last of these locks, which another session owns.
const LAST: &str = r#"call 2 1 lock ["L256"] -> {"error":null,"id":1,"result":{"locked":true}}
call 1 256 lock ["L256"] -> {"error":null,"id":256,"result":{"locked":false}}
"#;

/// Adds the call by which session 1 asks for lock number `id`.
fn push_request(alloc: Global, script: &mut String, id: u64) -> Result<(), AllocError> {
    let line = format!(in alloc;
        "call 1 {id} lock [\"L{id}\"] -> {{\"error\":null,\"id\":{id},\"result\":{{\"locked\":true}}}}\n"
    )?;
    script.push_str(line.as_str())
}

/// Session 1 asks for 256 locks, waits for the last of them, and then asks for more.
fn many_requests(alloc: Global) -> Result<String, AllocError> {
    let mut script = String::from_str(alloc, "open 2 -> 1;2;\n")?;
    for id in 1..256 {
        push_request(alloc, &mut script, id)?;
    }
    script.push_str(LAST)?;
    script.push_str(TOO_MANY)?;
    Ok(script)
}

#[test]
fn a_session_asks_for_256_locks(rt: HostRuntime) -> Result<(), Fail> {
    calls_as(rt.alloc(), many_requests(rt.alloc()))
}

/// Params of the wrong number or kind, and names that are no `<id>`.
const WRONG: [&str; 12] = [
    "[]",
    r#"["A","B"]"#,
    "[7]",
    "[null]",
    r#"[["A"]]"#,
    r#"[{"A":1}]"#,
    r#"[""]"#,
    r#"["A B"]"#,
    r#"["1A"]"#,
    r#"["A-B"]"#,
    r#"["A\u0000"]"#,
    r#"["é"]"#,
];

/// Adds a call of a method that refuses its params.
fn push_refused(
    alloc: Global,
    script: &mut String,
    method: &str,
    params: &str,
) -> Result<(), AllocError> {
    let line = format!(in alloc;
        "\ncall 1 1 {method} {params} -> {{\"error\":\"syntax error\",\"id\":1,\"result\":null}}"
    )?;
    script.push_str(line.as_str())
}

/// Each of the three methods refuses all of these.
fn wrong_params(alloc: Global) -> Result<String, AllocError> {
    let mut script = String::from_str(alloc, "open 1 -> 1;")?;
    for params in WRONG {
        push_refused(alloc, &mut script, "lock", params)?;
        push_refused(alloc, &mut script, "steal", params)?;
        push_refused(alloc, &mut script, "unlock", params)?;
    }
    Ok(script)
}

#[test]
fn params_of_locks_are_refused(rt: HostRuntime) -> Result<(), Fail> {
    calls_as(rt.alloc(), wrong_params(rt.alloc()))
}

/// Names begin with a letter or an underscore, and are compared as they are read. A notification asks for nothing.
const NAMES: &str = r#"open 1 -> 1;
call 1 1 lock ["_"] -> {"error":null,"id":1,"result":{"locked":true}}
call 1 2 lock ["_a1"] -> {"error":null,"id":2,"result":{"locked":true}}
call 1 3 lock ["Z9_"] -> {"error":null,"id":3,"result":{"locked":true}}
call 1 4 unlock ["_"] -> {"error":null,"id":4,"result":{}}
call 1 5 Lock ["L"] -> {"error":"unknown method","id":5,"result":null}
call 1 null lock ["L"]
call 1 6 unlock ["L"] -> {"error":"lock not held","id":6,"result":null}
call 1 "x" lock ["\u004c"] -> {"error":null,"id":"x","result":{"locked":true}}
call 1 ["y"] lock ["L"] -> {"error":"lock already requested","id":["y"],"result":null}"#;

#[test]
fn locks_have_names(rt: HostRuntime) -> Result<(), Fail> {
    calls(rt.alloc(), NAMES)
}

/// A transaction fails if its session is not the owner: before the first lock, after an unlock and after a steal. None of its
/// changes stay.
const ASSERTED: &str = r#"open 2 -> 1;2;
call 1 1 transact ["Net",{"op":"assert","lock":"L"}] -> {"error":null,"id":1,"result":[{"error":"not owner"}]}
call 1 2 lock ["L"] -> {"error":null,"id":2,"result":{"locked":true}}
call 1 3 transact ["Net",{"op":"assert","lock":"L"}] -> {"error":null,"id":3,"result":[{}]}
call 1 4 transact ["Net",{"op":"assert","lock":"L"},{"op":"assert","lock":"M"},{"op":"assert","lock":"L"}] -> {"error":null,"id":4,"result":[{},{"error":"not owner"},null]}
call 1 5 unlock ["L"] -> {"error":null,"id":5,"result":{}}
call 1 6 transact ["Net",{"op":"assert","lock":"L"}] -> {"error":null,"id":6,"result":[{"error":"not owner"}]}
call 1 7 steal ["L"] -> {"error":null,"id":7,"result":{"locked":true}}
call 1 8 transact ["Net",{"op":"insert","table":"Switch","row":{"name":"s1"}},{"op":"assert","lock":"L"}] -> {"error":null,"id":8,"result":[{"uuid":["uuid","00000000-0000-4000-8000-000000000006"]},{}]}
call 2 1 steal ["L"] -> {"error":null,"id":1,"result":{"locked":true}}
got 1 -> {"id":null,"method":"stolen","params":["L"]}
call 1 9 transact ["Net",{"op":"insert","table":"Switch","row":{"name":"s2"}},{"op":"assert","lock":"L"}] -> {"error":null,"id":9,"result":[{"uuid":["uuid","00000000-0000-4000-8000-000000000008"]},{"error":"not owner"}]}
call 2 2 transact ["Net",{"op":"assert","lock":"L"},{"op":"insert","table":"Switch","row":{"name":"s2"}}] -> {"error":null,"id":2,"result":[{},{"uuid":["uuid","00000000-0000-4000-8000-00000000000a"]}]}
call 2 3 transact ["Net",{"op":"select","table":"Switch","where":[],"columns":["name"]}] -> {"error":null,"id":3,"result":[{"rows":[{"name":"s1"},{"name":"s2"}]}]}"#;

#[test]
fn assert_wants_the_owner(rt: HostRuntime) -> Result<(), Fail> {
    calls(rt.alloc(), ASSERTED)
}

/// Session 1 is the owner.
const FIRST: &str = r#"open 1 -> 1;
call 1 1 lock ["L"] -> {"error":null,"id":1,"result":{"locked":true}}"#;

/// Malformed asserts.
const BAD_ASSERTS: [&str; 8] = [
    r#"{"op":"assert"}"#,
    r#"{"op":"assert","name":"L"}"#,
    r#"{"op":"assert","lock":null}"#,
    r#"{"op":"assert","lock":7}"#,
    r#"{"op":"assert","lock":["L"]}"#,
    r#"{"op":"assert","lock":""}"#,
    r#"{"op":"assert","lock":"L M"}"#,
    r#"{"op":"assert","lock":"L","lock":"9"}"#,
];

/// Session 1 owns L, and makes each of these asserts before another operation.
fn bad_asserts(alloc: Global) -> Result<String, AllocError> {
    let mut script = String::from_str(alloc, FIRST)?;
    for operation in BAD_ASSERTS {
        let line = format!(in alloc;
            "\ncall 1 2 transact [\"Net\",{operation},{{\"op\":\"abort\"}}] -> {{\"error\":null,\"id\":2,\"result\":[{{\"error\":\"syntax error\"}},null]}}"
        )?;
        script.push_str(line.as_str())?;
    }
    Ok(script)
}

#[test]
fn an_assert_names_a_lock(rt: HostRuntime) -> Result<(), Fail> {
    calls_as(rt.alloc(), bad_asserts(rt.alloc()))
}

/// The lock is stolen while the transaction waits.
const LOST: &str = r#"open 2 -> 1;2;
call 1 1 lock ["L"] -> {"error":null,"id":1,"result":{"locked":true}}
call 1 2 transact ["Net",{"op":"wait","table":"Switch","where":[["name","==","s9"]],"columns":["name"],"until":"==","rows":[{"name":"s9"}]},{"op":"assert","lock":"L"}]
call 2 1 steal ["L"] -> {"error":null,"id":1,"result":{"locked":true}}
got 1 -> {"id":null,"method":"stolen","params":["L"]}
call 2 2 transact ["Net",{"op":"insert","table":"Switch","row":{"name":"s9"}}] -> {"error":null,"id":2,"result":[{"uuid":["uuid","00000000-0000-4000-8000-000000000003"]}]}
got 1 -> {"error":null,"id":2,"result":[{},{"error":"not owner"}]}"#;

/// The session still owns it when the wait is met.
const STILL_OWNED: &str = r#"open 2 -> 1;2;
call 1 1 lock ["L"] -> {"error":null,"id":1,"result":{"locked":true}}
call 1 2 transact ["Net",{"op":"wait","table":"Switch","where":[["name","==","s9"]],"columns":["name"],"until":"==","rows":[{"name":"s9"}]},{"op":"assert","lock":"L"}]
call 2 1 transact ["Net",{"op":"insert","table":"Switch","row":{"name":"s9"}}] -> {"error":null,"id":1,"result":[{"uuid":["uuid","00000000-0000-4000-8000-000000000003"]}]}
got 1 -> {"error":null,"id":2,"result":[{},{}]}"#;

/// The session asks for it only after the transaction arrived.
const OWNED_BY_THEN: &str = r#"open 2 -> 1;2;
call 1 1 transact ["Net",{"op":"wait","table":"Switch","where":[["name","==","s9"]],"columns":["name"],"until":"==","rows":[{"name":"s9"}]},{"op":"assert","lock":"L"}]
call 1 2 lock ["L"] -> {"error":null,"id":2,"result":{"locked":true}}
call 2 1 transact ["Net",{"op":"insert","table":"Switch","row":{"name":"s9"}}] -> {"error":null,"id":1,"result":[{"uuid":["uuid","00000000-0000-4000-8000-000000000003"]}]}
got 1 -> {"error":null,"id":1,"result":[{},{}]}"#;

/// The lock is stolen, and returned before the wait is met.
const GIVEN_BACK: &str = r#"open 3 -> 1;2;3;
call 1 1 lock ["L"] -> {"error":null,"id":1,"result":{"locked":true}}
call 1 2 transact ["Net",{"op":"wait","table":"Switch","where":[["name","==","s9"]],"columns":["name"],"until":"==","rows":[{"name":"s9"}]},{"op":"assert","lock":"L"}]
call 2 1 steal ["L"] -> {"error":null,"id":1,"result":{"locked":true}}
got 1 -> {"id":null,"method":"stolen","params":["L"]}
end 2
got 1 -> {"id":null,"method":"locked","params":["L"]}
call 3 1 transact ["Net",{"op":"insert","table":"Switch","row":{"name":"s9"}}] -> {"error":null,"id":1,"result":[{"uuid":["uuid","00000000-0000-4000-8000-000000000003"]}]}
got 1 -> {"error":null,"id":2,"result":[{},{}]}"#;

/// The assert comes before the wait: a steal starts no try, and a tick does.
const ASSERTED_FIRST: &str = r#"open 2 -> 1;2;
call 1 1 lock ["L"] -> {"error":null,"id":1,"result":{"locked":true}}
call 1 2 transact ["Net",{"op":"assert","lock":"L"},{"op":"wait","table":"Switch","where":[["name","==","s9"]],"columns":["name"],"until":"==","rows":[{"name":"s9"}]},{"op":"insert","table":"Switch","row":{"name":"s1"}}]
call 2 1 steal ["L"] -> {"error":null,"id":1,"result":{"locked":true}}
got 1 -> {"id":null,"method":"stolen","params":["L"]}
tick 1
got 1 -> {"error":null,"id":2,"result":[{"error":"not owner"},null,null]}
call 2 2 transact ["Net",{"op":"select","table":"Switch","where":[],"columns":["name"]}] -> {"error":null,"id":2,"result":[{"rows":[]}]}"#;

#[test]
fn an_assert_goes_by_the_owner_of_its_try(rt: HostRuntime) -> Result<(), Fail> {
    for script in [LOST, STILL_OWNED, OWNED_BY_THEN, GIVEN_BACK, ASSERTED_FIRST] {
        calls(rt.alloc(), script)?;
    }
    Ok(())
}
