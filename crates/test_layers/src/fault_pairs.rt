use crate::faults::are_told;
use std::test::Fail;

/// Two members of an insert are wrong.
const INSERT: &str = r#"[{"op":"insert","uuid":7,"row":{}}] -> syntax error
[{"op":"insert","table":"U","uuid":7,"row":{}}] -> unknown table
[{"op":"insert","uuid-name":7,"row":{}}] -> syntax error
[{"op":"insert","table":"T","uuid-name":"a","row":{}},{"op":"insert","uuid-name":"a","row":{}}] -> {"uuid":["uuid","00000000-0000-4000-8000-000000000002"]} syntax error
[{"op":"insert","table":"U","uuid-name":7,"row":{}}] -> unknown table
[{"op":"insert","table":"T","uuid-name":"a","row":{}},{"op":"insert","table":"U","uuid-name":"a","row":{}}] -> {"uuid":["uuid","00000000-0000-4000-8000-000000000002"]} unknown table
[{"op":"insert"}] -> syntax error
[{"op":"insert","row":{"colour":1}}] -> syntax error
[{"op":"insert","row":{"digit":10}}] -> syntax error
[{"op":"insert","table":"U"}] -> unknown table
[{"op":"insert","table":"U","row":{"colour":1}}] -> unknown table
[{"op":"insert","table":"U","row":{"digit":10}}] -> unknown table
[{"op":"insert","table":"T","uuid":7,"uuid-name":7,"row":{}}] -> syntax error
[{"op":"insert","table":"T","uuid-name":"a","row":{}},{"op":"insert","table":"T","uuid":7,"uuid-name":"a","row":{}}] -> {"uuid":["uuid","00000000-0000-4000-8000-000000000002"]} syntax error
[{"op":"insert","table":"T","uuid":7}] -> syntax error
[{"op":"insert","table":"T","uuid":7,"row":{"colour":1}}] -> syntax error
[{"op":"insert","table":"T","uuid":7,"row":{"digit":10}}] -> syntax error
[{"op":"insert","table":"T","uuid-name":7}] -> syntax error
[{"op":"insert","table":"T","uuid-name":7,"row":{"colour":1}}] -> syntax error
[{"op":"insert","table":"T","uuid-name":7,"row":{"digit":10}}] -> syntax error
[{"op":"insert","table":"T","uuid-name":"a","row":{}},{"op":"insert","table":"T","uuid-name":"a"}] -> {"uuid":["uuid","00000000-0000-4000-8000-000000000002"]} duplicate uuid-name
[{"op":"insert","table":"T","uuid-name":"a","row":{}},{"op":"insert","table":"T","uuid-name":"a","row":{"colour":1}}] -> {"uuid":["uuid","00000000-0000-4000-8000-000000000002"]} duplicate uuid-name
[{"op":"insert","table":"T","uuid-name":"a","row":{}},{"op":"insert","table":"T","uuid-name":"a","row":{"digit":10}}] -> {"uuid":["uuid","00000000-0000-4000-8000-000000000002"]} duplicate uuid-name"#;

/// Two members of a select.
const SELECT: &str = r#"[{"op":"select","where":{}}] -> syntax error
[{"op":"select","where":[["colour","==",1]]}] -> syntax error
[{"op":"select","where":[["counts","==",["map",[["a",1],["a",2]]]]]}] -> syntax error
[{"op":"select","table":"U","where":{}}] -> unknown table
[{"op":"select","table":"U","where":[["colour","==",1]]}] -> unknown table
[{"op":"select","table":"U","where":[["counts","==",["map",[["a",1],["a",2]]]]]}] -> unknown table
[{"op":"select","where":[],"columns":7}] -> syntax error
[{"op":"select","where":[],"columns":["colour"]}] -> syntax error
[{"op":"select","table":"U","where":[],"columns":7}] -> unknown table
[{"op":"select","table":"U","where":[],"columns":["colour"]}] -> unknown table
[{"op":"select","table":"T","where":{},"columns":7}] -> syntax error
[{"op":"select","table":"T","where":{},"columns":["colour"]}] -> syntax error
[{"op":"select","table":"T","where":[["colour","==",1]],"columns":7}] -> unknown column
[{"op":"select","table":"T","where":[["colour","==",1]],"columns":["colour"]}] -> unknown column
[{"op":"select","table":"T","where":[["counts","==",["map",[["a",1],["a",2]]]]],"columns":7}] -> constraint violation
[{"op":"select","table":"T","where":[["counts","==",["map",[["a",1],["a",2]]]]],"columns":["colour"]}] -> constraint violation"#;

/// Two members of an update.
const UPDATE: &str = r#"[{"op":"update","where":{},"row":{}}] -> syntax error
[{"op":"update","where":[["colour","==",1]],"row":{}}] -> syntax error
[{"op":"update","where":[["counts","==",["map",[["a",1],["a",2]]]]],"row":{}}] -> syntax error
[{"op":"update","table":"U","where":{},"row":{}}] -> unknown table
[{"op":"update","table":"U","where":[["colour","==",1]],"row":{}}] -> unknown table
[{"op":"update","table":"U","where":[["counts","==",["map",[["a",1],["a",2]]]]],"row":{}}] -> unknown table
[{"op":"update","where":[]}] -> syntax error
[{"op":"update","where":[],"row":{"colour":1}}] -> syntax error
[{"op":"update","where":[],"row":{"fixed":1}}] -> syntax error
[{"op":"update","table":"U","where":[]}] -> unknown table
[{"op":"update","table":"U","where":[],"row":{"colour":1}}] -> unknown table
[{"op":"update","table":"U","where":[],"row":{"fixed":1}}] -> unknown table
[{"op":"update","table":"T","where":{}}] -> syntax error
[{"op":"update","table":"T","where":{},"row":{"colour":1}}] -> syntax error
[{"op":"update","table":"T","where":{},"row":{"fixed":1}}] -> syntax error
[{"op":"update","table":"T","where":[["colour","==",1]]}] -> unknown column
[{"op":"update","table":"T","where":[["colour","==",1]],"row":{"colour":1}}] -> unknown column
[{"op":"update","table":"T","where":[["colour","==",1]],"row":{"fixed":1}}] -> unknown column
[{"op":"update","table":"T","where":[["counts","==",["map",[["a",1],["a",2]]]]]}] -> constraint violation
[{"op":"update","table":"T","where":[["counts","==",["map",[["a",1],["a",2]]]]],"row":{"colour":1}}] -> constraint violation
[{"op":"update","table":"T","where":[["counts","==",["map",[["a",1],["a",2]]]]],"row":{"fixed":1}}] -> constraint violation"#;

/// Two members of a mutate.
const MUTATE: &str = r#"[{"op":"mutate","where":{},"mutations":[]}] -> syntax error
[{"op":"mutate","where":[["colour","==",1]],"mutations":[]}] -> syntax error
[{"op":"mutate","where":[["counts","==",["map",[["a",1],["a",2]]]]],"mutations":[]}] -> syntax error
[{"op":"mutate","table":"U","where":{},"mutations":[]}] -> unknown table
[{"op":"mutate","table":"U","where":[["colour","==",1]],"mutations":[]}] -> unknown table
[{"op":"mutate","table":"U","where":[["counts","==",["map",[["a",1],["a",2]]]]],"mutations":[]}] -> unknown table
[{"op":"mutate","where":[]}] -> syntax error
[{"op":"mutate","where":[],"mutations":[["colour","+=",1]]}] -> syntax error
[{"op":"mutate","where":[],"mutations":[["fixed","+=",1]]}] -> syntax error
[{"op":"mutate","table":"U","where":[]}] -> unknown table
[{"op":"mutate","table":"U","where":[],"mutations":[["colour","+=",1]]}] -> unknown table
[{"op":"mutate","table":"U","where":[],"mutations":[["fixed","+=",1]]}] -> unknown table
[{"op":"mutate","table":"T","where":{}}] -> syntax error
[{"op":"mutate","table":"T","where":{},"mutations":[["colour","+=",1]]}] -> syntax error
[{"op":"mutate","table":"T","where":{},"mutations":[["fixed","+=",1]]}] -> syntax error
[{"op":"mutate","table":"T","where":[["colour","==",1]]}] -> unknown column
[{"op":"mutate","table":"T","where":[["colour","==",1]],"mutations":[["colour","+=",1]]}] -> unknown column
[{"op":"mutate","table":"T","where":[["colour","==",1]],"mutations":[["fixed","+=",1]]}] -> unknown column
[{"op":"mutate","table":"T","where":[["counts","==",["map",[["a",1],["a",2]]]]]}] -> constraint violation
[{"op":"mutate","table":"T","where":[["counts","==",["map",[["a",1],["a",2]]]]],"mutations":[["colour","+=",1]]}] -> constraint violation
[{"op":"mutate","table":"T","where":[["counts","==",["map",[["a",1],["a",2]]]]],"mutations":[["fixed","+=",1]]}] -> constraint violation"#;

/// Two members of a delete.
const DELETE: &str = r#"[{"op":"delete","where":{}}] -> syntax error
[{"op":"delete","where":[["colour","==",1]]}] -> syntax error
[{"op":"delete","where":[["counts","==",["map",[["a",1],["a",2]]]]]}] -> syntax error
[{"op":"delete","table":"U","where":{}}] -> unknown table
[{"op":"delete","table":"U","where":[["colour","==",1]]}] -> unknown table
[{"op":"delete","table":"U","where":[["counts","==",["map",[["a",1],["a",2]]]]]}] -> unknown table"#;

/// Two members of a wait.
const WAIT: &str = r#"[{"op":"wait","timeout":-1,"where":[],"until":"==","rows":[]}] -> syntax error
[{"op":"wait","table":"U","timeout":-1,"where":[],"until":"==","rows":[]}] -> unknown table
[{"op":"wait","where":{},"until":"==","rows":[]}] -> syntax error
[{"op":"wait","where":[["colour","==",1]],"until":"==","rows":[]}] -> syntax error
[{"op":"wait","where":[["counts","==",["map",[["a",1],["a",2]]]]],"until":"==","rows":[]}] -> syntax error
[{"op":"wait","table":"U","where":{},"until":"==","rows":[]}] -> unknown table
[{"op":"wait","table":"U","where":[["colour","==",1]],"until":"==","rows":[]}] -> unknown table
[{"op":"wait","table":"U","where":[["counts","==",["map",[["a",1],["a",2]]]]],"until":"==","rows":[]}] -> unknown table
[{"op":"wait","where":[],"columns":7,"until":"==","rows":[]}] -> syntax error
[{"op":"wait","where":[],"columns":["colour"],"until":"==","rows":[]}] -> syntax error
[{"op":"wait","table":"U","where":[],"columns":7,"until":"==","rows":[]}] -> unknown table
[{"op":"wait","table":"U","where":[],"columns":["colour"],"until":"==","rows":[]}] -> unknown table
[{"op":"wait","where":[],"rows":[]}] -> syntax error
[{"op":"wait","table":"U","where":[],"rows":[]}] -> unknown table
[{"op":"wait","where":[],"until":"=="}] -> syntax error
[{"op":"wait","where":[],"until":"==","rows":[{"counts":["map",[["a",1],["a",2]]]}]}] -> syntax error
[{"op":"wait","table":"U","where":[],"until":"=="}] -> unknown table
[{"op":"wait","table":"U","where":[],"until":"==","rows":[{"counts":["map",[["a",1],["a",2]]]}]}] -> unknown table
[{"op":"wait","table":"T","timeout":-1,"where":{},"until":"==","rows":[]}] -> syntax error
[{"op":"wait","table":"T","timeout":-1,"where":[["colour","==",1]],"until":"==","rows":[]}] -> syntax error
[{"op":"wait","table":"T","timeout":-1,"where":[["counts","==",["map",[["a",1],["a",2]]]]],"until":"==","rows":[]}] -> syntax error
[{"op":"wait","table":"T","timeout":-1,"where":[],"columns":7,"until":"==","rows":[]}] -> syntax error
[{"op":"wait","table":"T","timeout":-1,"where":[],"columns":["colour"],"until":"==","rows":[]}] -> syntax error
[{"op":"wait","table":"T","timeout":-1,"where":[],"rows":[]}] -> syntax error
[{"op":"wait","table":"T","timeout":-1,"where":[],"until":"=="}] -> syntax error
[{"op":"wait","table":"T","timeout":-1,"where":[],"until":"==","rows":[{"counts":["map",[["a",1],["a",2]]]}]}] -> syntax error
[{"op":"wait","table":"T","where":{},"columns":7,"until":"==","rows":[]}] -> syntax error
[{"op":"wait","table":"T","where":{},"columns":["colour"],"until":"==","rows":[]}] -> syntax error
[{"op":"wait","table":"T","where":[["colour","==",1]],"columns":7,"until":"==","rows":[]}] -> unknown column
[{"op":"wait","table":"T","where":[["colour","==",1]],"columns":["colour"],"until":"==","rows":[]}] -> unknown column
[{"op":"wait","table":"T","where":[["counts","==",["map",[["a",1],["a",2]]]]],"columns":7,"until":"==","rows":[]}] -> constraint violation
[{"op":"wait","table":"T","where":[["counts","==",["map",[["a",1],["a",2]]]]],"columns":["colour"],"until":"==","rows":[]}] -> constraint violation
[{"op":"wait","table":"T","where":{},"rows":[]}] -> syntax error
[{"op":"wait","table":"T","where":[["colour","==",1]],"rows":[]}] -> unknown column
[{"op":"wait","table":"T","where":[["counts","==",["map",[["a",1],["a",2]]]]],"rows":[]}] -> constraint violation
[{"op":"wait","table":"T","where":{},"until":"=="}] -> syntax error
[{"op":"wait","table":"T","where":{},"until":"==","rows":[{"counts":["map",[["a",1],["a",2]]]}]}] -> syntax error
[{"op":"wait","table":"T","where":[["colour","==",1]],"until":"=="}] -> unknown column
[{"op":"wait","table":"T","where":[["colour","==",1]],"until":"==","rows":[{"counts":["map",[["a",1],["a",2]]]}]}] -> unknown column
[{"op":"wait","table":"T","where":[["counts","==",["map",[["a",1],["a",2]]]]],"until":"=="}] -> constraint violation
[{"op":"wait","table":"T","where":[["counts","==",["map",[["a",1],["a",2]]]]],"until":"==","rows":[{"counts":["map",[["a",1],["a",2]]]}]}] -> constraint violation
[{"op":"wait","table":"T","where":[],"columns":7,"rows":[]}] -> syntax error
[{"op":"wait","table":"T","where":[],"columns":["colour"],"rows":[]}] -> unknown column
[{"op":"wait","table":"T","where":[],"columns":7,"until":"=="}] -> syntax error
[{"op":"wait","table":"T","where":[],"columns":7,"until":"==","rows":[{"counts":["map",[["a",1],["a",2]]]}]}] -> syntax error
[{"op":"wait","table":"T","where":[],"columns":["colour"],"until":"=="}] -> unknown column
[{"op":"wait","table":"T","where":[],"columns":["colour"],"until":"==","rows":[{"counts":["map",[["a",1],["a",2]]]}]}] -> unknown column
[{"op":"wait","table":"T","where":[]}] -> syntax error
[{"op":"wait","table":"T","where":[],"rows":[{"counts":["map",[["a",1],["a",2]]]}]}] -> syntax error"#;

/// Two faults in the row of an insert: in one value, and then in two, the lesser name first.
const NEW_ROWS: &str = r#"[{"op":"insert","table":"T","row":{"_uuid":7}}] -> constraint violation
[{"op":"insert","table":"T","row":{"digit":["set",[10,"a"]]}}] -> syntax error
[{"op":"insert","table":"T","row":{"counts":["map",[["a",1],["a",2],[1,1]]]}}] -> syntax error
[{"op":"insert","table":"T","row":{"digit":"a","_uuid":7}}] -> constraint violation
[{"op":"insert","table":"T","row":{"colour":1,"_version":7}}] -> constraint violation
[{"op":"insert","table":"T","row":{"digit":10,"colour":1}}] -> unknown column
[{"op":"insert","table":"T","row":{"name":7,"colour":1}}] -> unknown column
[{"op":"insert","table":"T","row":{"counts":["map",[["a",1],["a",2]]],"colour":1}}] -> unknown column
[{"op":"insert","table":"T","row":{"digit":"a","counts":["map",[["a",1],["a",2]]]}}] -> constraint violation
[{"op":"insert","table":"T","row":{"zone":1,"counts":["map",[["a",1],["a",2]]]}}] -> constraint violation
[{"op":"insert","table":"T","row":{"digit":10,"counts":7}}] -> syntax error
[{"op":"insert","table":"T","row":{"name":7,"digit":10}}] -> constraint violation
[{"op":"insert","table":"T","row":{"zone":1,"digit":10}}] -> constraint violation
[{"op":"insert","table":"T","row":{"zone":1,"digit":"a"}}] -> syntax error
[{"op":"insert","table":"T","row":{"name":"long","digit":"a"}}] -> syntax error"#;

/// Two faults in the row of an update.
const CHANGED_ROWS: &str =
    r#"[{"op":"update","table":"T","where":[],"row":{"_uuid":7}}] -> constraint violation
[{"op":"update","table":"T","where":[],"row":{"digit":["set",[10,"a"]]}}] -> syntax error
[{"op":"update","table":"T","where":[],"row":{"counts":["map",[["a",1],["a",2],[1,1]]]}}] -> syntax error
[{"op":"update","table":"T","where":[],"row":{"digit":"a","_uuid":7}}] -> constraint violation
[{"op":"update","table":"T","where":[],"row":{"colour":1,"_version":7}}] -> constraint violation
[{"op":"update","table":"T","where":[],"row":{"digit":10,"colour":1}}] -> unknown column
[{"op":"update","table":"T","where":[],"row":{"name":7,"colour":1}}] -> unknown column
[{"op":"update","table":"T","where":[],"row":{"counts":["map",[["a",1],["a",2]]],"colour":1}}] -> unknown column
[{"op":"update","table":"T","where":[],"row":{"digit":"a","counts":["map",[["a",1],["a",2]]]}}] -> constraint violation
[{"op":"update","table":"T","where":[],"row":{"zone":1,"counts":["map",[["a",1],["a",2]]]}}] -> constraint violation
[{"op":"update","table":"T","where":[],"row":{"digit":10,"counts":7}}] -> syntax error
[{"op":"update","table":"T","where":[],"row":{"name":7,"digit":10}}] -> constraint violation
[{"op":"update","table":"T","where":[],"row":{"zone":1,"digit":10}}] -> constraint violation
[{"op":"update","table":"T","where":[],"row":{"zone":1,"digit":"a"}}] -> syntax error
[{"op":"update","table":"T","where":[],"row":{"name":"long","digit":"a"}}] -> syntax error
[{"op":"update","table":"T","where":[],"row":{"fixed":"a"}}] -> constraint violation
[{"op":"update","table":"T","where":[],"row":{"name":7,"fixed":1}}] -> constraint violation
[{"op":"update","table":"T","where":[],"row":{"zone":1,"fixed":1}}] -> constraint violation
[{"op":"update","table":"T","where":[],"row":{"fixed":1,"digit":"a"}}] -> syntax error
[{"op":"update","table":"T","where":[],"row":{"fixed":1,"colour":1}}] -> unknown column"#;

/// Two faults in a `where`: in one condition, and then in two.
const CONDITIONS: &str = r#"[{"op":"delete","table":"T","where":[["colour","=="]]}] -> syntax error
[{"op":"delete","table":"T","where":[["colour",1,1]]}] -> syntax error
[{"op":"delete","table":"T","where":[["colour","=",1]]}] -> unknown column
[{"op":"delete","table":"T","where":[["counts","<",["map",[["a",1],["a",2]]]]]}] -> syntax error
[{"op":"delete","table":"T","where":[["counts","==",["map",[["a",1],["a",2],[1,1]]]]]}] -> syntax error
[{"op":"delete","table":"T","where":[["colour","==",1],7]}] -> unknown column
[{"op":"delete","table":"T","where":[7,["colour","==",1]]}] -> syntax error
[{"op":"delete","table":"T","where":[["colour","==",1],["name","<","a"]]}] -> unknown column
[{"op":"delete","table":"T","where":[["name","<","a"],["colour","==",1]]}] -> syntax error
[{"op":"delete","table":"T","where":[["digit","==","a"],["colour","==",1]]}] -> syntax error
[{"op":"delete","table":"T","where":[["colour","==",1],["digit","==","a"]]}] -> unknown column
[{"op":"delete","table":"T","where":[["counts","==",["map",[["a",1],["a",2]]]],["colour","==",1]]}] -> constraint violation
[{"op":"delete","table":"T","where":[["colour","==",1],["counts","==",["map",[["a",1],["a",2]]]]]}] -> unknown column
[{"op":"delete","table":"T","where":[["counts","==",["map",[["a",1],["a",2]]]],7]}] -> constraint violation
[{"op":"delete","table":"T","where":[7,["counts","==",["map",[["a",1],["a",2]]]]]}] -> syntax error
[{"op":"delete","table":"T","where":[["name","<","a"],["counts","==",["map",[["a",1],["a",2]]]]]}] -> syntax error
[{"op":"delete","table":"T","where":[["counts","==",["map",[["a",1],["a",2]]]],["name","<","a"]]}] -> constraint violation
[{"op":"delete","table":"T","where":[["digit","==","a"],["counts","==",["map",[["a",1],["a",2]]]]]}] -> syntax error
[{"op":"delete","table":"T","where":[["counts","==",["map",[["a",1],["a",2]]]],["digit","==","a"]]}] -> constraint violation"#;

/// Two faults in `columns`: an item that is no text is reported before any unknown column.
const COLUMNS: &str =
    r#"[{"op":"select","table":"T","where":[],"columns":["colour",7]}] -> syntax error
[{"op":"select","table":"T","where":[],"columns":[7,"colour"]}] -> syntax error
[{"op":"select","table":"T","where":[],"columns":["name",null]}] -> syntax error
[{"op":"select","table":"T","where":[],"columns":["name","colour"]}] -> unknown column
[{"op":"wait","table":"T","where":[],"columns":["colour",7],"until":"==","rows":[]}] -> syntax error
[{"op":"wait","table":"T","where":[],"columns":[7,"colour"],"until":"==","rows":[]}] -> syntax error
[{"op":"wait","table":"T","where":[],"columns":["name","colour"],"until":"==","rows":[]}] -> unknown column"#;

/// Two faults in `mutations`: in one mutation, and then in two.
const MUTATIONS: &str =
    r#"[{"op":"mutate","table":"T","where":[],"mutations":[["colour","+="]]}] -> syntax error
[{"op":"mutate","table":"T","where":[],"mutations":[["colour",1,1]]}] -> syntax error
[{"op":"mutate","table":"T","where":[],"mutations":[["colour","=",1]]}] -> unknown column
[{"op":"mutate","table":"T","where":[],"mutations":[["fixed","=",1]]}] -> constraint violation
[{"op":"mutate","table":"T","where":[],"mutations":[["fixed","+=","a"]]}] -> constraint violation
[{"op":"mutate","table":"T","where":[],"mutations":[["counts","+=",["map",[["a",1],["a",2]]]]]}] -> syntax error
[{"op":"mutate","table":"T","where":[],"mutations":[["counts","insert",["map",[["a",1],["a",2],[1,1]]]]]}] -> syntax error
[{"op":"mutate","table":"T","where":[],"mutations":[["colour","+=",1],7]}] -> unknown column
[{"op":"mutate","table":"T","where":[],"mutations":[7,["colour","+=",1]]}] -> syntax error
[{"op":"mutate","table":"T","where":[],"mutations":[["fixed","+=",1],["colour","+=",1]]}] -> constraint violation
[{"op":"mutate","table":"T","where":[],"mutations":[["colour","+=",1],["fixed","+=",1]]}] -> unknown column
[{"op":"mutate","table":"T","where":[],"mutations":[["digit","+=","a"],["fixed","+=",1]]}] -> syntax error
[{"op":"mutate","table":"T","where":[],"mutations":[["fixed","+=",1],["digit","+=","a"]]}] -> constraint violation
[{"op":"mutate","table":"T","where":[],"mutations":[["counts","insert",["map",[["a",1],["a",2]]]],["colour","+=",1]]}] -> constraint violation
[{"op":"mutate","table":"T","where":[],"mutations":[["name","+=",1],["colour","+=",1]]}] -> syntax error
[{"op":"mutate","table":"T","where":[],"mutations":[["colour","+=",1],["name","+=",1]]}] -> unknown column"#;

/// Two faults of mutations on rows: in two mutations of a row, in one mutation, in one that cannot be read after another, and
/// in two rows.
const MUTATED_ROWS: &str =
    r#"[{"op":"insert","table":"T","row":{"digit":9,"total":2}},{"op":"mutate","table":"T","where":[],"mutations":[["total","/=",0],["total","*=",9223372036854775807]]}] -> {"uuid":["uuid","00000000-0000-4000-8000-000000000002"]} domain error
[{"op":"insert","table":"T","row":{"digit":9,"total":2}},{"op":"mutate","table":"T","where":[],"mutations":[["total","/=",0],["digit","+=",1]]}] -> {"uuid":["uuid","00000000-0000-4000-8000-000000000002"]} domain error
[{"op":"insert","table":"T","row":{"digit":9,"total":2}},{"op":"mutate","table":"T","where":[],"mutations":[["total","*=",9223372036854775807],["total","/=",0]]}] -> {"uuid":["uuid","00000000-0000-4000-8000-000000000002"]} range error
[{"op":"insert","table":"T","row":{"digit":9,"total":2}},{"op":"mutate","table":"T","where":[],"mutations":[["total","*=",9223372036854775807],["digit","+=",1]]}] -> {"uuid":["uuid","00000000-0000-4000-8000-000000000002"]} range error
[{"op":"insert","table":"T","row":{"digit":9,"total":2}},{"op":"mutate","table":"T","where":[],"mutations":[["digit","+=",1],["total","/=",0]]}] -> {"uuid":["uuid","00000000-0000-4000-8000-000000000002"]} constraint violation
[{"op":"insert","table":"T","row":{"digit":9,"total":2}},{"op":"mutate","table":"T","where":[],"mutations":[["digit","+=",1],["total","*=",9223372036854775807]]}] -> {"uuid":["uuid","00000000-0000-4000-8000-000000000002"]} constraint violation
[{"op":"insert","table":"T","row":{"digit":9,"total":2}},{"op":"mutate","table":"T","where":[],"mutations":[["digit","*=",9223372036854775807]]}] -> {"uuid":["uuid","00000000-0000-4000-8000-000000000002"]} range error
[{"op":"insert","table":"T","row":{"digit":9,"total":2}},{"op":"mutate","table":"T","where":[],"mutations":[["total","/=",0],["total","+="]]}] -> {"uuid":["uuid","00000000-0000-4000-8000-000000000002"]} syntax error
[{"op":"insert","table":"T","row":{"digit":9,"total":2}},{"op":"mutate","table":"T","where":[],"mutations":[["total","*=",9223372036854775807],["colour","+=",1]]}] -> {"uuid":["uuid","00000000-0000-4000-8000-000000000002"]} unknown column
[{"op":"insert","table":"T","row":{"digit":9,"total":2}},{"op":"mutate","table":"T","where":[],"mutations":[["total","/=",0],["fixed","+=",1]]}] -> {"uuid":["uuid","00000000-0000-4000-8000-000000000002"]} constraint violation
[{"op":"insert","table":"T","row":{"digit":9,"total":2}},{"op":"mutate","table":"T","where":[],"mutations":[["digit","+=",1],["name","+=",1]]}] -> {"uuid":["uuid","00000000-0000-4000-8000-000000000002"]} syntax error
[{"op":"insert","table":"T","row":{"digit":9}},{"op":"insert","table":"T","row":{"total":9223372036854775807}},{"op":"mutate","table":"T","where":[],"mutations":[["total","+=",1],["digit","+=",1]]}] -> {"uuid":["uuid","00000000-0000-4000-8000-000000000002"]} {"uuid":["uuid","00000000-0000-4000-8000-000000000003"]} constraint violation
[{"op":"insert","table":"T","row":{"total":9223372036854775807}},{"op":"insert","table":"T","row":{"digit":9}},{"op":"mutate","table":"T","where":[],"mutations":[["total","+=",1],["digit","+=",1]]}] -> {"uuid":["uuid","00000000-0000-4000-8000-000000000002"]} {"uuid":["uuid","00000000-0000-4000-8000-000000000003"]} range error"#;

/// Two faults in the rows of a wait: in one value, in two, and in two rows.
const TOLD_ROWS: &str =
    r#"[{"op":"wait","table":"T","where":[],"columns":["counts"],"until":"==","rows":[{"counts":["map",[["a",1],["a",2],[1,1]]]}]}] -> syntax error
[{"op":"wait","table":"T","where":[],"columns":["counts"],"until":"==","rows":[{"counts":["map",[["a",1],["a",2]]],"digit":1}]}] -> constraint violation
[{"op":"wait","table":"T","where":[],"columns":["counts"],"until":"==","rows":[{"counts":7,"digit":1}]}] -> syntax error
[{"op":"wait","table":"T","where":[],"columns":["counts"],"until":"==","rows":[{"digit":"a","counts":["map",[["a",1],["a",2]]]}]}] -> constraint violation
[{"op":"wait","table":"T","where":[],"columns":["counts"],"until":"==","rows":[{"counts":["map",[["a",1],["a",2]]]},7]}] -> constraint violation
[{"op":"wait","table":"T","where":[],"columns":["counts"],"until":"==","rows":[7,{"counts":["map",[["a",1],["a",2]]]}]}] -> syntax error
[{"op":"wait","table":"T","where":[],"columns":["counts"],"until":"==","rows":[{"counts":["map",[["a",1],["a",2]]]},{"digit":1}]}] -> constraint violation
[{"op":"wait","table":"T","where":[],"columns":["counts"],"until":"==","rows":[{"digit":1},{"counts":["map",[["a",1],["a",2]]]}]}] -> syntax error"#;

/// Of two faults, the one that is checked first is reported.
#[test]
fn the_first_of_two_faults_is_told(rt: HostRuntime) -> Result<(), Fail> {
    for script in [INSERT, SELECT, UPDATE, MUTATE, DELETE, WAIT] {
        are_told(rt.alloc(), script)?;
    }
    Ok(())
}

#[test]
fn the_first_of_two_faults_in_a_member_is_told(rt: HostRuntime) -> Result<(), Fail> {
    for script in [
        NEW_ROWS,
        CHANGED_ROWS,
        CONDITIONS,
        COLUMNS,
        MUTATIONS,
        MUTATED_ROWS,
        TOLD_ROWS,
    ] {
        are_told(rt.alloc(), script)?;
    }
    Ok(())
}
