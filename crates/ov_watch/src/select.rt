ghost use Rattle.std.specs.Prelude.{◌≡◌, option_map};
ghost use Rattle.std.specs.Option.{option_copied};
ghost use Rattle.serde_json.specs.Find as find;
ghost use Rattle.serde_json.specs.View.{view};
ghost use Rattle.ov_specs.specs.monitors.Requests as spec;
ghost use Rattle.ov_watch.specs.Views.{select_view};

use serde_json::Value;

/// Which kinds of change are reported (RFC 7047, 4.1.5, `<monitor-select>`).
#[derive(Clone, Copy, Debug, PartialEq, Eq)]
pub(crate) struct MonitorSelect {
    pub(crate) initial: bool,
    pub(crate) insert: bool,
    pub(crate) delete: bool,
    pub(crate) modify: bool,
}

/// A kind of change.
#[derive(Clone, Copy, Debug, PartialEq, Eq)]
pub(crate) enum Kind {
    Initial,
    Insert,
    Delete,
    Modify,
}

impl MonitorSelect {
    /// What a member `select`, which may be left out, selects; `None` if it is malformed.
    pub(crate) fn read(tree: Option<&Value>) -> Option<MonitorSelect>
        ensures { option_map select_view result
            ≡ spec.select_read (option_map view (option_copied tree.entry)) }
    {
        let Some(tree) = tree else {
            return Some(MonitorSelect {
                initial: true,
                insert: true,
                delete: true,
                modify: true,
            });
        };
        match tree.as_object() {
            Some(_members) => flags(tree),
            None => None,
        }
    }
}

/// The four flags of an object.
fn flags(tree: &Value) -> Option<MonitorSelect>
    ensures { option_map select_view result ≡ spec.flags_read (view tree.now) }
{
    let initial = flag(tree, "initial")?;
    let insert = flag(tree, "insert")?;
    let delete = flag(tree, "delete")?;
    let modify = flag(tree, "modify")?;
    Some(MonitorSelect {
        initial,
        insert,
        delete,
        modify,
    })
}

/// The flag of this name, which is true if it is left out.
fn flag(tree: &Value, name: &str) -> Option<bool>
    ensures { result ≡ spec.flag_read (find.get name.now (view tree.now)) }
{
    match tree.get(name) {
        Some(flag) => flag.as_bool(),
        None => Some(true),
    }
}
