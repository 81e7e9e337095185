//! Laws of the definitions. Each function has an empty body, and its contract is a law.
#![tactic(auto)]

ghost use Rattle.std.specs.FinMap.{get, insert};
ghost use Rattle.std.specs.List.{list_all};
ghost use Rattle.std.specs.Prelude.{◌≡◌, ◌≢◌, ◌⊎◌, ◌↔◌, ◌++◌, ◌+◌, ◌-◌, ◌*◌, ◌<◌, ◌≤◌, ℕ, nat_le};
ghost use Rattle.std.specs.Prelude.{List, [], ◌∷◌, Option, Some, None, is_some, option_map};
ghost use Rattle.std.specs.Prelude.{not, true, false, length, Ok};
ghost use Rattle.serde_json.specs.Data.{Data, Items};
ghost use Rattle.ov_specs.specs.wire.Cut.{Cut, cut, cut_from, IsCut, continue_cut, with_messages};
ghost use Rattle.ov_specs.specs.wire.Cut.{max_message};
ghost use Rattle.ov_specs.specs.wire.Message.{asked};
ghost use Rattle.ov_specs.specs.locks.Queues.{Queues, DoQueuesAscend, HasNoRepeats, queue_of};
ghost use Rattle.ov_specs.specs.locks.Queues.{owner, owns, has_requested};
ghost use Rattle.ov_specs.specs.machine.Machine.{State, Left, is_open, Entry, Sent, Stepped};
ghost use Rattle.ov_specs.specs.machine.Machine.{Outcome, Committed, Failed, NoMemory, Attempt, tried_in};
ghost use Rattle.ov_specs.specs.machine.Machine.{Outstanding, Passed, Transact, step, works};
ghost use Rattle.ov_specs.specs.machine.Machine.{arrived, tries_again, is_kept, settle, results_to};
ghost use Rattle.ov_specs.specs.machine.Machine.{opening};
ghost use Rattle.ov_specs.specs.operations.Mutate.{column_mutated, mutated_value};
ghost use Rattle.ov_specs.specs.operations.Mutators.{Mutation};
ghost use Rattle.ov_specs.specs.operations.OpOutcome.{empty_result};
ghost use Rattle.ov_specs.specs.operations.Transaction.{Completes, Waits, transaction, has_error};
ghost use Rattle.ov_specs.specs.machine.Blocked.{AreBlocked};
ghost use Rattle.ov_specs.specs.machine.Suiting.{SuitsState, IsWholeState, draws_uuids};
ghost use Rattle.ov_specs.specs.integrity.Committed.{committed, is_whole};
ghost use Rattle.ov_specs.specs.integrity.Kept.{IsGreatestSupported, kept};
ghost use Rattle.ov_specs.specs.rows.Suits.{column_of_row, SuitsTable, Suits};
ghost use Rattle.ov_specs.specs.schema.Fitting.{default_of};
ghost use Rattle.ov_specs.specs.schema.Schema.{accepted, IsAccepted};
ghost use Rattle.ov_specs.specs.schema.SameType.{same_type};
ghost use Rattle.ov_specs.specs.schema.SchemaTypes.{Column, ColumnType, Table, Schema};
ghost use Rattle.ov_specs.specs.conversion.Carried.{carried};
ghost use Rattle.ov_specs.specs.rows.Database.{Columns, Row, Database, same_database};
ghost use Rattle.ov_specs.specs.rows.Lines.{LineKey};
ghost use Rattle.ov_specs.specs.machine.History.{run, requests, closed_by};
ghost use Rattle.ov_specs.specs.machine.Streams.{StreamEvent, Streams, ExpandsTimed, fed_state};
ghost use Rattle.ov_specs.specs.values.Results.{result_map};
ghost use Rattle.ov_specs.specs.values.Uuid.{Uuid, is_uuid};
ghost use Rattle.ov_specs.specs.values.Value.{Datum};
ghost use Rattle.ov_laws.specs.Asserting.{item_at, Asserts};
ghost use Rattle.ov_laws.specs.Attempts.{attempts_of, most_attempts};
ghost use Rattle.ov_laws.specs.Blocking.{LeavesBlocked};
ghost use Rattle.ov_laws.specs.Databases.{databases, IsLastOf, kept_by, commits_in, at_moment_of};
ghost use Rattle.ov_laws.specs.Making.{Makes, RepliesTo, takes_another};
ghost use Rattle.ov_laws.specs.Requests.{AreAskedFor};
ghost use Rattle.ov_laws.specs.Values.{value_at};
ghost use Rattle.ov_specs.specs.machine.Settling.{IsSettling};
ghost use Rattle.ov_laws.specs.Updating.{SendsUpdatesFirst, SendsAtMostReply};

/// The relation and the program give the same cuts of every stream.
pub fn cut_is_its_relation()
    ensures { (stream : List ℕ) (c : Cut) → (IsCut stream c ↔ (c ≡ cut stream)) }
{}

/// The cut of a stream continues over pieces: after a front, it is determined by what the front's cut left.
pub fn cut_goes_on()
    ensures { (a b : List ℕ)
        → cut (a ++ b) ≡ continue_cut (cut a) (λ rest. cut_from max_message (length a) rest b) }
{}

/// What remains of an undamaged front is scanned again from its first byte.
pub fn cut_starts_again()
    ensures { (a b : List ℕ) → (cut a).damage ≡ None
        → let rest = (cut a).rest in
        let more = cut_from max_message (length a - length rest) [] (rest ++ b) in
        cut (a ++ b) ≡ with_messages (cut a).messages more }
{}

/// The requests taken from a session are those that its stream asks for, whatever pieces the stream arrives in; if an
/// allocation fails, they are the first of those. This holds from any state in which the session is not open and has been
/// fed nothing, such as before it is opened.
pub fn requests_are_asked_for()
    ensures { (before : State) (fed : Streams) (events : List (ℕ × StreamEvent))
        (history : List Entry) (s : State) (streams : Streams) (session : ℕ)
        → is_open before session ≡ false → fed session ≡ []
        → ExpandsTimed (fed_state before fed) events history (fed_state s streams)
        → let messages = (asked (streams session)).messages in
        AreAskedFor (closed_by before history session) (requests history session) messages }
{}

/// A session that is open before a run has a cause exactly if it is not open after it. The same holds for each session
/// opened in a run from an opening. From any state, a session that is open before and not after has a cause.
pub fn sessions_are_closed_for_a_cause()
    ensures open { (before : State) (history : List Entry) (after : Stepped) (session : ℕ)
        → run before history ≡ Some after → is_open before session ≡ true → session < before.next
        → is_some (closed_by before history session) ≡ not (is_open after.state session) }
    ensures opened { (schema : Schema) (database : Database) (history : List Entry)
        (after : Stepped) (session : ℕ)
        → let first = opening schema database in
        run first history ≡ Some after → 0 < session → session < after.state.next
        → is_some (closed_by first history session) ≡ not (is_open after.state session) }
    ensures shut { (before : State) (history : List Entry) (after : Stepped) (session : ℕ)
        → run before history ≡ Some after
        → is_open before session ≡ true → is_open after.state session ≡ false
        → is_some (closed_by before history session) ≡ true }
{}

/// A refused transaction changes nothing (RFC 7047, 4.1.3): if its reply has an error among its results, the database is as
/// before, whatever was drawn and whatever the store answered. This holds when the transaction arrives and at each later try.
/// A blocked transaction leaves the database as it was, and unless an allocation failed it only waits (RFC 7047, 5.2.6).
pub fn a_refused_transaction_changes_nothing()
    ensures arrived { (s : State) (session : ℕ) (draws : List Uuid) (outcome : Option Outcome)
        (id : Data) (operations results : Items) (before : List Sent) (stepped : Stepped)
        → works s session draws outcome (Transact id operations) ≡ Some stepped
        → stepped.sent ≡ before ++ results_to session id results → has_error results ≡ true
        → stepped.state.database ≡ s.database }
    ensures later { (s : State) (waiting : Outstanding) (outcome : Option Outcome)
        (results : Items) (before : List Sent) (stepped : Stepped)
        → tries_again s waiting outcome ≡ Some stepped
        → stepped.sent ≡ before ++ results_to waiting.session waiting.id results
        → has_error results ≡ true → stepped.state.database ≡ s.database }
    ensures blocked { (s : State) (session : ℕ) (draws : List Uuid) (outcome : Option Outcome)
        (id : Data) (operations : Items) (timeout : Option ℕ) (stepped : Stepped)
        → works s session draws outcome (Transact id operations) ≡ Some stepped
        → transaction s.schema s.database (owns s.queues session) draws 0 operations ≡ Waits timeout
        → LeavesBlocked s (arrived s session id draws operations) timeout outcome stepped }
    ensures blocked_again { (s : State) (waiting : Outstanding) (outcome : Option Outcome)
        (timeout : Option ℕ) (stepped : Stepped)
        → tries_again s waiting outcome ≡ Some stepped
        → tried_in s.schema s waiting ≡ Waits timeout
        → LeavesBlocked s waiting timeout outcome stepped }
{}

/// If the store keeps what a transaction changed, the monitors receive the change before the reply: session by session and
/// monitor by monitor, what differs between the database before and after (RFC 7047, 4.1.6; the order is this server's). If
/// it keeps nothing, they receive nothing: only the reply is sent, or nothing if the transaction waits.
pub fn updates_come_before_the_reply()
    ensures arrived { (s : State) (session : ℕ) (draws : List Uuid) (id : Data)
        (operations : Items) (stepped : Stepped)
        → works s session draws (Some Committed) (Transact id operations) ≡ Some stepped
        → SendsUpdatesFirst s session id stepped }
    ensures later { (s : State) (waiting : Outstanding) (stepped : Stepped)
        → tries_again s waiting (Some Committed) ≡ Some stepped
        → SendsUpdatesFirst s waiting.session waiting.id stepped }
    ensures arrived_unkept { (s : State) (session : ℕ) (draws : List Uuid)
        (outcome : Option Outcome) (id : Data) (operations : Items) (stepped : Stepped)
        → works s session draws outcome (Transact id operations) ≡ Some stepped
        → is_kept outcome ≡ false → outcome ≢ Some NoMemory
        → SendsAtMostReply session id stepped }
    ensures later_unkept { (s : State) (waiting : Outstanding) (outcome : Option Outcome)
        (stepped : Stepped)
        → tries_again s waiting outcome ≡ Some stepped
        → is_kept outcome ≡ false → outcome ≢ Some NoMemory
        → SendsAtMostReply waiting.session waiting.id stepped }
{}

/// An `assert` passes only for the session that is first in the queue of the lock (RFC 7047, 5.2.10), both when its
/// transaction arrives and at each later try.
pub fn assert_passes_only_for_the_owner()
    ensures arrived { (s : State) (session : ℕ) (draws : List Uuid) (outcome : Option Outcome)
        (id : Data) (operations results : Items) (before : List Sent) (stepped : Stepped)
        (place : ℕ) (operation : Data) (name : List ℕ)
        → works s session draws outcome (Transact id operations) ≡ Some stepped
        → stepped.sent ≡ before ++ results_to session id results
        → item_at place operations ≡ Some operation → Asserts name operation
        → item_at place results ≡ Some empty_result → owner name s.queues ≡ Some session }
    ensures later { (s : State) (waiting : Outstanding) (outcome : Option Outcome)
        (results : Items) (before : List Sent) (stepped : Stepped)
        (place : ℕ) (operation : Data) (name : List ℕ)
        → tries_again s waiting outcome ≡ Some stepped
        → stepped.sent ≡ before ++ results_to waiting.session waiting.id results
        → item_at place waiting.operations ≡ Some operation → Asserts name operation
        → item_at place results ≡ Some empty_result
        → owner name s.queues ≡ Some waiting.session }
{}

/// A lock has at most one owner. In each state reached by a run from an opening, the queues ascend by the names of their
/// locks, no session is in a queue twice, and a session that is not open is in none (RFC 7047, 4.1.8).
pub fn queues_of_locks_are_in_order()
    ensures owner { (queues : Queues) (name : List ℕ) (one other : ℕ)
        → owns queues one name ≡ true → owns queues other name ≡ true → one ≡ other }
    ensures ascend { (schema : Schema) (database : Database) (history : List Entry)
        (stepped : Stepped)
        → run (opening schema database) history ≡ Some stepped
        → DoQueuesAscend stepped.state.queues }
    ensures once { (schema : Schema) (database : Database) (history : List Entry)
        (stepped : Stepped)
        → run (opening schema database) history ≡ Some stepped
        → (name : List ℕ) → HasNoRepeats (queue_of name stepped.state.queues) }
    ensures shut { (schema : Schema) (database : Database) (history : List Entry)
        (stepped : Stepped)
        → run (opening schema database) history ≡ Some stepped
        → (session : ℕ) (name : List ℕ) → is_open stepped.state session ≡ false
        → has_requested session name stepped.state.queues ≡ false }
{}

/// In each state reached by a run from an opening, a step sends only to sessions that are open before it.
pub fn only_open_sessions_are_sent_to()
    ensures { (schema : Schema) (database : Database) (history : List Entry)
        (before after : Stepped) (entry : Entry)
        → run (opening schema database) history ≡ Some before
        → step before.state entry ≡ Some after
        → list_all (λ sent. is_open before.state sent.session) after.sent ≡ true }
{}

/// The relation and the program give the same settling of every state: on from a try that leaves the database as it was, and
/// from the first again after one that changes it.
pub fn settling_is_its_relation()
    ensures { (s : State) (number : ℕ) (attempts : List Attempt) (passed : Passed)
        → (IsSettling s number attempts passed ↔ (settle s number attempts ≡ Some passed)) }
{}

/// Settling n transactions that wait takes at most n · (n + 1) / 2 attempts. So while n transactions wait, a `Tick` makes at
/// most as many, a message one more, and no other event makes any. No attempt with a higher number is listed.
pub fn settling_takes_few_attempts()
    ensures settling { (s : State) (number : ℕ) (attempts : List Attempt) (passed : Passed)
        → settle s number attempts ≡ Some passed
        → 2 * (passed.next - number) ≤ length s.outstanding * (length s.outstanding + 1) }
    ensures event { (s : State) (entry : Entry) (stepped : Stepped)
        → step s entry ≡ Some stepped
        → attempts_of (at_moment_of entry s) entry.choice entry.event
        ≤ most_attempts entry.event (length s.outstanding) }
    ensures listed { (s : State) (entry : Entry) (stepped : Stepped)
        → step s entry ≡ Some stepped
        → let most = most_attempts entry.event (length s.outstanding) in
        list_all (λ a. nat_le a.number most) entry.choice.outcomes ≡ true }
{}

/// Settling ends when each remaining transaction is blocked: tried again on the database as it is then, at its age, it would
/// wait, with the timeout that is kept for it.
pub fn settling_leaves_what_is_blocked()
    ensures { (s : State) (number : ℕ) (attempts : List Attempt) (passed : Passed)
        → settle s number attempts ≡ Some passed
        → AreBlocked passed.tried.stepped.state }
{}

/// If all draws are identifiers, each step of the machine keeps the schema, and the rows stay rows of the schema. The same
/// holds for each run from an opening.
pub fn rows_stay_those_of_the_schema()
    ensures step { (s : State) (entry : Entry) (stepped : Stepped)
        → step s entry ≡ Some stepped → draws_uuids entry ≡ true → SuitsState s
        → (stepped.state.schema ≡ s.schema) × SuitsState stepped.state }
    ensures run { (schema : Schema) (database : Database) (history : List Entry) (stepped : Stepped)
        → run (opening schema database) history ≡ Some stepped
        → list_all draws_uuids history ≡ true → Suits schema database
        → (stepped.state.schema ≡ schema) × SuitsState stepped.state }
{}

/// Under an accepted schema, each step of the machine keeps the rows whole: each reference is to an existing row, each row
/// is supported, and no limit is broken. So does each run from an opening whose rows are whole.
pub fn rows_stay_whole()
    ensures step { (s : State) (entry : Entry) (stepped : Stepped)
        → step s entry ≡ Some stepped → IsAccepted s.schema → IsWholeState s
        → (stepped.state.schema ≡ s.schema) × IsWholeState stepped.state }
    ensures run { (schema : Schema) (database : Database) (history : List Entry) (stepped : Stepped)
        → run (opening schema database) history ≡ Some stepped
        → IsAccepted schema → is_whole schema database ≡ true
        → (stepped.state.schema ≡ schema) × IsWholeState stepped.state }
{}

/// The rows that are kept are those among some rows which keep one another: the greatest supported part of all rows (RFC
/// 7047, 3.2, `<table-schema>`, isRoot).
pub fn kept_rows_are_the_greatest_supported()
    ensures { (schema : Schema) (rows : Database)
        → IsGreatestSupported schema rows (kept schema rows) }
{}

/// What a commit makes under an accepted schema is whole: each reference is to an existing row, each row is supported, and
/// no limit is broken. From rows of the schema a commit makes rows of the schema, and it leaves whole rows as they are.
pub fn what_is_committed_is_whole()
    ensures whole { (tree : Data) (schema : Schema) (before rows database : Database)
        (version : Uuid)
        → accepted tree ≡ Ok schema → committed schema before version rows ≡ Ok database
        → is_whole schema database ≡ true }
    ensures suits { (schema : Schema) (before rows database : Database) (version : Uuid)
        → Suits schema before → is_uuid version ≡ true → Suits schema rows
        → committed schema before version rows ≡ Ok database
        → Suits schema database }
    ensures stays { (schema : Schema) (before rows : Database) (version : Uuid)
        → Suits schema rows → is_whole schema rows ≡ true
        → committed schema before version rows ≡ Ok rows }
{}

/// The databases of a history are the one before it, and the one after each commit that the store keeps. So one follows for
/// each attempt that is listed as kept.
pub fn each_commit_adds_a_database()
    ensures { (before : State) (history : List Entry) (after : Stepped)
        → run before history ≡ Some after
        → length (kept_by before history) ≡ length (commits_in history) }
{}

/// The last database of a history is the state's.
pub fn the_last_database_is_the_states()
    ensures { (before : State) (history : List Entry) (after : Stepped)
        → run before history ≡ Some after
        → IsLastOf after.state.database (databases before history) }
{}

/// From an opening, the n-th database after the first is made of the one before it by the n-th attempt of the history that the
/// store kept. It tries a transaction which its entry or an earlier one took, in the state of the machine at this attempt: with
/// the locks and at the age there. The transaction completes without an error among its results, and changes something (RFC
/// 7047, 4.1.3).
pub fn each_database_is_made_by_one_transaction()
    ensures { (schema : Schema) (database : Database) (history : List Entry) (after : Stepped)
        (earlier later : List Database) (one next : Database)
        → run (opening schema database) history ≡ Some after
        → databases (opening schema database) history ≡ earlier ++ one ∷ next ∷ later
        → Makes (opening schema database) history Committed (length earlier) one next }
{}

/// In the same way the database that a failed commit would have made is made of the last one, by an attempt at which the store
/// failed. All attempts that it kept come before.
pub fn a_failed_commit_would_have_made_the_next_database()
    ensures { (schema : Schema) (database : Database) (history : List Entry) (after : Stepped)
        (failed : Database)
        → run (opening schema database) history ≡ Some after → after.state.sealed ≡ Some failed
        → let kept = length (commits_in history) in
        Makes (opening schema database) history Failed kept after.state.database failed }
{}

/// Crashes leave the databases of a history in their order. Those of a front are the first of the history's. After each front a
/// crash leaves the last of the front's, or the one that a failed commit would have made; and after that no other is kept.
pub fn crashes_leave_the_databases_in_order()
    ensures front { (before : State) (front back : List Entry) (mid : Stepped)
        → run before front ≡ Some mid
        → databases before (front ++ back) ≡ databases before front ++ kept_by mid.state back }
    ensures left { (before : State) (front : List Entry) (mid : Stepped) (database : Database)
        → run before front ≡ Some mid → Left mid.state database
        → IsLastOf database (databases before front) ⊎ (mid.state.sealed ≡ Some database) }
    ensures sealed { (mid : State) (back : List Entry) (after : Stepped) (failed : Database)
        → run mid back ≡ Some after → mid.sealed ≡ Some failed
        → (after.state.sealed ≡ Some failed) × (kept_by mid back ≡ []) }
{}

/// A reply without an error whose transaction changes the database is sent only by the attempt whose change is kept, when the
/// transaction arrives and at each later try. So each reply without an error reports on databases of its entry: an attempt of
/// the entry tried its transaction, which this entry or an earlier one took, on the one after those that were kept before it,
/// and left that as it was or made the next one of it. Other replies are those to a message that asks for no transaction.
pub fn a_change_is_kept_before_its_reply()
    ensures arrived { (s : State) (session : ℕ) (draws : List Uuid) (outcome : Option Outcome)
        (id : Data) (operations own results : Items) (database : Database) (before : List Sent)
        (stepped : Stepped)
        → works s session draws outcome (Transact id operations) ≡ Some stepped
        → stepped.sent ≡ before ++ results_to session id results → has_error results ≡ false
        → transaction s.schema s.database (owns s.queues session) draws 0 operations
        ≡ Completes own database → same_database s.database database ≡ false
        → (outcome ≡ Some Committed) × (stepped.state.database ≡ database) }
    ensures later { (s : State) (waiting : Outstanding) (outcome : Option Outcome)
        (own results : Items) (database : Database) (before : List Sent) (stepped : Stepped)
        → tries_again s waiting outcome ≡ Some stepped
        → stepped.sent ≡ before ++ results_to waiting.session waiting.id results
        → has_error results ≡ false
        → tried_in s.schema s waiting ≡ Completes own database
        → same_database s.database database ≡ false
        → (outcome ≡ Some Committed) × (stepped.state.database ≡ database) }
    ensures entry { (schema : Schema) (database : Database) (history : List Entry)
        (before after : Stepped) (entry : Entry) (session : ℕ) (id : Data) (results : Items)
        (front back : List Sent)
        → run (opening schema database) history ≡ Some before
        → step before.state entry ≡ Some after
        → takes_another (at_moment_of entry before.state) entry.event ≡ false
        → after.sent ≡ front ++ (results_to session id results ++ back)
        → has_error results ≡ false
        → RepliesTo (opening schema database) history before.state entry
        (databases before.state (entry ∷ []))
        (record { session = session; id = id; results = results }) }
{}

/// A conversion to a newer schema keeps the values of the columns that both schemas have, in each row of a table that both
/// have. A column that is added has its default there, and one that the newer schema lacks has no value. A row whose table has
/// the same columns in both stays as it is, with its version; if the table gets or loses a column, the row gets the version of
/// the conversion. Rows of tables that the newer schema lacks are dropped, and each row that is carried over was there before.
/// This is so before the rules of a commit are applied.
pub fn a_conversion_keeps_what_both_schemas_have()
    ensures common { (old new : Schema) (version : Uuid) (before : Database) (key : LineKey)
        (row : Row) (from to : Table) (name : List ℕ)
        → get before key ≡ Some row → get old.tables key.0 ≡ Some from
        → get new.tables key.0 ≡ Some to → SuitsTable from row.columns
        → is_some (column_of_row from name) ≡ true → is_some (column_of_row to name) ≡ true
        → value_at (carried old new version before) key name ≡ get row.columns name }
    ensures added { (old new : Schema) (version : Uuid) (before : Database) (key : LineKey)
        (row : Row) (from to : Table) (name : List ℕ) (column : Column)
        → get before key ≡ Some row → get old.tables key.0 ≡ Some from
        → get new.tables key.0 ≡ Some to
        → column_of_row from name ≡ None → column_of_row to name ≡ Some column
        → value_at (carried old new version before) key name ≡ Some (default_of column.type_of) }
    ensures without { (old new : Schema) (version : Uuid) (before : Database) (key : LineKey)
        (row : Row) (from to : Table) (name : List ℕ)
        → get before key ≡ Some row → get old.tables key.0 ≡ Some from
        → get new.tables key.0 ≡ Some to
        → column_of_row to name ≡ None
        → value_at (carried old new version before) key name ≡ None }
    ensures unchanged { (old new : Schema) (version : Uuid) (before : Database) (key : LineKey)
        (row : Row) (from to : Table)
        → get before key ≡ Some row → get old.tables key.0 ≡ Some from
        → get new.tables key.0 ≡ Some to → SuitsTable from row.columns
        → ((name : List ℕ) → is_some (column_of_row from name) ≡ is_some (column_of_row to name))
        → get (carried old new version before) key ≡ Some row }
    ensures changed { (old new : Schema) (version : Uuid) (before : Database) (key : LineKey)
        (row : Row) (from to : Table) (name : List ℕ)
        → get before key ≡ Some row → get old.tables key.0 ≡ Some from
        → get new.tables key.0 ≡ Some to → SuitsTable from row.columns
        → is_some (column_of_row from name) ≡ not (is_some (column_of_row to name))
        → option_map (λ r. r.version) (get (carried old new version before) key) ≡ Some version }
    ensures dropped { (old new : Schema) (version : Uuid) (before : Database) (key : LineKey)
        → get new.tables key.0 ≡ None
        → get (carried old new version before) key ≡ None }
    ensures former { (old new : Schema) (version : Uuid) (before : Database) (key : LineKey)
        (row : Row)
        → get (carried old new version before) key ≡ Some row
        → (former : Row) × (get before key ≡ Some former) }
{}

/// A mutation of a row of a table mutates the value that the row has in the mutation's column, and leaves the other columns as
/// they are; or it has the fault of that value (RFC 7047, 5.2.4).
pub fn a_mutation_changes_its_column_alone()
    ensures { (table : Table) (columns : Columns) (m : Mutation)
        → SuitsTable table columns → is_some (column_of_row table m.column) ≡ true
        → (old : Datum) × (get columns m.column ≡ Some old)
        × (column_mutated m columns
        ≡ result_map (λ datum. insert columns m.column datum) (mutated_value m old)) }
{}

/// Two columns have the same type exactly if all parts of their types are equal (RFC 7047, 3.2, `<type>`).
pub fn the_same_types_are_equal()
    ensures { (a b : ColumnType) → ((same_type a b ≡ true) ↔ (a ≡ b)) }
{}
