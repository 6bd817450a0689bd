//! Laws of the table. The functions do nothing: their contracts are the laws.

ghost use Rattle.std.specs.Prelude.{◌≡◌, ◌≢◌, ℕ, ◌⊎◌, List, [], None};
ghost use Rattle.swim_wire.specs.declared.rules.Rules.{Rules};
ghost use Rattle.swim_rules.specs.declared.table.Row.{Row};
ghost use Rattle.swim_rules.specs.Rules.{row, rows};
ghost use Rattle.swim_rules.specs.Rows.{Members, AreInOrder, row_of};
ghost use Rattle.swim_rules.specs.Calls.{Call, table_after_all, told_after_all};
ghost use Rattle.swim_rules.specs.Hearing.{HaveSameUpdates, LacksConfirm, HaveRoom, LeaveAlike};

/// After any list of calls of `hear`, `expire` and `forget`, each with any arguments, the row of
/// each member is the top of what was heard of it since it was last forgotten, with the time at
/// which it was heard. At first that is the row that the table began with, if it had one: a new
/// table has none.
pub fn rows_are_tops()
    ensures each { (table : Members) → AreInOrder table.rows → (calls : List Call) → (x : ℕ)
        → row_of (table_after_all table calls).rows x
        ≡ row table.rules table.rows (told_after_all table [] calls) x }
    ensures all { (table : Members) → AreInOrder table.rows → (calls : List Call)
        → (table_after_all table calls).rows
        ≡ rows table.rules table.rows (told_after_all table [] calls) }
{}

/// Two lists with the same updates, in whatever order, however often and at whatever times each is
/// heard, leave the same update about a member, by rules 1 of a Confirm its number aside: where the
/// member has a row before, and also where none of the updates is a Confirm and none finds the table
/// full.
pub fn order_is_of_no_matter()
    ensures row { (rules : Rules) → (rows : List Row) → (heard others : List Row) → (x : ℕ)
        → HaveSameUpdates heard others
        → row_of rows x ≢ None
        → LeaveAlike rules rows heard others x }
    ensures room { (rules : Rules) → (rows : List Row) → (heard others : List Row) → (x : ℕ)
        → HaveSameUpdates heard others
        → LacksConfirm heard → HaveRoom rules rows heard → HaveRoom rules rows others
        → LeaveAlike rules rows heard others x }
{}
