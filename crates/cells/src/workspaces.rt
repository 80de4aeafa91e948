// A file of its own, since `specs/Space` speaks of the struct: what its ghost facts cite may not.
ghost use Rattle.cells.specs.Rows.{Rows};
ghost use Rattle.cells.specs.View.{Room};

/// The two workspaces of an ordering of `n` columns, as they are lent: fixed memory is a rule of the project, so the scratch is an arena of fields. Clauses see
/// the number of columns and both as lists (`space`). Every cell of the list space holds a row, and of the fields of the scratch the place of a list alone may
/// be below 0, where it is a parent. What ties a number to the memory (a row below n, a cell below the size) stays a clause: the number does not hold it.
///
/// No model, and a lifetime for each slice: so who lends them knows behind a call what they hold. The fields are open, so that a function over slices is lent
/// both; one that is shared is named first (`let rows = &mut *m.rows;`), since of a field that is lent by `&` where it stands nothing is known behind the call.
#[derive(Drop)]
pub struct Memory<'a, 'b> {
    pub columns: usize,
    pub rows: &'a mut [i64],
    pub fields: &'b mut [i64],
    ghost room: { Room columns fields.now },
    ghost listed: { Rows columns rows.now },
}
