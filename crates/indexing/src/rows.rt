// The index table: a row a record.
ghost use Rattle.std.specs.Prelude.{◌≡◌};
ghost use Rattle.indexing.specs.Rows.{row_at};

#[derive(Clone, Copy, PartialEq, Eq, Debug, Default)]
pub enum RowSort {
    #[default]
    Type,
    Binding,
    Expr,
    Pat,
}

// Where a record begins and what it is; the home of a node or the owner of a binding; how deep a node nests.
// By default it is a row of no node.
#[derive(Clone, Copy, PartialEq, Eq, Debug, Default)]
pub struct Row {
    pub offset: usize,
    pub sort: RowSort,
    pub home: u8,
    pub depth: u8,
}

// The row of a node by its number, from 1, among the rows of the nodes.
pub(crate) fn row_at(nodes: &[Row], number: u16) -> Row
    ensures { result ≡ row_at nodes.now number }
{
    number
        .checked_sub(1)
        .and_then(|at| nodes.get(at as usize))
        .copied()
        .unwrap_or_default()
}
