// An opened body: the file, its index table, and what it holds.
ghost use Rattle.std.specs.Prelude.{◌≡◌, ◌≤◌, length, take, drop};
ghost use Rattle.indexing.specs.Opening.{rows_of};
ghost use Rattle.body.specs.Drafts.{drafted};

use indexing::index::Core;
use indexing::rows::Row;

// Its rows, counts and closures are those of the body that the file opens as.
#[derive(Clone, Copy)]
pub struct Body<'a> {
    pub(crate) file: &'a [u8],
    pub(crate) rows: &'a [Row],
    pub(crate) core: Core,
    ghost types: { core.counts.types ≡ length (drafted rows.now file.now).types },
    ghost bindings: { core.counts.bindings ≡ length (drafted rows.now file.now).bindings },
    ghost nodes: { core.counts.nodes ≡ length (drafted rows.now file.now).nodes },
    ghost closures: { core.counts.closures ≡ length (drafted rows.now file.now).closures },
    ghost few: { core.counts.closures ≤ 64 },
    ghost indexed: { take (length (rows_of (drafted rows.now file.now))) rows.now ≡ rows_of (drafted rows.now file.now) },
    ghost named: { take (length (drafted rows.now file.now).closures) (drop 1 core.closures) ≡ (drafted rows.now file.now).closures },
}

// A binding: its type, the closure that owns it (0: none), and its name.
#[derive(Clone, Copy, PartialEq, Eq, Debug)]
pub struct Binding<'a> {
    pub ty: u16,
    pub owner: u8,
    pub name: &'a [u8],
}

// A closure: its node, its body, whether it moves, and the closure directly around it (0: none).
#[derive(Clone, Copy, PartialEq, Eq, Debug)]
pub struct ClosureNode {
    pub node: u16,
    pub body: u16,
    pub by_move: bool,
    pub home: u8,
}
