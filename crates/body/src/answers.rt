// What an opened body answers.
ghost use Rattle.std.specs.Prelude.{◌≡◌, ◌+◌, ◌≤◌, length, option_copied, Some};
ghost use Rattle.reader.specs.Numbers.{numbered};
ghost use Rattle.body.specs.Answers.{type_in, binding_in, node_in, closure_at, closure_in, home_in, lies_around, is_upvar, view_types, view_bindings, view_nodes};
ghost use Rattle.body.specs.Bodies.{body_of};
ghost use Rattle.indexing.specs.Opening.{rows_of};
ghost use Rattle.body.specs.Placed.{payload_in};
ghost use Rattle.node.specs.Nodes.{view_node};

use crate::bodies::{Binding, Body, ClosureNode};
use node::nodes::{Expr, Node};
use reader::pieces::{behind, byte_at, number_at, payload_at};
use reader::types::TypeRecord;

// The closure that a node is.
fn as_closure(number: u16, node: Node) -> Option<ClosureNode>
    ensures { result ≡ closure_at number (Some (view_node node.entry)) }
{
    let Node::Expr(found) = node else {
        return None;
    };
    let Expr::Closure { body, by_move } = found.expr else {
        return None;
    };
    Some(ClosureNode {
        node: number,
        body,
        by_move,
        home: found.home,
    })
}

impl<'a> Body<'a> {
    pub fn type_count(&self) -> u16
        ensures { result ≡ length (body_of self.now).types }
    {
        self.core.counts.types
    }

    pub fn binding_count(&self) -> u16
        ensures { result ≡ length (body_of self.now).bindings }
    {
        self.core.counts.bindings
    }

    pub fn node_count(&self) -> u16
        ensures { result ≡ length (body_of self.now).nodes }
    {
        self.core.counts.nodes
    }

    pub fn closure_count(&self) -> u8
        ensures { result ≡ length (body_of self.now).closures }
    {
        self.core.counts.closures
    }

    // The payload of a record by its number from 1, among so many behind the first rows.
    fn payload(&self, before: usize, count: u16, number: u16) -> Option<&'a [u8]>
        requires { before + count ≤ length (rows_of (body_of self.now)) }
        ensures { option_copied result ≡ payload_in (rows_of (body_of self.now)) self.now.file.now before count number }
    {
        if number == 0 || number > count {
            return None;
        }
        let row = self.rows[before + (number as usize - 1)];
        Some(payload_at(self.file, row.offset))
    }

    // A type record by its number.
    pub fn type_record(&self, number: u16) -> Option<TypeRecord<'a>>
        ensures { view_types result ≡ type_in (body_of self.now) number }
    {
        let payload = self.payload(0, self.type_count(), number)?;
        Some(TypeRecord::of(payload))
    }

    pub fn binding(&self, number: u16) -> Option<Binding<'a>>
        ensures { view_bindings result ≡ binding_in (body_of self.now) number }
    {
        let before = self.type_count() as usize;
        let payload = self.payload(before, self.binding_count(), number)?;
        Some(Binding {
            ty: number_at(payload, 0),
            owner: byte_at(payload, 2),
            name: behind(payload, 3),
        })
    }

    pub fn node(&self, number: u16) -> Option<Node<'a>>
        ensures { view_nodes result ≡ node_in (body_of self.now) number }
    {
        let before = self.type_count() as usize + self.binding_count() as usize;
        let payload = self.payload(before, self.node_count(), number)?;
        Some(Node::of(payload))
    }

    // The node of a closure.
    fn closure_node(&self, number: u8) -> Option<u16>
        ensures { result ≡ numbered (body_of self.now).closures number }
    {
        let count = self.closure_count();
        if number == 0 || number > count {
            return None;
        }
        Some(self.core.closures[number as usize])
    }

    // A closure by its number: its node, its body, its clause and its home.
    pub fn closure(&self, number: u8) -> Option<ClosureNode>
        ensures { result ≡ closure_in (body_of self.now) number }
    {
        let node = self.closure_node(number)?;
        as_closure(node, self.node(node)?)
    }

    // The closure directly around a closure, 0 where there is none.
    pub fn home(&self, number: u8) -> u8
        ensures { result ≡ home_in (body_of self.now) number }
    {
        self.closure(number).map_or(0, |closure| closure.home)
    }

    // Whether a closure lies properly around another.
    pub fn lies_around(&self, outer: u8, inner: u8) -> bool
        ensures { result ≡ lies_around (body_of self.now) outer inner }
    {
        let mut home = self.home(inner);
        for _passed in 0..self.closure_count() {
            if home == 0 {
                return false;
            }
            if home == outer {
                return true;
            }
            home = self.home(home);
        }
        false
    }

    // Whether a binding is an upvar of a closure.
    pub fn is_upvar(&self, binding: u16, closure: u8) -> bool
        ensures { result ≡ is_upvar (body_of self.now) binding closure }
    {
        let Some(found) = self.binding(binding) else {
            return false;
        };
        found.owner == 0 || self.lies_around(found.owner, closure)
    }
}
