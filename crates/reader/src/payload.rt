// What a payload may hold, by the tag of its record.
ghost use Rattle.std.specs.Prelude.{◌≡◌};
ghost use Rattle.reader.specs.Payloads.{item_of, node_item, type_fits, numbers_fit, adjustments_fit, front_fits, node_fits, operands_from, operand_bytes};

use crate::class::Class;
use crate::operands::Operands;
use crate::pieces::{behind, byte_at};

// What a record counts as: a closure is a node too.
#[derive(Clone, Copy, PartialEq, Eq, Debug)]
pub enum Item {
    Type,
    Binding,
    Node,
    Closure,
}

// What is wrong with a payload: its tag or class is unknown, or its length or a byte of it misfits.
#[derive(Clone, Copy, PartialEq, Eq, Debug)]
pub enum Wrong {
    Unknown,
    Misfit,
}

// What a record of a tag is, with this payload.
pub fn item_of(tag: u8, payload: &[u8]) -> Result<Item, Wrong>
    ensures { result ≡ item_of tag payload.now }
{
    match tag {
        1 if type_fits(payload) => Ok(Item::Type),
        2 if payload.len() >= 3 => Ok(Item::Binding),
        1 | 2 => Err(Wrong::Misfit),
        3 => node_item(payload),
        _ => Err(Wrong::Unknown),
    }
}

// A type: its shape, its Copy byte, and as many numbers as the shape has.
fn type_fits(payload: &[u8]) -> bool
    ensures { result ≡ type_fits payload.now }
{
    let [shape, copies, numbers @ ..] = payload else {
        return false;
    };
    *copies <= 1 && numbers_fit(*shape, numbers.len())
}

// Whether a shape takes numbers of so many bytes.
fn numbers_fit(shape: u8, bytes: usize) -> bool
    ensures { result ≡ numbers_fit shape bytes }
{
    match shape {
        1 => bytes == 0,
        2 | 3 | 4 | 5 | 9 => bytes == 2,
        6 | 7 | 8 => bytes % 2 == 0,
        _ => false,
    }
}

fn node_item(payload: &[u8]) -> Result<Item, Wrong>
    ensures { result ≡ node_item payload.now }
{
    let [_, class, ..] = payload else {
        return Err(Wrong::Misfit);
    };
    let class = Class::try_from(*class)?;
    if !node_fits(class, payload) {
        return Err(Wrong::Misfit);
    }
    if class.is_closure() {
        Ok(Item::Closure)
    } else {
        Ok(Item::Node)
    }
}

// The bytes of a node's operands, behind its type and adjustments or its implicit dereferences.
pub fn operand_bytes<'a>(class: Class, payload: &'a [u8]) -> &'a [u8]
    ensures { result.now ≡ operand_bytes class payload.now }
{
    behind(payload, operands_from(class, payload))
}

// Where the operands begin.
fn operands_from(class: Class, payload: &[u8]) -> usize
    ensures { result ≡ operands_from class payload.now }
{
    if class.is_expression() {
        5 + 3 * byte_at(payload, 4) as usize
    } else {
        3
    }
}

// A node: its front, then the operands of its class.
fn node_fits(class: Class, payload: &[u8]) -> bool
    ensures { result ≡ node_fits class payload.now }
{
    let operands = Operands {
        bytes: operand_bytes(class, payload),
        sorts: class.head(),
        again: class.again(),
    };
    front_fits(class, payload) && operands.fit()
}

// What stands before the operands.
fn front_fits(class: Class, payload: &[u8]) -> bool
    ensures { result ≡ front_fits class payload.now }
{
    if !class.is_expression() {
        return payload.len() >= 3;
    }
    let [_, _, _, _, count, rest @ ..] = payload else {
        return false;
    };
    adjustments_fit(*count, rest)
}

// Whether so many adjustments stand at the front, each a code of at most 6 and a type.
fn adjustments_fit(count: u8, bytes: &[u8]) -> bool
    ensures { result ≡ adjustments_fit count bytes.now }
{
    let mut rest = bytes;
    for _done in 0..count {
        let [code, _, _, tail @ ..] = rest else {
            return false;
        };
        if *code > 6 {
            return false;
        }
        rest = tail;
    }
    true
}
