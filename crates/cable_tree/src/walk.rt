ghost use Rattle.std.specs.Prelude.{◌≡◌, ◌<◌, ◌++◌, length, IfOk, OnOk};
ghost use Rattle.cable_tree.specs.FrameOrder.{order as order_of};
ghost use Rattle.cable_tree.specs.Kept.{ArePlaces};
ghost use Rattle.cable_tree.specs.WalkStack.{one_or_none, with_children};

use crate::port::Port;
use crate::wiring::Wiring;
use std::alloc::{AllocError, Global};

// The rows in the order in which a frame visits them.
pub(crate) fn frame_order(alloc: Global, wiring: &Wiring) -> Result<Vec<u16>, AllocError>
    ensures { IfOk result (λ rows. rows.items ≡ order_of wiring.now) }
{
    let mut order = Vec::with_capacity(alloc, wiring.len())?;
    let mut stack = Vec::new(alloc);
    stack.push(wiring.root())?;
    while let Some(row) = stack.pop() {
        order.push(row)?;
        put_children(&mut stack, wiring, row)?;
    }
    Ok(order)
}

// Puts the children of a row on the stack: the last of them is visited first.
fn put_children(stack: &mut Vec<u16>, wiring: &Wiring, row: u16) -> Result<(), AllocError>
    requires { row < length wiring.now }
    ensures { OnOk result (stack.new.items ≡ with_children wiring.now row stack.old.items) }
{
    put(stack, wiring.child(row, Port::P2))?;
    put(stack, wiring.child(row, Port::P1))?;
    put(stack, wiring.child(row, Port::P3))
}

// Puts a child, if there is one, on the stack.
fn put(stack: &mut Vec<u16>, child: Option<u16>) -> Result<(), AllocError>
    ensures { OnOk result (stack.new.items ≡ stack.old.items ++ one_or_none child) }
{
    if let Some(row) = child {
        stack.push(row)?;
    }
    Ok(())
}

// The place of each row in the frame order.
pub(crate) fn places(alloc: Global, wiring: &Wiring, order: &[u16]) -> Result<Vec<u16>, AllocError>
    requires { order.now ≡ order_of wiring.now }
    ensures { IfOk result (λ places. ArePlaces wiring.now places.items) }
{
    let mut places = Vec::from_elem(alloc, 0, wiring.len())?;
    for (place, row) in order.iter().enumerate() {
        places[usize::from(*row)] = place as u16;
    }
    Ok(places)
}
